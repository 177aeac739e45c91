//! The rules on the size of a ring and on the pieces of a chain (our own, but for the order of pieces: VIRTIO 1.2,
//! 2.7.4.2).

ghost use Rattle.std.specs.Prelude.{◌≡◌, ◌+◌, ◌%◌, IsTrue, nat_le};
ghost use Rattle.vq_common.specs.Piece.{is_piece, keeps_rules};
ghost use Rattle.vq_common.specs.Queue.{is_ring_size};

use crate::chain::Piece;
use vt_types::{LONGEST_BUFFER, LONGEST_PIECE, MOST_PIECES};

/// The greatest size of a ring (our own).
const GREATEST_RING: u16 = 1024;

/// Whether a ring may have this size: a power of two, at most `GREATEST_RING`.
pub fn is_ring_size(size: u16) -> bool
    ensures { result ≡ is_ring_size size }
{
    size.is_power_of_two() && size <= GREATEST_RING
}

/// The location of a split ring of `size` descriptors at which an element with this index lies.
#[tactic(auto, using(crate::proofs::QueueLaws::masked, crate::proofs::QueueLaws::ring_size_facts))]
#[inline]
pub fn ring_location(index: u16, size: u16) -> u16
    requires { IsTrue (is_ring_size size) }
    ensures { result ≡ index % size }
{
    index & (size - 1)
}

/// Whether `len` bytes from `addr` on lie inside a memory of `memory` bytes.
pub fn is_inside(memory: u64, addr: u64, len: u64) -> bool
    ensures { result ≡ nat_le (addr + len) memory }
{
    len <= memory && addr <= memory - len
}

/// Whether a piece has 1 to `LONGEST_PIECE` bytes and lies inside a memory of `memory` bytes.
fn is_piece_valid(memory: u64, piece: &Piece) -> bool
    ensures { result ≡ is_piece memory piece.now }
{
    piece.len >= 1
        && piece.len <= u32::from(LONGEST_PIECE)
        && is_inside(memory, piece.addr, piece.len as u64)
}

/// Whether pieces keep the rules of a chain: there are 1 to `MOST_PIECES`, each has 1 to `LONGEST_PIECE` bytes inside a
/// memory of `memory` bytes, together they have at most `LONGEST_BUFFER` bytes, and no readable one follows a writable one.
pub fn are_pieces_valid(memory: u64, pieces: &[Piece]) -> bool
    ensures { result ≡ keeps_rules memory pieces.now }
{
    if pieces.is_empty() || pieces.len() > MOST_PIECES {
        return false;
    }
    let mut total = 0;
    let mut writable = false;
    'pieces: for piece in pieces {
        if !is_piece_valid(memory, piece) || (writable && !piece.write) {
            return false;
        }
        total += piece.len;
        writable = piece.write;
    }
    total <= LONGEST_BUFFER as u32
}
