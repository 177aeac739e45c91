//! Indirect tables (VIRTIO 1.2, 2.7.5.3 and 2.8.7).

ghost use Rattle.std.specs.Prelude.{◌≡◌, ◌+◌, ◌*◌, ◌≤◌, length, Some};
ghost use Rattle.vq_common.specs.Chain.{pieces_in};
ghost use Rattle.vq_common.specs.Descriptor.{chain_from};
ghost use Rattle.vq_common.specs.Table.{is_table, packed_table, pieces_if, pieces_if_direct, pieces_with, table_pieces};

use crate::chain::Piece;
use crate::packed_descriptor::PackedDescriptor;
use crate::rules::is_inside;
use crate::walk::WalkStep;
use arrayvec::ArrayVec;
use guest_mem::GuestMem;
use vt_types::MOST_PIECES;

/// Whether a table has 1 to `MOST_PIECES` whole descriptors, no more than the queue has, and lies inside a memory of `memory` bytes.
fn is_table(memory: u64, addr: u64, len: u32, size: u16) -> bool
    ensures { result ≡ is_table memory addr len size }
{
    let count = len / 16;
    len > 0
        && len % 16 == 0
        && is_inside(memory, addr, len as u64)
        && count <= MOST_PIECES as u32
        && count <= size as u32
}

/// Adds the pieces of a split table of `count` descriptors.
fn add_split_table(
    mem: &GuestMem,
    addr: u64,
    count: u16,
    pieces: &mut ArrayVec<Piece, MOST_PIECES>,
) -> bool
    requires { addr + 16 * count ≤ length mem.now.bytes }
    ensures { pieces_if result pieces.new.items ≡ pieces_with pieces.old.items (pieces_if_direct (chain_from count mem.now.bytes addr count 0)) }
{
    let mut location = 0;
    'walk: for _walked in 0..count {
        match WalkStep::take(mem, addr, count, location, pieces) {
            WalkStep::Next(next) => location = next,
            WalkStep::End => return true,
            WalkStep::Table(_) => return false,
            WalkStep::Bad => return false,
        }
    }
    false
}

/// Adds the pieces of a packed table of `count` descriptors.
fn add_packed_table(
    mem: &GuestMem,
    addr: u64,
    count: u16,
    pieces: &mut ArrayVec<Piece, MOST_PIECES>,
) -> bool
    requires { addr + 16 * count ≤ length mem.now.bytes }
    ensures { pieces_if result pieces.new.items ≡ pieces_with pieces.old.items (Some (packed_table count mem.now.bytes addr)) }
{
    if count as usize > pieces.remaining_capacity() {
        return false;
    }
    'packed: for location in 0..count {
        let Some(descriptor) = PackedDescriptor::read(mem, addr, location) else {
            return false;
        };
        pieces.push(descriptor.piece());
    }
    true
}

/// Adds the pieces of the indirect table of `len` bytes at `addr` to those that a walk has, for a queue of `size`
/// descriptors, split or packed, and answers whether it did.
///
/// It did not where the table has not 1 to `MOST_PIECES` whole descriptors, has more than the queue, or is not inside memory; where a
/// split table names a descriptor outside itself, has more than its number of descriptors in its chain, or has one with
/// INDIRECT; and where the pieces would be too many. Then the list may have some of the table's pieces.
pub fn add_table(
    mem: &GuestMem,
    addr: u64,
    len: u32,
    size: u16,
    split: bool,
    pieces: &mut ArrayVec<Piece, MOST_PIECES>,
) -> bool
    ensures { pieces_if result pieces.new.items ≡ pieces_with pieces.old.items (table_pieces mem.now.bytes addr len size split) }
{
    if !is_table(mem.len(), addr, len, size) {
        return false;
    }
    let count = (len / 16) as u16;
    if split {
        add_split_table(mem, addr, count, pieces)
    } else {
        add_packed_table(mem, addr, count, pieces)
    }
}

/// The pieces of the indirect table of `len` bytes at `addr`, for a queue of `size` descriptors, split or packed. None
/// where `add_table` adds none.
pub fn indirect_chain(
    mem: &GuestMem,
    addr: u64,
    len: u32,
    size: u16,
    split: bool,
) -> Option<ArrayVec<Piece, MOST_PIECES>>
    ensures { pieces_in result ≡ table_pieces mem.now.bytes addr len size split }
{
    let mut pieces = ArrayVec::new();
    if add_table(mem, addr, len, size, split, &mut pieces) {
        Some(pieces)
    } else {
        None
    }
}
