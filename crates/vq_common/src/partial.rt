//! Bytes of a chain from a location on, a few at a time.

ghost use Rattle.std.specs.Prelude.{◌≡◌, ◌+◌, ◌-◌, ◌*◌, ◌≤◌, ◌++◌, IsTrue, length, min, take, drop};
ghost use Rattle.vt_types.specs.Limits.{GUEST_PAGE};
ghost use Rattle.guest_mem.specs.Memory.{part};
ghost use Rattle.guest_mem.specs.Pages.{missing, written};
ghost use Rattle.vq_common.specs.Piece.{keeps_rules, readable, readable_len};
ghost use Rattle.vq_common.specs.Partial.{HasPages, MakesPagesOf, scatter_from};

use crate::chain::{Chain, Piece};
use guest_mem::GuestMem;

/// Fills the front of a room with the bytes of a piece from `offset` on, as many as there are and fit, and answers how
/// many they are.
fn read_from(mem: &GuestMem, piece: &Piece, offset: u32, room: &mut [u8]) -> usize
    requires within { offset ≤ piece.now.len }
    requires inside { piece.now.addr + piece.now.len ≤ length mem.now.bytes }
    ensures count { result ≡ min (piece.now.len - offset) (length room.old) }
    ensures bytes { room.new ≡ part mem.now.bytes (piece.now.addr + offset) result ++ drop result room.old }
{
    // No address of the piece passes this length, so the sum below fits.
    let _memory = mem.len();
    let count = room.len().min((piece.len - offset) as usize);
    let _inside = mem.read(piece.addr + offset as u64, &mut room[..count]);
    count
}

/// Writes the first bytes over a piece from `offset` on, as many as there are and fit, and answers how many they are.
fn write_from(mem: &mut GuestMem, piece: &Piece, offset: u32, bytes: &[u8]) -> usize
    requires within { offset ≤ piece.now.len }
    requires inside { piece.now.addr + piece.now.len ≤ length mem.old.bytes }
    requires pages { missing mem.old.made (piece.now.addr + offset) (min (piece.now.len - offset) (length bytes.now)) ≤ mem.old.spare }
    ensures count { result ≡ min (piece.now.len - offset) (length bytes.now) }
    ensures memory { mem.new ≡ written mem.old (piece.now.addr + offset) (take (piece.now.len - offset) bytes.now) }
    ensures paged { length mem.old.bytes ≤ length mem.old.made * GUEST_PAGE }
{
    // No address of the piece passes this length, so the sum below fits.
    let _memory = mem.len();
    let count = bytes.len().min((piece.len - offset) as usize);
    let _inside = mem.write(piece.addr + offset as u64, &bytes[..count]);
    count
}

impl Chain {
    /// Fills a room with readable bytes, from `offset` on over all readable pieces.
    pub fn read_at(&self, mem: &GuestMem, offset: u32, room: &mut [u8])
        requires rules { IsTrue (keeps_rules (length mem.now.bytes) self.now.pieces.items) }
        requires inside { offset + length room.old ≤ readable_len self.now.pieces.items }
        ensures { room.new ≡ part (readable mem.now.bytes self.now.pieces.items) offset (length room.old) }
    {
        let mut left = offset;
        let mut done = 0;
        'readable: for piece in self.pieces.as_slice() {
            if !piece.write {
                let skipped = left.min(piece.len);
                done += read_from(mem, piece, skipped, &mut room[done..]);
                left -= skipped;
            }
        }
    }

    /// Writes bytes over the writable pieces in order, from `offset` on over all of them, as many as there are and as there
    /// is room for. Of the pages that the writable pieces lack it makes those that it writes.
    pub fn write_at(&self, mem: &mut GuestMem, offset: u32, bytes: &[u8])
        requires rules { IsTrue (keeps_rules (length mem.old.bytes) self.now.pieces.items) }
        requires pages { HasPages self.now.pieces.items mem.old }
        ensures bytes { mem.new.bytes ≡ scatter_from offset mem.old.bytes self.now.pieces.items bytes.now }
        ensures length { length mem.new.bytes ≡ length mem.old.bytes }
        ensures pages { MakesPagesOf self.now.pieces.items mem.old mem.new }
    {
        let mut left = offset;
        let mut done = 0;
        'writable: for piece in self.pieces.as_slice() {
            if piece.write {
                let skipped = left.min(piece.len);
                done += write_from(mem, piece, skipped, &bytes[done..]);
                left -= skipped;
            }
        }
    }
}
