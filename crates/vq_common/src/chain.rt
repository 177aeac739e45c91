//! Pieces, chains and a ring's configuration.

ghost use Rattle.std.specs.Prelude.{◌≡◌, ◌+◌, ◌<◌, ◌≤◌, ◌^◌, IsTrue, length, min, take};
ghost use Rattle.vt_types.specs.Limits.{LONGEST_PIECE};
ghost use Rattle.guest_mem.specs.Memory.{put_at};
ghost use Rattle.vq_common.specs.Pages.{PAGES_OF_PUT, PAGES_OF_SCATTER};
ghost use Rattle.vq_common.specs.Piece.{keeps_rules, readable, readable_len, room, scatter};

use arrayvec::ArrayVec;
use guest_mem::GuestMem;
use vt_types::{MOST_PIECES, Room};

/// A piece of a buffer: `len` bytes of guest memory from `addr` on, which the device reads, or writes where `write`.
#[derive(Clone, Copy, Debug, Default, PartialEq, Eq)]
pub struct Piece {
    pub addr: u64,
    pub len: u32,
    pub write: bool,
}

/// A chain of descriptors: its id (split: its head), the locations that it takes of the ring, and its pieces in order.
#[derive(Clone, Drop)]
pub struct Chain {
    pub id: u16,
    pub slots: u16,
    pub pieces: ArrayVec<Piece, MOST_PIECES>,
}

/// Where a ring lies in guest memory (descriptor, driver and device area), how many descriptors it has, and whether
/// VIRTIO_F_INDIRECT_DESC and VIRTIO_F_EVENT_IDX were negotiated.
#[derive(Clone, Copy, Debug, PartialEq, Eq)]
pub struct RingCfg {
    pub desc: u64,
    pub driver: u64,
    pub device: u64,
    pub size: u16,
    pub indirect: bool,
    pub event_idx: bool,
}

/// What a ring shows next: a chain, nothing, or something malformed.
#[derive(Drop)]
pub enum Take {
    Front(Chain),
    Empty,
    Bad,
}

/// Writes the first bytes, at most `len`, over memory from `addr` on, and answers how many they are.
#[inline(always)]
fn write_piece(mem: &mut GuestMem, addr: u64, len: u32, bytes: &[u8]) -> usize
    requires small { len ≤ LONGEST_PIECE }
    requires inside { addr + len ≤ length mem.old.bytes }
    requires pages { PAGES_OF_PUT ≤ mem.old.spare }
    ensures count { result ≡ min len (length bytes.now) }
    ensures bytes { mem.new.bytes ≡ put_at mem.old.bytes addr (take len bytes.now) }
    ensures pages { mem.old.spare ≤ mem.new.spare + PAGES_OF_PUT }
{
    let count = bytes.len().min(len as usize);
    let _inside = mem.write(addr, &bytes[..count]);
    count
}

impl Chain {
    /// How many bytes the device may write: those of the writable pieces.
    pub fn room(&self) -> u32
        requires { room self.now.pieces.items < 2 ^ 32 }
        ensures { result ≡ room self.now.pieces.items }
    {
        let mut count = 0;
        'writable: for piece in self.pieces.as_slice() {
            count += if piece.write { piece.len } else { 0 };
        }
        count
    }

    /// How many bytes the device may read: those of the readable pieces.
    pub fn readable_len(&self) -> u32
        requires { readable_len self.now.pieces.items < 2 ^ 32 }
        ensures { result ≡ readable_len self.now.pieces.items }
    {
        let mut count = 0;
        'readable: for piece in self.pieces.as_slice() {
            count += if piece.write { 0 } else { piece.len };
        }
        count
    }

    /// Fills a room with the bytes of the readable pieces, one after the other.
    #[inline(always)]
    pub fn gather(&self, mem: &GuestMem, room: &mut Room)
        requires { IsTrue (keeps_rules (length mem.now.bytes) self.now.pieces.items) }
        ensures { room.new.items ≡ readable mem.now.bytes self.now.pieces.items }
    {
        room.clear();
        'readable: for piece in self.pieces.as_slice() {
            if !piece.write {
                let _inside = mem.read_onto(piece.addr, piece.len as usize, room);
            }
        }
    }

    /// Writes bytes over the writable pieces in order, as many as there are and as there is room for. It makes at most
    /// `PAGES_OF_SCATTER` pages of memory.
    #[inline(always)]
    pub fn scatter(&self, mem: &mut GuestMem, bytes: &[u8])
        requires rules { IsTrue (keeps_rules (length mem.old.bytes) self.now.pieces.items) }
        requires pages { PAGES_OF_SCATTER ≤ mem.old.spare }
        ensures bytes { mem.new.bytes ≡ scatter mem.old.bytes self.now.pieces.items bytes.now }
        ensures pages { mem.old.spare ≤ mem.new.spare + PAGES_OF_SCATTER }
    {
        let mut done = 0;
        'writable: for piece in self.pieces.as_slice() {
            if piece.write {
                done += write_piece(mem, piece.addr, piece.len, &bytes[done..]);
            }
        }
    }
}
