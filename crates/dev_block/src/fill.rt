//! The end of an answer.

ghost use Rattle.std.specs.Prelude.{◌≡◌, ◌+◌, ◌-◌, ◌≤◌, [], ◌∷◌, ◌++◌, length, replicate, IsTrue};
ghost use Rattle.vq_common.specs.Piece.{keeps_rules};
ghost use Rattle.vq_common.specs.Partial.{HasPages, MakesPagesOf, scatter_from};

use crate::check::SECTOR_SIZE;
use crate::sectors::zero_sector;
use guest_mem::GuestMem;
use vq_common::Chain;

/// Writes at most a sector of zeros over the writable bytes of a chain, from one on.
fn write_few_zeros(mem: &mut GuestMem, chain: &Chain, from: u32, count: u32)
    requires rules { IsTrue (keeps_rules (length mem.old.bytes) chain.now.pieces.items) }
    requires pages { HasPages chain.now.pieces.items mem.old }
    requires few { count ≤ 512 }
    ensures bytes { mem.new.bytes ≡ scatter_from from mem.old.bytes chain.now.pieces.items (replicate count 0) }
    ensures length { length mem.new.bytes ≡ length mem.old.bytes }
    ensures pages { MakesPagesOf chain.now.pieces.items mem.old mem.new }
{
    let zeros = zero_sector();
    chain.write_at(mem, from, &zeros[..count as usize]);
}

/// Writes zeros over the writable bytes of a chain from one on up to another.
fn write_zeros(mem: &mut GuestMem, chain: &Chain, from: u32, to: u32)
    requires rules { IsTrue (keeps_rules (length mem.old.bytes) chain.now.pieces.items) }
    requires pages { HasPages chain.now.pieces.items mem.old }
    requires order { from ≤ to }
    ensures bytes { mem.new.bytes ≡ scatter_from from mem.old.bytes chain.now.pieces.items (replicate (to - from) 0) }
    ensures length { length mem.new.bytes ≡ length mem.old.bytes }
    ensures pages { MakesPagesOf chain.now.pieces.items mem.old mem.new }
{
    let mut at = from;
    'zeros: while at < to {
        let count = (to - at).min(SECTOR_SIZE);
        write_few_zeros(mem, chain, at, count);
        at += count;
    }
}

/// Writes zeros over the writable bytes of a chain from one on, and the status over the last of `room`.
pub(crate) fn write_end(mem: &mut GuestMem, chain: &Chain, from: u32, room: u32, status: u8)
    requires rules { IsTrue (keeps_rules (length mem.old.bytes) chain.now.pieces.items) }
    requires pages { HasPages chain.now.pieces.items mem.old }
    requires order { from + 1 ≤ room }
    ensures bytes { mem.new.bytes ≡ scatter_from from mem.old.bytes chain.now.pieces.items (replicate (room - 1 - from) 0 ++ status ∷ []) }
    ensures pages { MakesPagesOf chain.now.pieces.items mem.old mem.new }
{
    write_zeros(mem, chain, from, room - 1);
    chain.write_at(mem, room - 1, &[status]);
}
