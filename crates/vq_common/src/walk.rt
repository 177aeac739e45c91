//! Walks along linked descriptors (VIRTIO 1.2, 2.7.5): those of a ring, and those of an indirect table.

ghost use Rattle.std.specs.Prelude.{◌+◌, ◌*◌, ◌≤◌, length};
ghost use Rattle.vq_common.specs.Descriptor.{descriptor_at};
ghost use Rattle.vq_common.specs.Walk.{Steps};

use crate::chain::Piece;
use crate::descriptor::Descriptor;
use arrayvec::ArrayVec;
use guest_mem::GuestMem;
use vt_types::MOST_PIECES;

/// What one step of a walk comes to.
#[derive(Clone, Copy, Debug, PartialEq, Eq)]
pub enum WalkStep {
    /// The descriptor's piece was added, and the chain goes on at this location.
    Next(u16),
    /// The descriptor's piece was added, and the chain ends.
    End,
    /// The descriptor names a table. No piece was added.
    Table(Descriptor),
    /// There is no such location, or no room for another piece. No piece was added.
    Bad,
}

impl WalkStep {
    /// Takes one step of a walk: reads the descriptor at a location of a table of `count` descriptors, and adds the piece that
    /// it names unless it names a table.
    #[inline(always)]
    pub fn take(
        mem: &GuestMem,
        table: u64,
        count: u16,
        location: u16,
        pieces: &mut ArrayVec<Piece, MOST_PIECES>,
    ) -> WalkStep
        requires { table + 16 * count ≤ length mem.now.bytes }
        ensures { Steps count location (descriptor_at mem.now.bytes table location) pieces.old.items result pieces.new.items }
    {
        if location >= count {
            return WalkStep::Bad;
        }
        let descriptor = match Descriptor::read(mem, table, location) {
            Some(descriptor) => descriptor,
            None => return WalkStep::Bad,
        };
        if descriptor.is_indirect() {
            WalkStep::Table(descriptor)
        } else if pieces.try_push(descriptor.piece()).is_err() {
            WalkStep::Bad
        } else if descriptor.has_next() {
            WalkStep::Next(descriptor.next)
        } else {
            WalkStep::End
        }
    }
}
