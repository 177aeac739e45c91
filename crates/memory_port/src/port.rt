//! A port that is guest memory alone.

use crate::memory::access;
use guest_mem::GuestMem;
use vt_types::{Access, Answer, Port, Room};

/// Guest memory as a driver's port. An access of another kind answers `NoSuch`; a mark changes nothing. Its credit is the
/// spare pages of its memory, so reserve pages for the accesses to come.
#[derive(Drop)]
pub struct MemoryPort {
    pub memory: GuestMem,
}

impl Port for MemoryPort {
    ghost use Rattle.std.specs.Prelude.{◌≡◌};
    ghost use Rattle.memory_port.specs.MemoryTable.{MemoryStep};

    ghost step = { λ p a answer room room2 p2. MemoryStep p.memory.bytes a answer room room2 p2.memory.bytes };

    ghost marking = { λ p p2. p2.memory ≡ p.memory };

    ghost credit = { λ p. p.memory.spare };

    #[inline(always)]
    fn access(&mut self, a: &Access<'_>, room: &mut Room) -> Answer {
        access(&mut self.memory, a, room)
    }

    fn mark(&mut self) {}
}
