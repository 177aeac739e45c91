//! What a driver talks to.

ghost use Rattle.std.specs.Prelude.{◌≡◌, ℕ, ◌+◌, ◌≤◌, List};
ghost use Rattle.vt_types.specs.Access.{AccessValue, access_value, access_cost, IsWithinLimits};
ghost use Rattle.vt_types.specs.declared.access.Answer.{Answer};

use crate::access::{Access, Answer, Room};

/// A bus with a machine behind it, as a driver sees it.
///
/// A port has a credit, a number that bounds what the accesses to come may cost; an access costs what `access_cost`
/// says.
pub trait Port {
    /// From a state, an access and what is in the room to an answer, what is in the room then, and a state.
    ghost step: { Self → AccessValue → Answer → List ℕ → List ℕ → Self → Type 0 };

    /// What marking the last access makes of a state.
    ghost marking: { Self → Self → Type 0 };

    ghost credit: { Self → ℕ };

    fn access(&mut self, a: &Access<'_>, room: &mut Room) -> Answer
        requires limits { IsWithinLimits (access_value a.now) }
        requires credit { access_cost (access_value a.now) ≤ credit self.old }
        ensures step { step self.old (access_value a.now) result room.old.items room.new.items self.new }
        ensures credit { credit self.old ≤ credit self.new + access_cost (access_value a.now) };

    /// Says that the last access was the marked one.
    fn mark(&mut self)
        ensures marking { marking self.old self.new }
        ensures credit { credit self.new ≡ credit self.old };
}
