//! Where bytes come from.

ghost use Rattle.std.specs.Prelude.{IfOk, OnErr};
ghost use Rattle.vt_outside.specs.Source.{SourceView, ReadOk, ReadFailed};

use crate::failed::Failed;

/// Where bytes come from.
pub trait Source {
    ghost view: { Self → SourceView };

    /// Moves bytes to the front of the room, and answers how many. `Ok(0)` for a room that isn't empty is the end of
    /// the input. `Failed` takes nothing.
    fn read(&mut self, room: &mut [u8]) -> Result<usize, Failed>
        ensures ok { IfOk result (λ n. ReadOk (view self.old) (view self.new) room.old room.new n) }
        ensures err { OnErr result (ReadFailed (view self.old) (view self.new)) };
}
