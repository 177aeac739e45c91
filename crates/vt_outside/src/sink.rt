//! Where bytes go.

ghost use Rattle.std.specs.Prelude.{IfOk, OnErr};
ghost use Rattle.vt_outside.specs.Sink.{SinkView, WriteOk, WriteFailed};

use crate::failed::Failed;

/// Where bytes go.
pub trait Sink {
    ghost view: { Self → SinkView };

    /// Takes bytes from the front of a piece, and answers how many: at least one of a piece that isn't empty. `Failed`
    /// takes nothing.
    fn write(&mut self, bytes: &[u8]) -> Result<usize, Failed>
        ensures ok { IfOk result (λ n. WriteOk (view self.old) (view self.new) bytes.now n) }
        ensures err { OnErr result (WriteFailed (view self.old) (view self.new)) };
}
