//! A sink over a writer.

ghost use Rattle.std.specs.Prelude.{◌≡◌};

use crate::failed::Failed;
use crate::sink::Sink;
use std::io::Write;
use std::marker::Model;

/// A sink over a writer of std. As a sink it tells nothing but how many calls failed; what the writer holds is the
/// writer's to tell.
#[derive(Drop)]
pub struct StdSink<W> {
    inner: W,
    faults: u64,
}

impl<W> Model for StdSink<W> {
    ghost use Rattle.vt_outside.specs.Adapted.{Adapted};

    ghost Value = { Adapted W };

    ghost view = { λ s. record { inner = s.inner; faults = s.faults } };
}

impl<W> StdSink<W> {
    /// A sink over this writer, of which no call has failed.
    pub fn new(inner: W) -> Self
        ensures { result ≡ record { inner = inner; faults = 0 } }
    {
        StdSink { inner, faults: 0 }
    }
}

impl<W: Write> Sink for StdSink<W> {
    ghost use Rattle.std.specs.Prelude.{IfOk, OnErr};
    ghost use Rattle.std.specs.Io.KnownBytes.{WriteAppends};
    ghost use Rattle.vt_outside.specs.Sink.{WriteOk, WriteFailed};
    ghost use Rattle.vt_outside.specs.Adapted.{sink_of};

    ghost view = { sink_of };

    /// Gives the writer the bytes that it takes. A writer that takes nothing of a piece that isn't empty counts as one
    /// that failed. `Failed` gives it none.
    fn write(&mut self, bytes: &[u8]) -> Result<usize, Failed>
        ensures ok { IfOk result (λ n. WriteOk (sink_of self.old) (sink_of self.new) bytes.now n) }
        ensures err { OnErr result (WriteFailed (sink_of self.old) (sink_of self.new)) }
        ensures writer { WriteAppends (W.contents self.old.inner) (W.contents self.new.inner) result bytes.now }
    {
        match self.inner.write(bytes) {
            Ok(n) if n > 0 || bytes.is_empty() => Ok(n),
            _ => {
                self.faults = self.faults.saturating_add(1);
                Err(Failed)
            }
        }
    }
}
