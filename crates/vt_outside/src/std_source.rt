//! A source over a reader.

ghost use Rattle.std.specs.Prelude.{◌≡◌};

use crate::failed::Failed;
use crate::source::Source;
use std::io::Read;
use std::marker::Model;

/// A source over a reader of std. As a source it tells nothing but how many calls failed; what the reader has left is
/// the reader's to tell.
#[derive(Drop)]
pub struct StdSource<R> {
    inner: R,
    faults: u64,
}

impl<R> Model for StdSource<R> {
    ghost use Rattle.vt_outside.specs.Adapted.{Adapted};

    ghost Value = { Adapted R };

    ghost view = { λ s. record { inner = s.inner; faults = s.faults } };
}

impl<R> StdSource<R> {
    /// A source over this reader, of which no call has failed.
    pub fn new(inner: R) -> Self
        ensures { result ≡ record { inner = inner; faults = 0 } }
    {
        StdSource { inner, faults: 0 }
    }
}

impl<R: Read> Source for StdSource<R> {
    ghost use Rattle.std.specs.Prelude.{IfOk, OnErr};
    ghost use Rattle.std.specs.Io.KnownBytes.{ReadConsumes};
    ghost use Rattle.vt_outside.specs.Source.{ReadOk, ReadFailed};
    ghost use Rattle.vt_outside.specs.Adapted.{source_of};

    ghost view = { source_of };

    /// Takes from the reader the bytes that it answers. `Failed` takes none.
    fn read(&mut self, room: &mut [u8]) -> Result<usize, Failed>
        ensures ok { IfOk result (λ n. ReadOk (source_of self.old) (source_of self.new) room.old room.new n) }
        ensures err { OnErr result (ReadFailed (source_of self.old) (source_of self.new)) }
        ensures reader { ReadConsumes (R.remaining self.old.inner) (R.remaining self.new.inner) result room.new }
    {
        match self.inner.read(room) {
            Ok(n) => Ok(n),
            Err(_) => {
                self.faults = self.faults.saturating_add(1);
                Err(Failed)
            }
        }
    }
}
