//! A source in memory.

use crate::calls::Calls;
use crate::failed::Failed;
use crate::source::Source;
use std::marker::Model;
use vt_types::Bytes;

/// A source over bytes in memory, which tells what is left. The calls that fail are chosen.
#[derive(Drop)]
pub struct MemSource {
    bytes: Bytes,
    taken: usize,
    calls: Calls,
}

impl Model for MemSource {
    ghost use Rattle.std.specs.Prelude.{◌≤◌, length, drop};
    ghost use Rattle.vt_outside.specs.Memory.{SourceMemory};

    ghost Value = { SourceMemory };

    ghost view = { λ m. record { left = drop m.taken m.bytes; calls = m.calls } };

    ghost invariant = { λ m. m.taken ≤ length m.bytes };
}

impl MemSource {
    ghost use Rattle.std.specs.Prelude.{◌≡◌};
    ghost use Rattle.vt_outside.specs.Memory.{no_calls};

    /// A source with these bytes left. Call number k (from 0) fails exactly where byte k of `fails` is 1; past its end
    /// none does.
    pub fn new(bytes: Bytes, fails: Bytes) -> MemSource
        ensures { result ≡ record { left = bytes; calls = no_calls fails } }
    {
        MemSource {
            bytes,
            taken: 0,
            calls: Calls::new(fails),
        }
    }
}

impl Source for MemSource {
    ghost use Rattle.std.specs.Prelude.{IfOk, OnErr};
    ghost use Rattle.vt_outside.specs.Source.{ReadOk, ReadFailed};
    ghost use Rattle.vt_outside.specs.Memory.{source_view, ReadsMemory};

    ghost view = { source_view };

    /// Moves as many bytes as are left and fit.
    fn read(&mut self, room: &mut [u8]) -> Result<usize, Failed>
        ensures ok { IfOk result (λ n. ReadOk (source_view self.old) (source_view self.new) room.old room.new n) }
        ensures err { OnErr result (ReadFailed (source_view self.old) (source_view self.new)) }
        ensures exact { ReadsMemory self.old self.new room.old room.new result }
    {
        self.calls.ask(false)?;
        let left = &self.bytes.as_slice()[self.taken..];
        let n = room.len().min(left.len());
        room[..n].copy_from_slice(&left[..n]);
        self.taken += n;
        Ok(n)
    }
}
