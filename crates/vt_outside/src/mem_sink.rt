//! A sink in memory.

use crate::calls::Calls;
use crate::failed::Failed;
use crate::sink::Sink;
use std::alloc::Global;
use std::marker::Model;
use vt_types::{Bytes, Memory};

/// A sink into memory with a fixed room, which tells what was written. The calls that fail are chosen.
#[derive(Drop)]
pub struct MemSink {
    bytes: Vec<u8>,
    room: usize,
    calls: Calls,
}

impl Model for MemSink {
    ghost use Rattle.std.specs.Prelude.{◌≤◌, length, vec_capacity};
    ghost use Rattle.vt_outside.specs.Memory.{SinkMemory};

    ghost Value = { SinkMemory };

    ghost view = { λ m. record { written = m.bytes.items; room = m.room; calls = m.calls } };

    ghost invariant = { λ m. (length m.bytes.items ≤ m.room) × (m.room ≤ vec_capacity m.bytes) };
}

impl MemSink {
    ghost use Rattle.std.specs.Prelude.{◌≡◌, [], IfOk};
    ghost use Rattle.vt_outside.specs.Memory.{no_calls};

    /// A sink with room for so many bytes, and nothing written. Call number k (from 0) fails where byte k of `fails` is
    /// 1; past its end none does, but where the sink is full.
    pub fn new(alloc: Global, room: u32, fails: Bytes) -> Result<MemSink, Memory>
        ensures { IfOk result (λ m. m ≡ record { written = []; room = room; calls = no_calls fails }) }
    {
        let bytes = Vec::with_capacity(alloc, room as usize)?;
        Ok(MemSink {
            bytes,
            room: room as usize,
            calls: Calls::new(fails),
        })
    }

    /// What was written.
    pub fn bytes(&self) -> &[u8]
        ensures { result.now ≡ self.now.written }
    {
        self.bytes.as_slice()
    }
}

impl Sink for MemSink {
    ghost use Rattle.std.specs.Prelude.{IfOk, OnErr};
    ghost use Rattle.vt_outside.specs.Sink.{WriteOk, WriteFailed};
    ghost use Rattle.vt_outside.specs.Memory.{sink_view, WritesMemory};

    ghost view = { sink_view };

    /// Takes what fits. A full sink fails for a piece that isn't empty.
    fn write(&mut self, bytes: &[u8]) -> Result<usize, Failed>
        ensures ok { IfOk result (λ n. WriteOk (sink_view self.old) (sink_view self.new) bytes.now n) }
        ensures err { OnErr result (WriteFailed (sink_view self.old) (sink_view self.new)) }
        ensures exact { WritesMemory self.old self.new bytes.now result }
    {
        let refused = self.bytes.len() == self.room && !bytes.is_empty();
        self.calls.ask(refused)?;
        let n = bytes.len().min(self.room - self.bytes.len());
        let _fits = self.bytes.extend_from_slice(&bytes[..n]);
        Ok(n)
    }
}
