//! The calls of a thing in memory.

use crate::failed::Failed;
use std::marker::Model;
use vt_types::Bytes;

/// The calls of a thing in memory: which of them fail, how many there were and how many failed. Both counts end at
/// 2^64 - 1.
#[derive(Drop)]
pub(crate) struct Calls {
    fails: Bytes,
    count: u64,
    faults: u64,
}

impl Model for Calls {
    ghost use Rattle.vt_outside.specs.Memory.{CallsView};

    ghost Value = { CallsView };

    ghost view = { λ c. record { fails = c.fails; count = c.count; faults = c.faults } };
}

impl Calls {
    ghost use Rattle.std.specs.Prelude.{◌≡◌, ◌≤◌, ◌||◌, false, is_ok, is_err, OnErr};
    ghost use Rattle.vt_outside.specs.Faults.{Rose};
    ghost use Rattle.vt_outside.specs.Disk.{AddsOutcome};
    ghost use Rattle.vt_outside.specs.Memory.{no_calls, next_fails, one_call, outcomes_told};

    /// No calls yet: call number k will fail exactly where byte k of `fails` is 1.
    pub(crate) fn new(fails: Bytes) -> Calls
        ensures { result ≡ no_calls fails }
    {
        Calls {
            fails,
            count: 0,
            faults: 0,
        }
    }

    /// Whether the next call fails.
    fn next_fails(&self) -> bool
        ensures { result ≡ next_fails self.now }
    {
        match self.fails.as_slice().get(self.count as usize) {
            Some(byte) => *byte == 1,
            None => false,
        }
    }

    /// Counts one more call, which fails where its byte says so or where the thing refuses it.
    pub(crate) fn ask(&mut self, refused: bool) -> Result<(), Failed>
        ensures fails { is_err result ≡ (next_fails self.old || refused) }
        ensures calls { self.new ≡ one_call self.old (is_err result) }
        ensures later { self.old.faults ≤ self.new.faults }
        ensures cause { OnErr result (Rose self.old.faults self.new.faults) }
        ensures outcomes { refused ≡ false → AddsOutcome (outcomes_told self.old) (outcomes_told self.new) (is_ok result) }
    {
        let failed = self.next_fails() || refused;
        self.count = self.count.saturating_add(1);
        if failed {
            self.faults = self.faults.saturating_add(1);
            return Err(Failed);
        }
        Ok(())
    }
}
