//! A watch in memory.

use crate::watch::Watch;
use arrayvec::ArrayVec;
use std::marker::Model;
use vt_types::LONGEST_BUFFER;

/// Keeps what it is shown, up to `LONGEST_BUFFER` bytes in all. Once a text doesn't fit, it tells no more. It takes no memory.
#[derive(Drop)]
pub struct MemWatch {
    kept: ArrayVec<u8, LONGEST_BUFFER>,
    whole: bool,
}

impl Model for MemWatch {
    ghost use Rattle.vt_outside.specs.Memory.{WatchMemory};

    ghost Value = { WatchMemory };

    ghost view = { λ m. record { bytes = m.kept.items; tells = m.whole } };
}

impl MemWatch {
    ghost use Rattle.std.specs.Prelude.{◌≡◌, [], true};

    /// A watch that has been shown nothing.
    pub fn new() -> MemWatch
        ensures { result ≡ record { bytes = []; tells = true } }
    {
        MemWatch {
            kept: ArrayVec::new(),
            whole: true,
        }
    }

    /// Whether it tells what was shown: true as long as all texts fit.
    pub fn tells(&self) -> bool
        ensures { result ≡ self.now.tells }
    {
        self.whole
    }

    /// What it kept: where it tells, all that was shown.
    pub fn bytes(&self) -> &[u8]
        ensures { result.now ≡ self.now.bytes }
    {
        self.kept.as_slice()
    }
}

impl Watch for MemWatch {
    ghost use Rattle.std.specs.Prelude.{◌≡◌};
    ghost use Rattle.vt_outside.specs.Watch.{Shows};
    ghost use Rattle.vt_outside.specs.Memory.{shown_of, after_text};

    ghost shown = { shown_of };

    fn show(&mut self, text: &[u8])
        ensures shows { Shows (shown_of self.old) text.now (shown_of self.new) }
        ensures exact { self.new ≡ after_text self.old text.now }
    {
        self.whole = self.whole && self.kept.try_extend_from_slice(text).is_ok();
    }
}
