//! A watch that sees nothing.

ghost use Rattle.std.specs.Prelude.{None};

use crate::watch::Watch;

/// Drops what it is shown, and tells nothing.
#[derive(Drop)]
pub struct NoWatch;

impl Watch for NoWatch {
    ghost shown = { λ _. None };

    fn show(&mut self, _text: &[u8]) {}
}
