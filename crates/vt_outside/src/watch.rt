//! Who is shown what happens.

ghost use Rattle.std.specs.Prelude.{ℕ, List, Option};
ghost use Rattle.vt_outside.specs.Watch.{Shows};

/// Who is shown what happens.
pub trait Watch {
    ghost shown: { Self → Option (List ℕ) };

    /// Shows a text.
    fn show(&mut self, text: &[u8])
        ensures { Shows (shown self.old) text.now (shown self.new) };
}
