//! Bits of InterruptStatus.

ghost use Rattle.std.specs.Prelude.{⊤, ◌≡◌, [], ◌∷◌, codes};
ghost use Rattle.vt_layout.specs.Interrupts as spec;

use bitflags::{Flag, Flags, bitflag_items};

/// Bits of InterruptStatus and InterruptACK (VIRTIO 1.2, 4.2.2).
#[derive(Clone, Copy, PartialEq, Eq, Debug)]
pub struct InterruptBits(pub u32);

bitflag_items! {
    impl InterruptBits: u32 {
        const USED_BUFFER = 1;
        const CONFIGURATION_CHANGE = 2;
    }
}

impl Flags for InterruptBits {
    type Bits = u32;

    ghost exact = { ⊤ };

    ghost table = { (codes "USED_BUFFER", 1) ∷ (codes "CONFIGURATION_CHANGE", 2) ∷ [] };

    ghost set_of = { λ p. p.0 };

    fn flags<'a>() -> &'a [Flag<InterruptBits>] {
        InterruptBits::FLAGS
    }

    fn bits(&self) -> u32 {
        self.0
    }

    fn from_bits_retain(bits: u32) -> InterruptBits {
        InterruptBits(bits)
    }
}

impl InterruptBits {
    /// Each bit stands where the standard has it (VIRTIO 1.2, 4.2.2). Does nothing.
    pub fn bits_are_standard()
        ensures used_buffer { InterruptBits.USED_BUFFER.0 ≡ spec.USED_BUFFER }
        ensures configuration_change { InterruptBits.CONFIGURATION_CHANGE.0 ≡ spec.CONFIGURATION_CHANGE }
    {}
}
