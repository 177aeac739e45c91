//! The flags of a split ring's areas.

ghost use Rattle.std.specs.Prelude.{⊤, [], ◌∷◌, codes};

use bitflags::{Flag, Flags, bitflag_items};

/// The flags at the head of a split ring's driver area (VIRTIO 1.2, 2.7.6 and 2.7.7).
#[derive(Clone, Copy, PartialEq, Eq, Debug)]
pub struct AvailableFlags(pub u16);

bitflag_items! {
    impl AvailableFlags: u16 {
        const NO_INTERRUPT = 1;
    }
}

impl Flags for AvailableFlags {
    type Bits = u16;

    ghost exact = { ⊤ };

    ghost table = { (codes "NO_INTERRUPT", 1) ∷ [] };

    ghost set_of = { λ p. p.0 };

    fn flags<'a>() -> &'a [Flag<AvailableFlags>] {
        AvailableFlags::FLAGS
    }

    fn bits(&self) -> u16 {
        self.0
    }

    fn from_bits_retain(bits: u16) -> AvailableFlags {
        AvailableFlags(bits)
    }
}
