//! Device status.

ghost use Rattle.std.specs.Prelude.{⊤, ◌≡◌, [], ◌∷◌, codes};
ghost use Rattle.vt_types.specs.Status as status;

use bitflags::{Flag, Flags, bitflag_items};

/// A device's status byte (VIRTIO 1.2, 2.1).
#[derive(Clone, Copy, PartialEq, Eq, Debug)]
pub struct Status(pub u8);

bitflag_items! {
    impl Status: u8 {
        const ACKNOWLEDGE = 1;
        const DRIVER = 2;
        const DRIVER_OK = 4;
        const FEATURES_OK = 8;
        const DEVICE_NEEDS_RESET = 64;
        const FAILED = 128;
    }
}

impl Flags for Status {
    type Bits = u8;

    ghost exact = { ⊤ };

    ghost table = { (codes "ACKNOWLEDGE", 1) ∷ (codes "DRIVER", 2) ∷ (codes "DRIVER_OK", 4) ∷ (codes "FEATURES_OK", 8) ∷ (codes "DEVICE_NEEDS_RESET", 64) ∷ (codes "FAILED", 128) ∷ [] };

    ghost set_of = { λ p. p.0 };

    fn flags<'a>() -> &'a [Flag<Status>] {
        Status::FLAGS
    }

    fn bits(&self) -> u8 {
        self.0
    }

    fn from_bits_retain(bits: u8) -> Status {
        Status(bits)
    }
}

impl Status {
    /// Each bit stands where the standard has it (VIRTIO 1.2, 2.1). Does nothing.
    pub fn bits_are_standard()
        ensures acknowledge { Status.ACKNOWLEDGE.0 ≡ status.ACKNOWLEDGE }
        ensures driver { Status.DRIVER.0 ≡ status.DRIVER }
        ensures driver_ok { Status.DRIVER_OK.0 ≡ status.DRIVER_OK }
        ensures features_ok { Status.FEATURES_OK.0 ≡ status.FEATURES_OK }
        ensures device_needs_reset { Status.DEVICE_NEEDS_RESET.0 ≡ status.DEVICE_NEEDS_RESET }
        ensures failed { Status.FAILED.0 ≡ status.FAILED }
    {}
}
