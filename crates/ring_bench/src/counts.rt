//! What was reaped so far.

ghost use Rattle.std.specs.Prelude.{◌≡◌, ◌+◌, ◌-◌, ◌*◌, ◌<◌, ◌≤◌, ◌^◌};

/// How many buffers were reaped, and how many bytes the device wrote into them.
#[derive(Clone, Copy, Debug, PartialEq, Eq)]
pub struct Counts {
    pub buffers: u32,
    pub bytes: u64,
    ghost fits: { bytes ≤ (2 ^ 32 - 1) * buffers },
}

impl Counts {
    /// Nothing was reaped yet.
    pub fn new() -> Counts
        ensures buffers { result.buffers ≡ 0 }
        ensures bytes { result.bytes ≡ 0 }
    {
        Counts {
            buffers: 0,
            bytes: 0,
        }
    }

    /// One more buffer, of so many bytes.
    pub fn add(&mut self, len: u32)
        requires { self.old.buffers < 2 ^ 32 - 1 }
        ensures buffers { self.new.buffers ≡ self.old.buffers + 1 }
        ensures bytes { self.new.bytes ≡ self.old.bytes + len }
    {
        *self = Counts {
            buffers: self.buffers + 1,
            bytes: self.bytes + u64::from(len),
        };
    }
}
