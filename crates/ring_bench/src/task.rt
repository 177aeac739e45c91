//! What the command line asks for.

ghost use Rattle.std.specs.Prelude.{◌≡◌, ◌*◌, ◌≤◌, IsTrue};
ghost use Rattle.vq_common.specs.Queue.{is_ring_size};

/// The descriptors of a ring whose size isn't given.
pub const SIZE: u16 = 256;

/// A kind of ring.
#[derive(Clone, Copy, Debug, PartialEq, Eq)]
pub enum Kind {
    Split,
    Packed,
}

impl Kind {
    /// The kind that a word names. None where it names none.
    pub fn named(word: &str) -> Option<Kind> {
        match word {
            "split" => Some(Kind::Split),
            "packed" => Some(Kind::Packed),
            _ => None,
        }
    }
}

/// To take `count` buffers of two descriptors each through a ring of `size` descriptors, `in_flight` of them a round.
#[derive(Clone, Copy, Debug, PartialEq, Eq)]
pub struct Task {
    pub count: u32,
    pub size: u16,
    pub in_flight: u16,
    ghost ring: { IsTrue (is_ring_size size) },
    ghost some: { 1 ≤ in_flight },
    ghost fits: { 2 * in_flight ≤ size },
}

/// Whether a ring may have so many descriptors: a power of two, at most 1,024 (VIRTIO 1.2, 2.7; the limit is our own).
fn is_size(size: u16) -> bool
    ensures { result ≡ is_ring_size size }
{
    matches!(size, 1 | 2 | 4 | 8 | 16 | 32 | 64 | 128 | 256 | 512 | 1024)
}

/// The number that a word says; the default where there is no word. None where the word says none.
pub fn number_or(word: Option<String>, default: u16) -> Option<u16> {
    match word {
        Some(word) => word.as_str().parse().ok(),
        None => Some(default),
    }
}

impl Task {
    /// None where no ring has this size, or where the buffers in flight are none or don't fit the ring.
    pub fn new(count: u32, size: u16, in_flight: u16) -> Option<Task> {
        if is_size(size) && in_flight >= 1 && in_flight <= size / 2 {
            Some(Task {
                count,
                size,
                in_flight,
            })
        } else {
            None
        }
    }
}
