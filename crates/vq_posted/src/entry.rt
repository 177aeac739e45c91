//! A buffer that was posted.

ghost use Rattle.std.specs.Prelude.{◌≡◌};
ghost use Rattle.vq_posted.specs.Free.{head_of};

use arrayvec::ArrayVec;
use vt_types::MOST_PIECES;

/// A buffer that was posted and not yet reaped.
#[derive(Drop)]
pub struct Posted {
    /// Its descriptors, the head first. A buffer of a packed ring has its id alone here.
    pub descriptors: ArrayVec<u16, MOST_PIECES>,
    pub tag: u16,
    /// How many slots of the ring it takes.
    pub slots: u16,
    /// How many of its bytes the device reads.
    pub readable: u16,
}

/// What is told of a posted buffer that an id names: its tag, how many slots of the ring it takes, and how many of its
/// bytes the device reads.
#[derive(Clone, Copy, Debug, PartialEq, Eq)]
pub struct Found {
    pub tag: u16,
    pub slots: u16,
    pub readable: u16,
}

/// The first of the descriptors, the head.
pub fn head(descriptors: &[u16]) -> u16
    ensures { result ≡ head_of descriptors.now }
{
    match descriptors {
        [] => 0,
        [first, ..] => *first,
    }
}
