//! Where a sent frame lies.

/// A sent frame: `len` bytes from `start` on, among the bytes of all sent frames.
#[derive(Clone, Copy, Debug, PartialEq, Eq)]
pub struct SentFrame {
    pub start: usize,
    pub len: usize,
}
