//! A driver's end of a packed virtqueue (VIRTIO 1.2, 2.8), over any port.
//!
//! A buffer is made available in the descriptor ring itself: its descriptors are put at the next positions of the ring,
//! the first of them last.
#![tactic(auto)]

mod descriptors;
mod driver;
mod post;
mod reap;
mod ring;

pub use driver::PackedDriver;
