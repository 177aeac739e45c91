//! A driver's end of a split virtqueue (VIRTIO 1.2, 2.7), over any port.
#![tactic(auto)]

mod driver;
mod pieces;
mod post;
mod reap;
mod ring;

pub use driver::SplitDriver;
