//! How an abstract queue, and a split ring in guest memory with the device's and the driver's record of it, stand to each other
//! (VIRTIO 1.2, 2.7): the ring part of the relation between the abstract devices and the raw machine. No bus is in it.
#![tactic(auto)]

mod laws;

pub use laws::{give, post, reap, take, write};
