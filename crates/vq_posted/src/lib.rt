//! The buffers that a driver has posted on a queue and not yet reaped, for both kinds of ring (VIRTIO 1.2, 2.7 and 2.8).
//!
//! A tag, an id and the lowest free descriptors are found without a look at the buffers in flight: tags and free descriptors
//! are bits of words, and a buffer stands in a table at the location of its id. On a ring of 1,024 a call takes some 25 steps at
//! most.
#![tactic(auto)]

mod entry;
mod number_set;
mod table;

pub use entry::{Found, Posted, head};
pub use table::PostedBuffers;
