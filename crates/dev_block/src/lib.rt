//! A block device (VIRTIO 1.2, 5.2): its answer to a request, from the readable bytes of a chain over its disk.
#![tactic(auto)]

mod check;
mod fill;
mod request;
mod sectors;
mod serve;
mod state;

pub use serve::serve_chain;
pub use state::BlkState;
