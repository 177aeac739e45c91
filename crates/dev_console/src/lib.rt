//! A console device (VIRTIO 1.2, 5.3): the input that waits for buffers of the receive queue, and the bytes that came by
//! the transmit queue.
#![tactic(auto)]

mod serve;
mod state;

pub use serve::serve_chain;
pub use state::{CONSOLE_SPARE, ConState, MOST_WAITING, limits_are_defined};
