//! A network device (VIRTIO 1.2, 5.1): the frames that wait for buffers of the receive queue, and the frames that were sent
//! by the transmit queue.
#![tactic(auto)]

mod sent;
mod serve;
mod state;

pub use serve::serve_chain;
pub use state::{FRAMES_SPARE, MOST_WAITING, NetState, limits_are_defined};
