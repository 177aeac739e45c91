//! The devices as one set, apart from any bus: their status, configuration, rings and kicks, what waits for them and what they
//! were given (VIRTIO 1.2, 2.1 to 2.6); and what a bus is to them.
//!
//! The console is there, with split rings; the block and the network device are not there yet.
#![tactic(auto)]

mod bus;
mod config;
mod device;
mod queue;
mod ring;
mod serve;
mod served;
mod set;
mod there;

pub use bus::Bus;
pub use ring::RingKind;
pub use served::Served;
pub use set::DeviceSet;
pub use there::{is_event_there, is_there};
