//! Guest memory as a port: what every bus answers to an access of guest memory, and a port that has nothing else.
#![tactic(auto)]

mod memory;
mod port;

pub use memory::access;
pub use port::MemoryPort;
