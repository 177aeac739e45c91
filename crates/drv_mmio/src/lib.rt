//! The driver over MMIO: the accesses of each operation, in order (VIRTIO 1.2, 3.1 and 4.2).
#![tactic(auto)]

mod accesses;
mod config;
mod driver;
mod interrupts;
mod queue;
mod status;

pub use driver::MmioDriver;
