//! The MMIO bus (VIRTIO 1.2, 4.2): a page of registers for each device, through which a driver reaches it.
//!
//! The console has its page; those of the block and the network device are not there yet.
#![tactic(auto)]

mod bus;
mod config;
mod console_page;
mod page;

pub use bus::MmioBus;
