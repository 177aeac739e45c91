//! The status machine of a device (VIRTIO 1.2, 2.1 and 2.2): its status byte, the features that it offers, and those
//! that the driver accepted.
#![tactic(auto)]

mod machine;

pub use machine::StatusMachine;
