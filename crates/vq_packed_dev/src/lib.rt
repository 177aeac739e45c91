//! The device's end of a packed virtqueue (VIRTIO 1.2, 2.8).
//!
//! A driver makes chains of descriptors available in the descriptor ring itself. `PackedDevice` takes them in ring
//! order, whatever bytes memory holds, and gives them back in the same ring in any order.
#![tactic(auto)]

mod areas;
mod device;
mod walk;

pub use device::PackedDevice;
