//! The device's end of a split virtqueue (VIRTIO 1.2, 2.7).
//!
//! A driver makes chains of descriptors available in the available ring. `SplitDevice` takes them in that order,
//! whatever bytes memory holds, and gives them back in the used ring in any order.
#![tactic(auto)]

mod areas;
mod device;
mod walk;

pub use device::SplitDevice;
