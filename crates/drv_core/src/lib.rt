//! What every driver has: what it keeps of the devices, which operations it refuses, and the accesses that are the same on
//! every bus (VIRTIO 1.2, 3.1).
#![tactic(auto)]

mod bus_driver;
mod device;
mod driver;
mod queue_end;
mod refusal;

pub use bus_driver::BusDriver;
pub use device::DeviceDriver;
pub use driver::Driver;
pub use queue_end::QueueEnd;
pub use refusal::device_of;
