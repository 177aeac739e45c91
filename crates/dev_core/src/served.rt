//! What serving a buffer asks of a bus.

/// What came of serving a queue: nothing was to be served; a buffer was used, and the driver does not want to be told; a
/// buffer was used, and it does; or the ring holds something malformed, and the device needs a reset, which its driver is
/// to be told as a change of its configuration (VIRTIO 1.2, 2.1.2, 2.7.7 and 2.8.10).
#[derive(Clone, Copy, Debug, PartialEq, Eq)]
pub enum Served {
    Idle,
    Quiet,
    Signal,
    Bad,
}
