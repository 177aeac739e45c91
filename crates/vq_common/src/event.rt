//! The flags of an event suppression structure of a packed ring (VIRTIO 1.2, 2.8.14).

/// Each event is to be signalled.
pub const ENABLE: u16 = 0;

/// No event is to be signalled.
pub const DISABLE: u16 = 1;

/// The event at one position is to be signalled, where VIRTIO_F_EVENT_IDX was negotiated.
pub const AT_POSITION: u16 = 2;
