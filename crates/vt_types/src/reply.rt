//! What a driver answers.

use arrayvec::ArrayVec;

/// Why an operation was refused.
#[derive(Clone, Copy, Debug, PartialEq, Eq)]
pub enum Why {
    /// The device isn't in the state for it.
    State,
    /// The device has no such queue.
    Queue,
    /// No queue may have this size.
    Size,
    /// The queue is set up already.
    Set,
    /// The queue isn't set up.
    Unset,
    /// The tag is in use.
    Tag,
    /// The queue has no room.
    Full,
    /// A length or a value is out of range.
    Range,
    /// The accepted features rule it out.
    Mode,
}

/// The reply of an operation. With `Used` the written bytes are in the room.
#[derive(Debug, Drop, PartialEq, Eq)]
pub enum Reply {
    Good,
    /// A device's number.
    Id(u8),
    /// The features that the device offers.
    Features(u64),
    /// The device's status.
    Status(u8),
    /// The bytes of a field.
    Value(ArrayVec<u8, 8>),
    /// There is no used buffer.
    Nothing,
    /// A used buffer: its tag, and how many bytes the device wrote.
    Used { tag: u16, len: u32 },
    /// The queues that signalled.
    Signals(ArrayVec<u16, 16>),
    /// Any queue may have signalled.
    AnyQueue,
    /// Whether the configuration changed.
    Config(bool),
    Refused(Why),
}
