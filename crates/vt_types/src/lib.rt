//! The names and values that the crates of this repository share: devices, buses, feature and status bits, accesses
//! and answers, events, operations and replies. "Our own" unless an item names a section of VIRTIO 1.2.
#![tactic(auto)]

mod access;
mod bytes;
mod device;
mod events;
mod features;
mod limits;
mod operation;
mod port;
mod reply;
mod status;

pub use access::{Access, Answer, Room, Turn};
pub use bytes::{Bytes, Memory};
pub use device::{BusKind, Dev};
pub use events::Events;
pub use features::Features;
pub use limits::{
    GREATEST_QUEUE, GUEST_PAGE, LONGEST_BUFFER, LONGEST_FRAME, LONGEST_KEYS, LONGEST_MEMORY,
    LONGEST_PIECE, LONGEST_SCRIPT, MOST_EVENTS, MOST_PIECES, MOST_SECTORS, START_COLS, START_ROWS,
    limits_are_defined,
};
pub use operation::{Event, EventAt, Field, Op, Place, PostBuf, Step};
pub use port::Port;
pub use reply::{Reply, Why};
pub use status::Status;
