//! The machine: a bus, the devices behind it, and guest memory.
//!
//! The raw machine does one access or one event at a time. The machine is the port of a driver: it does the accesses of an
//! operation with its events in the gaps between them, and keeps the lines of both.
#![tactic(auto)]

mod cost;
mod laws;
mod lines;
mod machine;
mod operation_events;
mod raw_machine;

pub use cost::cost_is_bounded;
pub use laws::operation_traced;
pub use lines::{LONGEST_TRACE, SPARE_OF_LINES, lines_fit};
pub use machine::Machine;
pub use raw_machine::{PAGES_OF_LINE, RawMachine};
