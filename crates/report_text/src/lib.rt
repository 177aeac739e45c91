//! The texts of a report and of a trace (our own): replies, accesses with their answers, events, and the end parts, over
//! a buffer with spare bytes.
//!
//! Each call that writes adds exactly its text, and takes no more spare bytes than the text has. How many it needs is a
//! constant: `LINE_SPARE`, `EVENT_SPARE`, `SHORT_SPARE` or `NUMBER_SPARE`, or what its condition says.
#![tactic(auto)]

mod access;
mod end;
mod event;
mod lengths;
mod reply;
mod text;
mod words;

pub use lengths::{access_line_is_short, event_line_is_short};
pub use text::{EVENT_SPARE, LINE_SPARE, NUMBER_SPARE, SHORT_SPARE, Text, limits_are_defined};
