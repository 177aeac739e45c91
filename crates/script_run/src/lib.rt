//! The top call: what the words of a call ask for, done from a source to a sink over a disk, with a watch that is shown what
//! happens (our own).
#![tactic(auto)]

mod command;
mod top_call;

pub use report_out::Ended;
pub use top_call::top;
