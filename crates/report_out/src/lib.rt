//! What a run sends to its sink, and why it stops; and what is claimed of a run that reports on an input (our own).
//!
//! A run answers a status: 0 where the whole input was run and the whole report written, 3 at a line that is not in the
//! grammar, 7 where more bytes came than an input may have; 4 and 5 where the source or the sink failed, and 6 for want
//! of memory.
#![tactic(auto)]

mod ended;
mod output;
mod stop;

pub use ended::Ended;
pub use output::{send, send_console, send_disk};
pub use stop::{Stop, status_of};
