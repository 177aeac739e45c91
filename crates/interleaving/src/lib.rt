//! The logic of programs and events, once for every bus: an operation whose program is safe to run, with whatever events
//! between its accesses, is that of the abstract devices, placed where its last mark was.
#![tactic(auto)]

mod laws;
mod simulation;

pub use laws::{enough_repeats, interleaved, replies_at_rest, steps};
pub use simulation::Simulation;
