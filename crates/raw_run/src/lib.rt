//! Raw scripts: accesses and events on a bus, in any order, and the report of their answers (our own).
#![tactic(auto)]

mod line;
mod run;

pub use run::run_raw;
