//! The lines of a script, run one after the other, and the report of what they did (our own).
#![tactic(auto)]

mod laws;
mod line_runner;
mod run;
mod runner;

pub use laws::lines_stand;
pub use line_runner::LineRunner;
pub use run::run_lines;
