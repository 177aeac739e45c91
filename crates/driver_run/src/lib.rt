//! Scripts of driver operations and events of backends, run on a bus with its driver, and the report of what the abstract
//! devices reply (our own).
#![tactic(auto)]

mod driven_lines;
mod operation_runner;
mod run;
mod there;

pub use run::run_script;
