//! The program `vt` again, for its row of a script with a bad line: status 3.
#![tactic(auto)]

use std::process::ExitCode;
use vt_start::start;

fn main(rt: HostRuntime) -> ExitCode {
    start(&rt)
}
