//! The program `vt` again, for its row of a long script: 100,008 lines.
#![tactic(auto)]

use std::process::ExitCode;
use vt_start::start;

fn main(rt: HostRuntime) -> ExitCode {
    start(&rt)
}
