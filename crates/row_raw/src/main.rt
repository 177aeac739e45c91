//! The program `vt` again, for its row of a raw script: a malformed ring makes the console need a reset.
#![tactic(auto)]

use std::process::ExitCode;
use vt_start::start;

fn main(rt: HostRuntime) -> ExitCode {
    start(&rt)
}
