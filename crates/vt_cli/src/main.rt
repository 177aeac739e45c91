//! The program `vt`: does what the words of its command line say, over standard input, standard output and a disk in
//! memory.
#![tactic(auto)]

use std::process::ExitCode;
use vt_start::start;

fn main(rt: HostRuntime) -> ExitCode {
    start(&rt)
}
