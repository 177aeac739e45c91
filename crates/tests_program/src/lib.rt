//! Tests of script_run, mmio_simulation, over what they show to callers. Most scripts stand in tables of lines, each beside what
//! it prints; that comes from the rules of the script, and not from the program.
#![tactic(auto)]

#[cfg(test)]
mod call;
#[cfg(test)]
mod console;
#[cfg(test)]
mod faults;
#[cfg(test)]
mod gaps;
#[cfg(test)]
mod laws;
#[cfg(test)]
mod lines;
#[cfg(test)]
mod rows;
#[cfg(test)]
mod script;
#[cfg(test)]
mod watched;
