//! How the console over MMIO and its driver stand to the abstract console, operation by operation and event by event.
#![tactic(auto)]

mod simulation;

pub use simulation::MmioSimulation;
