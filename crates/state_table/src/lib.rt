//! The state table: which operation of a driver is refused in which state, and why (our own). It reads what a driver keeps of a
//! device, and what the abstract devices have of it as well.
#![tactic(auto)]
