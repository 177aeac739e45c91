//! Tests of vt_types, vt_layout, vt_outside, guest_mem, memory_port and port_access, over what they show to callers.
#![tactic(auto)]

#[cfg(test)]
mod accesses;
#[cfg(test)]
mod guest_memory;
#[cfg(test)]
mod layout;
#[cfg(test)]
mod memory_accesses;
#[cfg(test)]
mod outside;
#[cfg(test)]
mod types;
