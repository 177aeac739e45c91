//! Register pages as layouts: which registers a page has, at which offsets and of which widths. Buses and drivers read the
//! same constants.
#![tactic(auto)]

mod fields;
mod interrupts;
mod layout;
mod lookup;
mod mmio;
pub mod queue_block;
mod register;

pub use fields::{ConfigPart, field_parts};
pub use interrupts::InterruptBits;
pub use layout::{CommonRegs, RegisterLayout, Row};
pub use lookup::{covering, find};
pub use mmio::{CONFIGURATION, Mmio, config_address, page_address, shared_registers};
pub use register::MmioRegister;
