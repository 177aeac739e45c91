//! Tests of dev_status, dev_console, dev_net, dev_block, dev_core, drv_core, mmio_regs, drv_mmio, over what they show to callers.
#![tactic(auto)]

#[cfg(test)]
mod block;
#[cfg(test)]
mod chains;
#[cfg(test)]
mod console;
#[cfg(test)]
mod device_driver;
#[cfg(test)]
mod device_set;
#[cfg(test)]
mod mmio_bus;
#[cfg(test)]
mod mmio_driver;
#[cfg(test)]
mod network;
#[cfg(test)]
mod status;
