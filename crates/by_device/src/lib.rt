//! One value for each device: definitions alone, for all that both halves keep of the devices.
#![tactic(auto)]
