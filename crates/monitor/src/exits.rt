//! The loads and stores of a guest that trap, since it has no memory where the registers of a device are.

ghost use Rattle.std.specs.Prelude.{◌≡◌, ◌≤◌};
ghost use Rattle.vt_types.specs.Access.{access_cost, access_value, IsWithinLimits};
ghost use Rattle.monitor.specs.Exit.{trapped};

use vt_layout::MmioRegister;
use vt_types::{Access, Dev};

/// A load or a store of a register in the console's page. A hypervisor tells the monitor its address, its width and its value;
/// here the register stands for the first two.
#[derive(Clone, Copy, Debug, PartialEq, Eq)]
pub enum Exit {
    Load(MmioRegister),
    Store(MmioRegister, u32),
}

impl Exit {
    /// The access. A bus takes any address, and wants a width of 1, 2 or 4 bytes; each register has 4.
    pub fn access(self) -> Access<'static>
        ensures value { access_value result ≡ trapped self }
        ensures limits { IsWithinLimits (access_value result) }
        ensures cost { access_cost (access_value result) ≤ 1 }
    {
        let (Exit::Load(register) | Exit::Store(register, _)) = self;
        // The address of the register in the page of a device. Wants nothing, and never fails.
        let (addr, width) = (u64::from(register.address(Dev::Con)), 4);
        match self {
            Exit::Load(_) => Access::Load { addr, width },
            Exit::Store(_, value) => Access::Store { addr, width, value },
        }
    }
}
