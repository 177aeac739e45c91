//! The simulation over MMIO.

use drv_mmio::MmioDriver;
use interleaving::Simulation;
use mmio_regs::MmioBus;

/// The console over MMIO, with its driver.
#[derive(Drop)]
pub struct MmioSimulation;

impl Simulation for MmioSimulation {
    ghost use Rattle.vt_types.specs.declared.device.BusKind.TheVariants.{Mmio};
    ghost use Rattle.mmio_simulation.specs.Related.{Related};

    type Bus = MmioBus;

    type Driver = MmioDriver;

    ghost kind = { Mmio };

    ghost related = { Related };

    fn starts() {}

    fn keeps_events() {}

    fn same_contents() {}

    fn begins() {}

    fn is_short() {}
}
