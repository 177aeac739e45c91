//! The laws at this simulation.

use interleaving::{Simulation, enough_repeats, interleaved, replies_at_rest, steps};
use mmio_simulation::MmioSimulation;
use std::test::Fail;

#[test]
fn each_law_is_called() -> Result<(), Fail> {
    MmioSimulation::starts();
    MmioSimulation::keeps_events();
    MmioSimulation::same_contents();
    MmioSimulation::begins();
    MmioSimulation::is_short();
    interleaved::<MmioSimulation>();
    enough_repeats::<MmioSimulation>();
    replies_at_rest::<MmioSimulation>();
    steps::<MmioSimulation>();
    Ok(())
}
