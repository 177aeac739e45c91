//! The driver.

ghost use Rattle.std.specs.Prelude.{◌≡◌, ◌≤◌, None};
ghost use Rattle.vt_types.specs.Limits.{GREATEST_COST};
ghost use Rattle.vt_types.specs.Operation.{device_of, operation};
ghost use Rattle.vt_types.specs.Program.{Gives};
ghost use Rattle.vt_types.specs.Reply.{reply_value};
ghost use Rattle.vt_types.specs.Within.{IsOperationWithin};
ghost use Rattle.state_table.specs.Refusal.{refusal_of};
ghost use Rattle.by_device.specs.ByDevice.{of};
ghost use Rattle.drv_core.specs.Driver.{known_of};
ghost use Rattle.drv_mmio.specs.Lowering.{allowed_lowering, mmio_lowering};

use crate::config;
use crate::interrupts::{ask_config, ask_queues};
use crate::queue::{notify, set_queue};
use crate::status::{accept, features, get_status, probe, reset, set_status};
use drv_core::{BusDriver, Driver, device_of};
use std::alloc::Global;
use vt_types::{Memory, Op, Port, Reply, Room};

/// The driver of all devices over MMIO.
#[derive(Drop)]
pub struct MmioDriver {
    driver: Driver,
}

/// Makes the accesses of an operation that is not refused.
fn allowed<P: Port>(
    driver: &mut Driver,
    port: &mut P,
    op: &Op,
    repeats: u32,
    room: &mut Room,
) -> Reply
    requires within { IsOperationWithin (operation op.now) }
    requires allowed { refusal_of (known_of (of driver.old (device_of (operation op.now)))) (operation op.now) ≡ None }
    requires credit { GREATEST_COST ≤ P.credit port.old }
    ensures gives { Gives P.step P.marking (allowed_lowering driver.old (operation op.now) repeats) port.old (record { reply = reply_value result room.new.items; known = driver.new }) port.new }
{
    match op {
        Op::Probe(dev) => probe(driver, port, *dev, room),
        Op::Reset(dev) => reset(driver, port, *dev, room),
        Op::Features(dev) => features(port, *dev, room),
        Op::GetStatus(dev) => get_status(driver, port, *dev, room),
        Op::Accept(dev, features) => accept(driver, port, *dev, *features, room),
        Op::Status(dev, step) => set_status(driver, port, *dev, *step, room),
        Op::SetQ(dev, queue, size) => set_queue(driver, port, *dev, *queue, *size, room),
        Op::Post(dev, queue, buf) => driver.post(port, *dev, *queue, buf),
        Op::Notify(dev, queue) => notify(port, *dev, *queue, room),
        Op::Reap(dev, queue) => driver.reap(port, *dev, *queue, room),
        Op::Arm(dev, queue) => driver.set_signals(port, *dev, *queue, true),
        Op::Disarm(dev, queue) => driver.set_signals(port, *dev, *queue, false),
        Op::ReadCfg(dev, field) => config::read(port, *dev, *field, repeats, room),
        Op::WriteCfg(dev, field, value) => config::write(port, *dev, *field, *value, room),
        Op::IrqQueues(dev) => ask_queues(port, *dev, room),
        Op::IrqConfig(dev) => ask_config(port, *dev, room),
    }
}

impl BusDriver for MmioDriver {
    ghost known = { λ d. d.driver };

    ghost lowering = { mmio_lowering };

    fn new(alloc: Global) -> Result<MmioDriver, Memory> {
        let driver = Driver::new(alloc)?;
        Ok(MmioDriver { driver })
    }

    fn op<P: Port>(&mut self, port: &mut P, op: &Op, repeats: u32, room: &mut Room) -> Reply {
        if let Some(why) = self.driver.device(device_of(op)).refusal(op) {
            return Reply::Refused(why);
        }
        allowed(&mut self.driver, port, op, repeats, room)
    }
}
