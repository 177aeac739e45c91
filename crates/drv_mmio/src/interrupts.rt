//! Signals that stand, and their acknowledgement (VIRTIO 1.2, 4.2.3.4).

ghost use Rattle.std.specs.Prelude.{◌≡◌, ◌≤◌};
ghost use Rattle.vt_types.specs.Limits.{GREATEST_COST};
ghost use Rattle.vt_types.specs.Program.{Gives};
ghost use Rattle.vt_types.specs.Reply.{reply_value};
ghost use Rattle.drv_core.specs.Driver.{DriverRecord};
ghost use Rattle.drv_mmio.specs.Lowering.{irq_config_lowering, irq_queues_lowering};

use crate::accesses::{load, store};
use arrayvec::ArrayVec;
use bitflags::Flags;
use vt_layout::{InterruptBits, MmioRegister};
use vt_types::{Dev, Port, Reply, Room};

/// Whether a queue signalled: any queue, since the bus has one bit for them. The signal is acknowledged.
pub fn ask_queues<P: Port>(port: &mut P, dev: Dev, room: &mut Room) -> Reply
    requires { GREATEST_COST ≤ P.credit port.old }
    ensures { (known : DriverRecord) → Gives P.step P.marking (irq_queues_lowering known dev) port.old (record { reply = reply_value result room.new.items; known = known }) port.new }
{
    let bits = InterruptBits(load(port, dev, MmioRegister::InterruptStatus, room));
    if !bits.contains(InterruptBits::USED_BUFFER) {
        port.mark();
        return Reply::Signals(ArrayVec::new());
    }
    let bit = InterruptBits::USED_BUFFER.0;
    store(port, dev, MmioRegister::InterruptAck, bit, room);
    port.mark();
    Reply::AnyQueue
}

/// Whether a changed configuration was signalled. The signal is acknowledged.
pub fn ask_config<P: Port>(port: &mut P, dev: Dev, room: &mut Room) -> Reply
    requires { GREATEST_COST ≤ P.credit port.old }
    ensures { (known : DriverRecord) → Gives P.step P.marking (irq_config_lowering known dev) port.old (record { reply = reply_value result room.new.items; known = known }) port.new }
{
    let bits = InterruptBits(load(port, dev, MmioRegister::InterruptStatus, room));
    if !bits.contains(InterruptBits::CONFIGURATION_CHANGE) {
        port.mark();
        return Reply::Config(false);
    }
    let bit = InterruptBits::CONFIGURATION_CHANGE.0;
    store(port, dev, MmioRegister::InterruptAck, bit, room);
    port.mark();
    Reply::Config(true)
}
