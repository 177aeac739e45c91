//! The driver of a bus.

ghost use Rattle.std.specs.Prelude.{◌≡◌, ◌+◌, ◌≤◌, IfOk};
ghost use Rattle.vt_types.specs.Events.{MOST_EVENTS};
ghost use Rattle.vt_types.specs.Limits.{GREATEST_COST};
ghost use Rattle.vt_types.specs.Operation.{operation};
ghost use Rattle.vt_types.specs.Program.{Gives};
ghost use Rattle.vt_types.specs.Reply.{reply_value};
ghost use Rattle.vt_types.specs.Within.{IsOperationWithin};
ghost use Rattle.drv_core.specs.Driver.{DriverRecord, new_record};
ghost use Rattle.drv_core.specs.Lowering.{Lowering};

use std::alloc::Global;
use vt_types::{Memory, Op, Port, Reply, Room};

/// A driver of all devices on a bus (VIRTIO 1.2, 3.1).
pub trait BusDriver: Sized {
    /// What it keeps of the devices.
    ghost known: { Self → DriverRecord };

    /// The accesses of each operation, and what their answers give.
    ghost lowering: { Lowering };

    /// A driver before the probe of any device.
    fn new(alloc: Global) -> Result<Self, Memory>
        ensures { IfOk result (λ d. known d ≡ new_record) };

    /// Makes the accesses of an operation, and answers its reply; with `Used` the written bytes are in the room. A field of
    /// the configuration is read again at most `repeats` times: one more than an operation has events at most.
    fn op<P: Port>(&mut self, port: &mut P, op: &Op, repeats: u32, room: &mut Room) -> Reply
        requires within { IsOperationWithin (operation op.now) }
        requires repeats { repeats ≤ MOST_EVENTS + 1 }
        requires credit { GREATEST_COST ≤ P.credit port.old }
        ensures gives { Gives P.step P.marking (lowering (known self.old) (operation op.now) repeats) port.old (record { reply = reply_value result room.new.items; known = known self.new }) port.new };
}
