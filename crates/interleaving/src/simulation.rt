//! What is said of a bus.

ghost use Rattle.std.specs.Prelude.{◌≡◌, ℕ, ◌+◌, ◌<◌, ◌≤◌, ◌^◌};
ghost use Rattle.vt_types.specs.declared.device.BusKind.{BusKind};
ghost use Rattle.vt_types.specs.Events.{MOST_EVENTS};
ghost use Rattle.vt_types.specs.Operation.{Operation};
ghost use Rattle.vt_types.specs.Program.{CountsAtMost};
ghost use Rattle.report_text.specs.Access.{longest_access_line};
ghost use Rattle.abstract_devices.specs.World.{AbstractDisk, World, new_world};
ghost use Rattle.abstract_devices.specs.Operate.{operate};
ghost use Rattle.dev_core.specs.Bus.{Raw, new_raw};
ghost use Rattle.drv_core.specs.Driver.{DriverRecord, new_record};
ghost use Rattle.interleaving.specs.Asked.{IsAsked};
ghost use Rattle.vt_machine.specs.Lines.{LONGEST_TRACE};
ghost use Rattle.interleaving.specs.BusDefinition.{driven};
ghost use Rattle.interleaving.specs.InProgress.{InProgress};
ghost use Rattle.interleaving.specs.Kept.{Kept};
ghost use Rattle.interleaving.specs.Safe.{Relation};

use dev_core::Bus;
use drv_core::BusDriver;

/// A bus with its driver, and how the abstract devices, the raw machine and the driver's record stand to one another between
/// two operations. Its functions do nothing: they are its laws.
pub trait Simulation {
    type Bus: Bus + Drop;

    type Driver: BusDriver + Drop;

    ghost kind: { BusKind };

    ghost related: { Relation Self.Bus };

    /// All three are related at the start.
    fn starts()
        ensures { (disk : AbstractDisk) → related (new_world disk) (new_raw Self.Bus.table) new_record };

    /// Every event keeps the relation.
    fn keeps_events()
        ensures { (known : DriverRecord) → Kept (driven Self.Bus.table Self.Driver.lowering kind) (λ w raw. related w raw known) };

    /// The devices hold the same in both halves.
    fn same_contents()
        ensures { (w : World) (raw : Raw Self.Bus) (known : DriverRecord) → related w raw known → raw.devices.contents ≡ w.contents };

    /// From related halves every operation of a script is in progress at its start, whatever events may come, where it has as
    /// many repeats as there may be events.
    fn begins()
        ensures { (op : Operation) (known : DriverRecord) (n repeats : ℕ) (w : World) (raw : Raw Self.Bus) → IsAsked op → n ≤ repeats → repeats < 2 ^ 32 → related w raw known → InProgress (driven Self.Bus.table Self.Driver.lowering kind) related op (Self.Driver.lowering known op repeats) n w (operate kind w op) raw };

    /// The lines of an operation's accesses are not too long.
    fn is_short()
        ensures { (op : Operation) (known : DriverRecord) (repeats : ℕ) → IsAsked op → repeats ≤ MOST_EVENTS + 1 → CountsAtMost longest_access_line (Self.Driver.lowering known op repeats) LONGEST_TRACE };
}
