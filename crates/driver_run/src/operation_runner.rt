//! What runs the operations of a script.

ghost use Rattle.std.specs.Prelude.{◌≡◌, ◌+◌, ◌≤◌, [], length};
ghost use Rattle.report_text.specs.Text.{LINE_SPARE};

use dev_core::Bus;
use drv_core::BusDriver;
use interleaving::{Simulation, interleaved};
use report_text::Text;
use std::alloc::Global;
use vt_machine::Machine;
use vt_outside::{Back, Disk};
use vt_types::{Event, Events, Memory, Op, Place, Reply, Room};

/// A driver on a machine of its bus, the room that bytes of a get come into, and the text of the last line. No event is left
/// between operations, and the text always has enough spare bytes for the line of a reply.
#[derive(Drop)]
pub struct OperationRunner<M: Simulation, D: Disk> {
    driver: M::Driver,
    machine: Machine<M::Bus, D>,
    room: Room,
    text: Text,
    ghost none_left: { machine.left ≡ [] },
    ghost spare: { LINE_SPARE ≤ text.spare + length text.bytes },
}

impl<M: Simulation, D: Disk> OperationRunner<M, D> {
    ghost use Rattle.std.specs.Prelude.{◌≡◌, ◌≤◌, ℕ, List, [], Bool, IfOk, IfErr, OnOk, length};
    ghost use Rattle.vt_types.specs.Events.{MOST_EVENTS};
    ghost use Rattle.vt_types.specs.Operation.{operation};
    ghost use Rattle.vt_types.specs.Reply.{reply_value};
    ghost use Rattle.vt_types.specs.Within.{AreEventsWithin, IsEventWithin};
    ghost use Rattle.vt_machine.specs.IsTraced.{IsTraced};
    ghost use Rattle.interleaving.specs.Asked.{IsAsked};
    ghost use Rattle.interleaving.specs.BusDefinition.{driven, trace_of};
    ghost use Rattle.line_runner.specs.Shows.{RunsAs};
    ghost use Rattle.script_text.specs.Line.{Happens};
    ghost use Rattle.driver_run.specs.DrivenScript.{Halves, line_does, new_halves, operation_does};
    ghost use Rattle.driver_run.specs.Represents.{IsReserved, Represents};

    /// A new driver on a new machine over a disk. Where there is no memory the disk comes back.
    pub fn new(alloc: Global, disk: D) -> Result<OperationRunner<M, D>, Back<D>>
        ensures represents { IfOk result (λ r. (sectors : List (List ℕ)) (read_only : Bool) → Represents M.related r.machine (M.Driver.known r.driver) (new_halves (driven M.Bus.table M.Driver.lowering M.kind) sectors read_only)) }
        ensures disk { IfOk result (λ r. r.machine.disk.disk ≡ D.view disk) }
        ensures err { IfErr result (λ b. b.disk ≡ disk) }
    {
        M::starts();
        let Ok(driver) = <M::Driver as BusDriver>::new(alloc) else {
            return Err(Back { disk });
        };
        let Ok(text) = Text::new(alloc) else {
            return Err(Back { disk });
        };
        let machine = Machine::new(alloc, <M::Bus as Bus>::new(), disk)?;
        Ok(OperationRunner {
            driver,
            machine,
            room: Room::new(),
            text,
        })
    }

    /// Takes the trace and the text of the last line away, and reserves what the next line may take.
    pub fn begin_line(&mut self, alloc: Global) -> Result<(), Memory>
        ensures represents { (h : Halves M.Bus) → Represents M.related self.old.machine (M.Driver.known self.old.driver) h → Represents M.related self.new.machine (M.Driver.known self.new.driver) h }
        ensures trace { self.new.machine.lines ≡ [] }
        ensures text { self.new.text.bytes ≡ [] }
        ensures disk { self.new.machine.disk ≡ self.old.machine.disk }
        ensures reserved { OnOk result (IsReserved self.new.machine) }
    {
        self.text.clear();
        // A line begins as an operation without events: so far nothing happened in it.
        self.machine.begin(Events::new(alloc));
        self.machine.reserve(alloc)
    }

    /// Makes the accesses of an operation on the machine, with its events in the gaps between them: its reply, whose bytes are
    /// in the room, and its place.
    fn operate(&mut self, op: &Op, events: Events) -> (Reply, Place)
        requires asked { IsAsked (operation op.now) }
        requires events { AreEventsWithin events }
        requires reserved { IsReserved self.old.machine }
        ensures traced { IsTraced (trace_of (driven M.Bus.table M.Driver.lowering M.kind) self.old.machine.raw (M.Driver.known self.old.driver) (operation op.now) events) (record { reply = reply_value result.0 self.new.room.items; known = M.Driver.known self.new.driver }) (record self.old.machine { lines = [] }) self.new.machine }
        ensures place { result.1.p ≡ self.new.machine.place }
        ensures count { result.1.n ≡ self.new.machine.count }
        ensures text { self.new.text ≡ self.old.text }
        ensures few { length events ≤ MOST_EVENTS }
    {
        M::is_short();
        let repeats = events.len() + 1;
        self.machine.begin(events);
        let reply = self
            .driver
            .op(&mut self.machine, op, repeats, &mut self.room);
        let place = self.machine.finish();
        (reply, place)
    }

    /// Runs an operation with its events, the `number`-th line of its script: the trace is that of what happened in it, and
    /// the text that of its reply.
    pub fn run(&mut self, number: u32, op: &Op, events: Events)
        requires asked { IsAsked (operation op.now) }
        requires events { AreEventsWithin events }
        requires reserved { IsReserved self.old.machine }
        requires empty { self.old.text.bytes ≡ [] }
        ensures runs { (h : Halves M.Bus) → Represents M.related self.old.machine (M.Driver.known self.old.driver) h → RunsAs (operation_does (driven M.Bus.table M.Driver.lowering M.kind) (operation op.now) events number h) (Represents M.related self.new.machine (M.Driver.known self.new.driver)) self.new.machine.lines self.new.text.bytes }
        ensures disk { self.new.machine.disk ≡ self.old.machine.disk }
    {
        interleaved::<M>();
        let (reply, place) = self.operate(op, events);
        self.text.reply(number, &reply, &self.room, place);
    }

    /// An event happens between operations.
    pub fn event(&mut self, e: &Event)
        requires within { IsEventWithin e.now }
        requires reserved { IsReserved self.old.machine }
        ensures represents { (h : Halves M.Bus) → Represents M.related self.old.machine (M.Driver.known self.old.driver) h → Represents M.related self.new.machine (M.Driver.known self.new.driver) (line_does (driven M.Bus.table M.Driver.lowering M.kind) (Happens e.now) 0 h).state }
        ensures trace { self.new.machine.lines ≡ self.old.machine.lines }
        ensures text { self.new.text ≡ self.old.text }
        ensures disk { self.new.machine.disk ≡ self.old.machine.disk }
    {
        M::keeps_events();
        self.machine.event(e);
    }

    /// The lines of what happened in the last operation.
    pub fn trace(&self) -> &[u8]
        ensures { result.now ≡ self.now.machine.lines }
    {
        self.machine.lines()
    }

    /// The text of the last line.
    pub fn text(&self) -> &[u8]
        ensures { result.now ≡ self.now.text.bytes }
    {
        self.text.bytes()
    }

    /// The bytes that the console was given.
    pub fn console(&self) -> &[u8]
        ensures { result.now ≡ self.now.machine.raw.devices.contents.console.console }
    {
        self.machine.console()
    }

    /// The disk that was held.
    pub fn into_disk(self) -> D
        ensures { D.view result ≡ self.machine.disk.disk }
    {
        let OperationRunner {
            driver: _,
            machine,
            room: _,
            text: _,
        } = self;
        machine.into_disk()
    }
}
