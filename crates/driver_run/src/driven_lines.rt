//! What runs the lines of a script of driver operations.

ghost use Rattle.std.specs.Prelude.{◌≡◌, ℕ, List, [], Bool, IfOk, IfErr, Ok, Some};
ghost use Rattle.std.specs.Option.{option_map};
ghost use Rattle.vt_types.specs.Operation.{operation};
ghost use Rattle.vt_types.specs.Within.{AreEventsWithin, IsEventWithin, IsOperationWithin};
ghost use Rattle.interleaving.specs.BusDefinition.{driven};
ghost use Rattle.line_runner.specs.Shows.{RunsLine};
ghost use Rattle.script_text.specs.Line.{Asks, Happens, line_value};
ghost use Rattle.script_text.specs.Within.{IsLineWithin};
ghost use Rattle.driver_run.specs.DrivenScript.{Halves, driven_script, line_does, new_halves};
ghost use Rattle.driver_run.specs.Represents.{IsReserved, Represents};
ghost use Rattle.driver_run.specs.There.{if_there};

use crate::operation_runner::OperationRunner;
use crate::there::is_operation_there;
use dev_core::is_event_there;
use interleaving::Simulation;
use line_runner::LineRunner;
use report_out::Stop;
use script_text::{Line, LineFault, parse_line};
use std::alloc::Global;
use vt_outside::{Back, Disk};
use vt_types::{Event, Events, Op};

/// Runs the lines of a script on a bus, as they are read.
#[derive(Drop)]
pub struct DrivenLines<M: Simulation, D: Disk> {
    runner: OperationRunner<M, D>,
}

impl<M: Simulation, D: Disk> DrivenLines<M, D> {
    /// A runner that no line was run on, over a disk. Where there is no memory the disk comes back.
    pub fn new(alloc: Global, disk: D) -> Result<DrivenLines<M, D>, Back<D>>
        ensures represents { IfOk result (λ l. (sectors : List (List ℕ)) (read_only : Bool) → Represents M.related l.runner.machine (M.Driver.known l.runner.driver) (new_halves (driven M.Bus.table M.Driver.lowering M.kind) sectors read_only)) }
        ensures disk { IfOk result (λ l. l.runner.machine.disk.disk ≡ D.view disk) }
        ensures err { IfErr result (λ b. b.disk ≡ disk) }
    {
        let runner = OperationRunner::new(alloc, disk)?;
        Ok(DrivenLines { runner })
    }

    /// Runs an operation with its events, the `number`-th line of its script. False, and nothing happens, where a device is
    /// not there.
    fn run_operation(&mut self, number: u32, op: &Op, events: Events) -> bool
        requires within { IsOperationWithin (operation op.now) }
        requires events { AreEventsWithin events }
        requires reserved { IsReserved self.old.runner.machine }
        requires no_text { self.old.runner.text.bytes ≡ [] }
        ensures runs { (h : Halves M.Bus) → Represents M.related self.old.runner.machine (M.Driver.known self.old.runner.driver) h → RunsLine (option_map (line_does (driven M.Bus.table M.Driver.lowering M.kind)) (if_there (Some (Asks (operation op.now, events))))) number h (Represents M.related self.new.runner.machine (M.Driver.known self.new.runner.driver)) self.new.runner.machine.lines self.new.runner.text.bytes (Ok result) }
        ensures disk { self.new.runner.machine.disk ≡ self.old.runner.machine.disk }
    {
        if !is_operation_there(op, &events) {
            return false;
        }
        self.runner.run(number, op, events);
        true
    }

    /// An event happens between operations. False, and nothing happens, where its device is not there.
    fn run_event(&mut self, e: &Event) -> bool
        requires within { IsEventWithin e.now }
        requires reserved { IsReserved self.old.runner.machine }
        requires no_trace { self.old.runner.machine.lines ≡ [] }
        requires no_text { self.old.runner.text.bytes ≡ [] }
        ensures runs { (number : ℕ) (h : Halves M.Bus) → Represents M.related self.old.runner.machine (M.Driver.known self.old.runner.driver) h → RunsLine (option_map (line_does (driven M.Bus.table M.Driver.lowering M.kind)) (if_there (Some (Happens e.now)))) number h (Represents M.related self.new.runner.machine (M.Driver.known self.new.runner.driver)) self.new.runner.machine.lines self.new.runner.text.bytes (Ok result) }
        ensures disk { self.new.runner.machine.disk ≡ self.old.runner.machine.disk }
    {
        if !is_event_there(e) {
            return false;
        }
        self.runner.event(e);
        true
    }

    /// Runs a line, the `number`-th of its script, as it was read.
    fn run_read(&mut self, number: u32, line: Line) -> bool
        requires within { IsLineWithin (line_value line) }
        requires reserved { IsReserved self.old.runner.machine }
        requires no_trace { self.old.runner.machine.lines ≡ [] }
        requires no_text { self.old.runner.text.bytes ≡ [] }
        ensures runs { (h : Halves M.Bus) → Represents M.related self.old.runner.machine (M.Driver.known self.old.runner.driver) h → RunsLine (option_map (line_does (driven M.Bus.table M.Driver.lowering M.kind)) (if_there (Some (line_value line)))) number h (Represents M.related self.new.runner.machine (M.Driver.known self.new.runner.driver)) self.new.runner.machine.lines self.new.runner.text.bytes (Ok result) }
        ensures disk { self.new.runner.machine.disk ≡ self.old.runner.machine.disk }
    {
        match line {
            Line::Blank => true,
            Line::Event(event) => self.run_event(&event),
            Line::Op(op, events) => self.run_operation(number, &op, events),
        }
    }
}

impl<M: Simulation, D: Disk> LineRunner for DrivenLines<M, D> {
    type Disk = D;

    ghost State = { Halves M.Bus };

    ghost script = { driven_script (driven M.Bus.table M.Driver.lowering M.kind) };

    ghost represents = { λ l h. Represents M.related l.runner.machine (M.Driver.known l.runner.driver) h };

    ghost traced = { λ l. l.runner.machine.lines };

    ghost printed = { λ l. l.runner.text.bytes };

    ghost under = { λ l. l.runner.machine.disk.disk };

    fn refuses_long_lines() {}

    fn run_line(&mut self, alloc: Global, number: u32, line: &[u8]) -> Result<bool, Stop> {
        if self.runner.begin_line(alloc).is_err() {
            return Err(Stop::Memory);
        }
        match parse_line(alloc, line) {
            Ok(line) => Ok(self.run_read(number, line)),
            Err(LineFault::Bad) => Ok(false),
            Err(LineFault::Memory) => Err(Stop::Memory),
        }
    }

    fn trace(&self) -> &[u8] {
        self.runner.trace()
    }

    fn text(&self) -> &[u8] {
        self.runner.text()
    }

    fn console(&self) -> &[u8] {
        M::same_contents();
        self.runner.console()
    }

    fn into_disk(self) -> D {
        let DrivenLines { runner } = self;
        runner.into_disk()
    }
}
