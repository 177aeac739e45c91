//! The lines of a raw script.

ghost use Rattle.std.specs.Prelude.{◌≡◌, ◌+◌, ◌++◌, ◌≤◌, length};
ghost use Rattle.vt_types.specs.Access.{access_value, access_cost, IsWithinLimits};
ghost use Rattle.report_text.specs.Access.{raw_line};
ghost use Rattle.report_text.specs.Text as spec;
ghost use Rattle.dev_core.specs.Bus.{raw_access};

use dev_core::{Bus, is_event_there};
use line_runner::LineRunner;
use report_out::Stop;
use report_text::{LINE_SPARE, Text};
use script_text::{LineFault, RawLine, parse_raw};
use std::alloc::Global;
use vt_machine::RawMachine;
use vt_outside::{Back, Disk};
use vt_types::{Access, Room};

/// What an access costs at most: the pages of the longest range that is filled with zeros.
const MOST_COST: u32 = 17;

/// An access costs at most `MOST_COST`. Does nothing.
fn costs_little(a: &Access<'_>)
    requires { IsWithinLimits (access_value a.now) }
    ensures { access_cost (access_value a.now) ≤ MOST_COST }
{
    if let Access::Zero { count, .. } = *a {
        let _bytes = count;
    }
}

/// Does an access, and adds the line of its answer.
fn run_access<B: Bus, D: Disk>(
    number: u32,
    a: &Access<'_>,
    machine: &mut RawMachine<B, D>,
    room: &mut Room,
    text: &mut Text,
)
    requires limits { IsWithinLimits (access_value a.now) }
    requires console { MOST_COST ≤ machine.old.spare }
    requires pages { MOST_COST ≤ machine.old.pages }
    requires spare { LINE_SPARE ≤ text.old.spare }
    ensures raw { machine.new.raw ≡ (raw_access B.table (access_value a.now) machine.old.raw).2 }
    ensures text { text.new.bytes ≡ text.old.bytes ++ raw_line number (access_value a.now) (raw_access B.table (access_value a.now) machine.old.raw).0 (raw_access B.table (access_value a.now) machine.old.raw).1 }
    ensures spare { text.old.spare + length text.old.bytes ≤ text.new.spare + length text.new.bytes }
    ensures disk { machine.new.disk ≡ machine.old.disk }
{
    costs_little(a);
    let answer = machine.access(a, room);
    text.raw(number, a, &answer, room);
}

/// The machine that the lines of a raw script are run on, the room of an access, and what the last line printed.
#[derive(Drop)]
pub struct RawLines<B: Bus, D: Disk> {
    machine: RawMachine<B, D>,
    room: Room,
    text: Text,
    ghost spare: { spec.LINE_SPARE ≤ text.spare + length text.bytes },
}

impl<B: Bus + Drop, D: Disk> RawLines<B, D> {
    ghost use Rattle.std.specs.Prelude.{◌≡◌, IfOk, IfErr};
    ghost use Rattle.dev_core.specs.Bus.{new_raw};

    /// A new machine over a disk, before the first line. Where there is no memory the disk comes back.
    pub fn new(alloc: Global, disk: D) -> Result<RawLines<B, D>, Back<D>>
        ensures raw { IfOk result (λ l. l.machine.raw ≡ new_raw B.table) }
        ensures disk { IfOk result (λ l. l.machine.disk.disk ≡ D.view disk) }
        ensures err { IfErr result (λ b. b.disk ≡ disk) }
    {
        let Ok(text) = Text::new(alloc) else {
            return Err(Back { disk });
        };
        let machine = RawMachine::new(alloc, B::new(), disk)?;
        Ok(RawLines {
            machine,
            room: Room::new(),
            text,
        })
    }
}

impl<B: Bus + Drop, D: Disk> LineRunner for RawLines<B, D> {
    ghost use Rattle.std.specs.Prelude.{◌≡◌, []};
    ghost use Rattle.dev_core.specs.Bus.{Raw};
    ghost use Rattle.raw_run.specs.RawScript.{raw_script};

    type Disk = D;

    ghost State = { Raw B };

    ghost script = { raw_script B.table };

    ghost represents = { λ l raw. l.machine.raw ≡ raw };

    ghost traced = { λ _. [] };

    ghost printed = { λ l. l.text.bytes };

    ghost under = { λ l. l.machine.disk.disk };

    fn refuses_long_lines() {}

    fn run_line(&mut self, alloc: Global, number: u32, line: &[u8]) -> Result<bool, Stop> {
        self.text.clear();
        if self.machine.reserve(alloc).is_err() {
            return Err(Stop::Memory);
        }
        match parse_raw(alloc, line) {
            Ok(RawLine::Blank) => Ok(true),
            Ok(RawLine::Access(access)) => {
                run_access(
                    number,
                    &access.access(),
                    &mut self.machine,
                    &mut self.room,
                    &mut self.text,
                );
                Ok(true)
            }
            Ok(RawLine::Event(event)) => {
                let there = is_event_there(&event);
                if there {
                    self.machine.event(&event);
                }
                Ok(there)
            }
            Err(LineFault::Bad) => Ok(false),
            Err(LineFault::Memory) => Err(Stop::Memory),
        }
    }

    fn trace(&self) -> &[u8] {
        &[]
    }

    fn text(&self) -> &[u8] {
        self.text.bytes()
    }

    fn console(&self) -> &[u8] {
        self.machine.console()
    }

    fn into_disk(self) -> D {
        let RawLines {
            machine,
            room: _,
            text: _,
        } = self;
        machine.into_disk()
    }
}
