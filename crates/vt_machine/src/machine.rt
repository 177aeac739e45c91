//! The machine.

ghost use Rattle.std.specs.Prelude.{◌≡◌, ◌+◌, ◌*◌, ◌==◌, ◌<◌, ◌≤◌, [], ◌∷◌, drop, length, replicate, IfOk, IfErr, IfSome, OnOk};
ghost use Rattle.vt_types.specs.Access.{access_value, access_cost, IsWithinLimits};
ghost use Rattle.vt_types.specs.Events.{MOST_EVENTS, event_at};
ghost use Rattle.vt_types.specs.Limits.{GREATEST_COST, LONGEST_BUFFER, MOST_SECTORS};
ghost use Rattle.vt_types.specs.Program.{got};
ghost use Rattle.vt_types.specs.Within.{AreEventsWithin};
ghost use Rattle.vt_outside.specs.Disk.{Called, Reads};
ghost use Rattle.vt_outside.specs.DiskCall.{peek_call};
ghost use Rattle.vt_outside.specs.Meets.{Meets, bytes_read};
ghost use Rattle.report_text.specs.Access.{access_line, longest_access_line};
ghost use Rattle.dev_core.specs.Bus.{MEMORY_LENGTH, RawStep, raw_event};
ghost use Rattle.dev_core.specs.Devices.{new_devices};
ghost use Rattle.dev_core.specs.Pages.{PAGES_OF_EVENT};
ghost use Rattle.vt_machine.specs.Happens.{Happens};
ghost use Rattle.vt_machine.specs.Lines.{joined};
ghost use Rattle.vt_machine.specs.Machine.{counted, credit_of, lines_of};
ghost use Rattle.vt_machine.specs.OperationEvents.{is_due};
ghost use Rattle.vt_machine.specs.Trace.{due, later};

use crate::lines::{Lines, SPARE_OF_LINES};
use crate::operation_events::OperationEvents;
use crate::raw_machine::{PAGES_OF_LINE, RawMachine};
use dev_console::CONSOLE_SPARE;
use dev_core::Bus;
use report_text::{access_line_is_short, event_line_is_short};
use std::alloc::Global;
use std::marker::Model;
use vt_outside::{Back, Disk, Failed};
use vt_types::{Access, Answer, Event, Events, Memory, Place, Port, Room};

/// The raw machine with an operation: its events happen in the gaps between its accesses, and each event and each access
/// has a line. What the events that are left may take is always spare.
#[derive(Drop)]
pub struct Machine<B: Bus, D: Disk> {
    raw: RawMachine<B, D>,
    events: OperationEvents,
    count: u32,
    place: u32,
    lines: Lines,
}

impl<B: Bus, D: Disk> Model for Machine<B, D> {
    ghost use Rattle.vt_machine.specs.Happens.{IsReady, machine_view};
    ghost use Rattle.vt_machine.specs.Machine.{MachineView};

    ghost Value = { MachineView B };

    ghost view = { λ m. machine_view m.raw m.events m.count m.place m.lines };

    ghost invariant = { λ m. IsReady (machine_view m.raw m.events m.count m.place m.lines) };
}

impl<B: Bus + Drop, D: Disk> Machine<B, D> {
    /// A machine with zeros in memory and devices at their start, over a disk; no operation is under way. Where there is no
    /// memory the disk comes back.
    pub fn new(alloc: Global, bus: B, disk: D) -> Result<Machine<B, D>, Back<D>>
        ensures raw { IfOk result (λ m. m.raw ≡ record { registers = bus; devices = new_devices; memory = replicate MEMORY_LENGTH 0 }) }
        ensures disk { IfOk result (λ m. m.disk ≡ record { disk = D.view disk; trip = 0 }) }
        ensures left { IfOk result (λ m. m.left ≡ []) }
        ensures numbers { IfOk result (λ m. (m.count ≡ 0) × (m.happened ≡ 0) × (m.place ≡ 0)) }
        ensures lines { IfOk result (λ m. m.lines ≡ []) }
        ensures err { IfErr result (λ b. b.disk ≡ disk) }
    {
        let Ok(lines) = Lines::new(alloc) else {
            return Err(Back { disk });
        };
        let raw = RawMachine::new(alloc, bus, disk)?;
        Ok(Machine {
            raw,
            events: OperationEvents::none(alloc),
            count: 0,
            place: 0,
            lines,
        })
    }

    /// The disk that was held.
    pub fn into_disk(self) -> D
        ensures { D.view result ≡ self.disk.disk }
    {
        let Machine {
            raw,
            events: _,
            count: _,
            place: _,
            lines: _,
        } = self;
        raw.into_disk()
    }
}

impl<B: Bus, D: Disk> Machine<B, D> {
    /// Sees to it that what one line of a script may take is spare: `PAGES_OF_LINE` pages, `CONSOLE_SPARE` bytes of the
    /// console and `SPARE_OF_LINES` bytes of lines. That is enough for 128 events where none is left, for one more beside
    /// those that are left, and for accesses of an operation that cost 4,096. After want of memory no less is spare than
    /// before.
    pub fn reserve(&mut self, alloc: Global) -> Result<(), Memory>
        ensures same { self.new ≡ record self.old { line_spare = self.new.line_spare; spare = self.new.spare; pages = self.new.pages } }
        ensures line_spare { self.old.line_spare ≤ self.new.line_spare }
        ensures spare { self.old.spare ≤ self.new.spare }
        ensures pages { self.old.pages ≤ self.new.pages }
        ensures few { length self.old.left ≤ MOST_EVENTS }
        ensures lined { OnOk result (SPARE_OF_LINES ≤ self.new.line_spare) }
        ensures spared { OnOk result (CONSOLE_SPARE ≤ self.new.spare) }
        ensures paged { OnOk result (PAGES_OF_LINE ≤ self.new.pages) }
        ensures credit { OnOk result (GREATEST_COST ≤ credit_of self.new) }
    {
        let _few = self.events.happened();
        self.lines.reserve(alloc)?;
        self.raw.reserve(alloc)
    }

    /// An operation begins with its events, where no event of an earlier one is left.
    pub fn begin(&mut self, events: Events)
        requires none { self.old.left ≡ [] }
        requires pages { length events * PAGES_OF_EVENT ≤ self.old.pages }
        requires console { length events * LONGEST_BUFFER ≤ self.old.spare }
        requires within { AreEventsWithin events }
        ensures { self.new ≡ record self.old { left = events; count = 0; happened = 0; place = 0; lines = [] } }
    {
        self.events = OperationEvents::new(events);
        self.count = 0;
        self.place = 0;
        self.lines.clear();
    }

    /// Whether no event of the operation is left.
    fn is_done(&self) -> bool
        ensures { result ≡ (length self.now.left == 0) }
    {
        self.events.is_empty()
    }

    /// Whether an event of the operation is left that happens before its next access.
    fn is_due(&self) -> bool
        ensures { result ≡ is_due self.now.count self.now.left }
    {
        self.events.is_due(self.count)
    }

    /// The next event of the operation happens.
    fn happen_next(&mut self)
        requires { 1 ≤ length self.old.left }
        ensures { Happens B.table (event_at self.old.left 0 ∷ []) (drop 1 self.old.left) self.old self.new }
    {
        let next = self.events.first();
        self.raw.event(next);
        self.lines.event(next);
        event_line_is_short(next);
        self.events.advance();
    }

    /// The events of the operation happen that are due before its next access.
    fn happen_due(&mut self)
        ensures { Happens B.table (due self.old.count self.old.left) (later self.old.count self.old.left) self.old self.new }
    {
        'due: while self.is_due() {
            self.happen_next();
        }
    }

    /// The operation ends: the events that are left happen, with their lines. Its place and the number of its accesses.
    pub fn finish(&mut self) -> Place
        ensures happens { Happens B.table self.old.left [] self.old self.new }
        ensures place { result.p ≡ self.old.place }
        ensures count { result.n ≡ self.old.count }
    {
        'left: while !self.is_done() {
            self.happen_next();
        }
        Place {
            p: self.place,
            n: self.count,
        }
    }

    /// Does an access of the operation, with its line. No event happens.
    fn access_now(&mut self, a: &Access<'_>, room: &mut Room) -> Answer
        requires limits { IsWithinLimits (access_value a.now) }
        requires credit { access_cost (access_value a.now) ≤ credit_of self.old }
        ensures step { RawStep B.table self.old.raw (access_value a.now) result room.old.items room.new.items self.new.raw }
        ensures same { self.new ≡ record self.old { raw = self.new.raw; count = counted self.old.count; lines = self.new.lines; line_spare = self.new.line_spare; spare = self.new.spare; pages = self.new.pages } }
        ensures lines { lines_of self.new ≡ joined (lines_of self.old) (access_line (access_value a.now) result (got result room.new.items)) }
        ensures short { length (access_line (access_value a.now) result (got result room.new.items)) ≤ longest_access_line (access_value a.now) }
        ensures spare { self.old.spare ≤ self.new.spare + access_cost (access_value a.now) }
        ensures pages { self.old.pages ≤ self.new.pages + access_cost (access_value a.now) }
    {
        let answer = self.raw.access(a, room);
        self.lines.access(a, &answer, room);
        access_line_is_short(a, &answer, room);
        self.count = self.count.saturating_add(1);
        answer
    }

    /// An event between operations: it counts in none, and has no line. What it may take is spare beside what the events
    /// that are left may take. It adds at most `LONGEST_BUFFER` bytes to the console's, and makes at most `PAGES_OF_EVENT`
    /// pages of guest memory.
    pub fn event(&mut self, e: &Event)
        requires console { (length self.old.left + 1) * LONGEST_BUFFER ≤ self.old.spare }
        requires pages { (length self.old.left + 1) * PAGES_OF_EVENT ≤ self.old.pages }
        ensures raw { self.new.raw ≡ raw_event B.table self.old.raw e.now }
        ensures spare { self.old.spare ≤ self.new.spare + LONGEST_BUFFER }
        ensures pages { self.old.pages ≤ self.new.pages + PAGES_OF_EVENT }
        ensures same { self.new ≡ record self.old { raw = self.new.raw; spare = self.new.spare; pages = self.new.pages } }
    {
        self.raw.event(e);
    }

    /// The lines of what happened in the operation: of its accesses with their answers, and of the events among them.
    pub fn lines(&self) -> &[u8]
        ensures { result.now ≡ self.now.lines }
    {
        self.lines.bytes()
    }

    /// The bytes that the console was given.
    pub fn console(&self) -> &[u8]
        ensures { result.now ≡ self.now.raw.devices.contents.console.console }
    {
        self.raw.console()
    }

    /// How many sectors the disk has: at most `MOST_SECTORS`.
    pub fn disk_sectors(&self) -> u64
        ensures value { result ≡ self.now.disk.disk.count }
        ensures bound { result ≤ MOST_SECTORS }
        ensures whole { IfSome self.now.disk.disk.image (λ image. length image ≡ result) }
    {
        self.raw.disk_sectors()
    }

    /// Reads sector `n` of the disk, whatever its trip is. `Failed` comes exactly where the disk answered it, and says
    /// nothing of the room.
    pub fn peek_sector(&mut self, n: u64, room: &mut [u8; 512]) -> Result<(), Failed>
        requires { n < self.old.disk.disk.count }
        ensures called { Called self.old.disk.disk self.new.disk.disk result }
        ensures trip { self.new.disk.trip ≡ self.old.disk.trip }
        ensures image { self.new.disk.disk.image ≡ self.old.disk.disk.image }
        ensures ok { OnOk result (Reads n room.new self.old.disk.disk.image) }
        ensures meets { Meets (peek_call n) self.old.disk (bytes_read result room.new) self.new.disk }
        ensures same { self.new ≡ record self.old { disk = self.new.disk } }
    {
        self.raw.peek_sector(n, room)
    }
}

impl<B: Bus, D: Disk> Port for Machine<B, D> {
    ghost use Rattle.vt_machine.specs.Machine.{MachineMark, MachineStep, credit_of};

    ghost step = { MachineStep B.table };

    ghost marking = { MachineMark };

    ghost credit = { credit_of };

    fn access(&mut self, a: &Access<'_>, room: &mut Room) -> Answer {
        self.happen_due();
        self.access_now(a, room)
    }

    fn mark(&mut self) {
        self.place = self.events.happened();
    }
}
