//! The lines of what happens in an operation.

ghost use Rattle.std.specs.Prelude.{◌≡◌, ◌+◌, ◌-◌, ◌*◌, ◌≤◌, [], length, IfOk, OnOk};
ghost use Rattle.vt_types.specs.Access.{access_value, IsWithinLimits};
ghost use Rattle.vt_types.specs.Events.{MOST_EVENTS};
ghost use Rattle.vt_types.specs.Program.{got};
ghost use Rattle.vt_types.specs.Within.{IsEventWithin};
ghost use Rattle.report_text.specs.Access.{access_line};
ghost use Rattle.report_text.specs.Event.{event_line};
ghost use Rattle.report_text.specs.Text.{EVENT_SPARE};
ghost use Rattle.vt_machine.specs.Lines as spec;
ghost use Rattle.vt_machine.specs.Lines.{joined};

use report_text::{LINE_SPARE, Text};
use std::alloc::Global;
use std::marker::Model;
use vt_types::{Access, Answer, Event, Memory, Room};

/// Spare bytes that are enough for the lines of one operation (our own).
pub const SPARE_OF_LINES: u32 = 2_097_152;

/// The most bytes that the lines of an operation's accesses may have. Beside them `SPARE_OF_LINES` has the bytes for the
/// lines of 128 events (our own).
pub const LONGEST_TRACE: u32 = 524_288;

/// Spare bytes that are enough for the longest line.
const LONGEST_LINE: usize = LINE_SPARE as usize;

/// The greatest length of the lines of accesses is the definitions', and with it the lines of an operation fit. Does nothing.
pub fn lines_fit()
    ensures longest { LONGEST_TRACE ≡ spec.LONGEST_TRACE }
    ensures fit { LONGEST_TRACE + MOST_EVENTS * EVENT_SPARE + LINE_SPARE ≤ SPARE_OF_LINES }
{}

/// Lines over a buffer with spare bytes. A line is left out where there are fewer of them than for the longest one.
#[derive(Drop)]
pub struct Lines {
    text: Text,
    spare: usize,
}

impl Model for Lines {
    ghost use Rattle.std.specs.Prelude.{◌≤◌};
    ghost use Rattle.vt_machine.specs.Lines.{LinesView};

    ghost Value = { LinesView };

    ghost view = { λ l. record { bytes = l.text.bytes; spare = l.spare } };

    ghost invariant = { λ l. l.spare ≤ l.text.spare };
}

/// What is left of `spare` bytes, once a text of `before` bytes has become longer.
fn spare_after(spare: usize, before: usize, text: &Text) -> usize
    ensures { result ≡ spare - (length text.now.bytes - before) }
{
    spare.saturating_sub(text.bytes().len().saturating_sub(before))
}

impl Lines {
    /// No lines, and no spare bytes.
    pub fn new(alloc: Global) -> Result<Lines, Memory>
        ensures { IfOk result (λ l. l ≡ record { bytes = []; spare = 0 }) }
    {
        Ok(Lines {
            text: Text::new(alloc)?,
            spare: 0,
        })
    }

    /// Sees to it that there are `SPARE_OF_LINES` spare bytes. `Memory` leaves the spare bytes that there were.
    pub fn reserve(&mut self, alloc: Global) -> Result<(), Memory>
        ensures bytes { self.new.bytes ≡ self.old.bytes }
        ensures spare { self.old.spare ≤ self.new.spare }
        ensures ok { OnOk result (SPARE_OF_LINES ≤ self.new.spare) }
    {
        self.text.reserve(alloc, SPARE_OF_LINES)?;
        self.spare = self.spare.max(SPARE_OF_LINES as usize);
        Ok(())
    }

    /// The lines.
    pub fn bytes(&self) -> &[u8]
        ensures { result.now ≡ self.now.bytes }
    {
        self.text.bytes()
    }

    /// Takes all lines away. The spare bytes stay.
    pub fn clear(&mut self)
        ensures { self.new ≡ record self.old { bytes = [] } }
    {
        self.text.clear();
    }

    /// Adds the line of an event.
    pub fn event(&mut self, e: &Event)
        requires { IsEventWithin e.now }
        ensures { self.new ≡ joined self.old (event_line e.now) }
    {
        if self.spare < LONGEST_LINE {
            return;
        }
        let before = self.text.bytes().len();
        self.text.event(e);
        self.spare = spare_after(self.spare, before, &self.text);
    }

    /// Adds the line of an access with its answer. The bytes of a get are in the room.
    pub fn access(&mut self, a: &Access<'_>, answer: &Answer, room: &Room)
        requires { IsWithinLimits (access_value a.now) }
        ensures { self.new ≡ joined self.old (access_line (access_value a.now) answer.now (got answer.now room.now.items)) }
    {
        if self.spare < LONGEST_LINE {
            return;
        }
        let before = self.text.bytes().len();
        self.text.access(a, answer, room);
        self.spare = spare_after(self.spare, before, &self.text);
    }
}
