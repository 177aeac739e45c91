//! The lines of events in a trace.

ghost use Rattle.std.specs.Prelude.{◌≡◌, ◌+◌, ◌≤◌, length};
ghost use Rattle.vt_types.specs.Limits.{LONGEST_FRAME};
ghost use Rattle.report_text.specs.Event.{device_text, event_bytes, event_line, event_text};
ghost use Rattle.report_text.specs.Text.{Added};

use crate::text::{EVENT_SPARE, Text};
use vt_types::{Dev, Event};

/// Spare bytes that are enough for an event.
const EVENT_TEXT_SPARE: u32 = 4_160;

/// A device as a script names it.
fn device_name(dev: Dev) -> &'static str
    ensures name { result.now ≡ device_text dev }
    ensures short { length result.now ≤ 3 }
{
    match dev {
        Dev::Blk => "blk",
        Dev::Net => "net",
        Dev::Con => "con",
    }
}

impl Text {
    /// Adds the line of an event: with at most `LONGEST_FRAME` bytes.
    pub fn event(&mut self, e: &Event)
        requires few { length (event_bytes e.now) ≤ LONGEST_FRAME }
        requires spare { EVENT_SPARE ≤ self.old.spare }
        ensures added { Added self.old self.new (event_line e.now) }
        ensures spare { self.old.spare ≤ self.new.spare + EVENT_SPARE }
    {
        self.text("* ");
        self.event_text(e);
        self.text("\n");
    }

    /// Adds an event.
    fn event_text(&mut self, e: &Event)
        requires few { length (event_bytes e.now) ≤ LONGEST_FRAME }
        requires spare { EVENT_TEXT_SPARE ≤ self.old.spare }
        ensures added { Added self.old self.new (event_text e.now) }
        ensures spare { self.old.spare ≤ self.new.spare + EVENT_TEXT_SPARE }
    {
        match e {
            Event::Serve { dev, queue } => self.serve(*dev, *queue),
            Event::Frame(bytes) => self.named_hex("frame", bytes.as_slice()),
            Event::Key(bytes) => self.named_hex("key", bytes.as_slice()),
            Event::Resize(sectors) => self.named_number("resize", *sectors),
            Event::Link(true) => self.text("link up"),
            Event::Link(false) => self.text("link down"),
            Event::Consize { cols, rows } => self.consize(*cols, *rows),
            Event::Diskfail(ahead) => self.named_number("diskfail", *ahead as u64),
        }
    }

    /// Adds that a device serves a queue.
    fn serve(&mut self, dev: Dev, queue: u16)
        requires { EVENT_TEXT_SPARE ≤ self.old.spare }
        ensures added { Added self.old self.new (event_text (Event.Serve dev queue)) }
        ensures spare { self.old.spare ≤ self.new.spare + EVENT_TEXT_SPARE }
    {
        self.text("serve");
        self.word(device_name(dev));
        self.number_word(queue as u64);
    }

    /// Adds that the console has another size.
    fn consize(&mut self, cols: u16, rows: u16)
        requires { EVENT_TEXT_SPARE ≤ self.old.spare }
        ensures added { Added self.old self.new (event_text (Event.Consize cols rows)) }
        ensures spare { self.old.spare ≤ self.new.spare + EVENT_TEXT_SPARE }
    {
        self.named_number("consize", cols as u64);
        self.number_word(rows as u64);
    }
}
