//! The lines of replies.

ghost use Rattle.std.specs.Prelude.{◌≡◌, ◌+◌, ◌≤◌, length};
ghost use Rattle.vt_types.specs.Limits.{LONGEST_BUFFER};
ghost use Rattle.vt_types.specs.Reply.{Refused, Signals, Used, reply_value};
ghost use Rattle.report_text.specs.Reply.{reply_line, reply_text, why_text};
ghost use Rattle.report_text.specs.Text.{Added};

use crate::text::{LINE_SPARE, Text};
use vt_types::{Place, Reply, Room, Why};

/// Spare bytes that are enough for a reply.
const REPLY_SPARE: u32 = 16_512;

/// Spare bytes that are enough for the queues that signalled.
const SIGNALS_SPARE: u32 = 400;

/// The name of a refusal.
fn why_name(why: Why) -> &'static str
    ensures name { result.now ≡ why_text why }
    ensures short { length result.now ≤ 8 }
{
    match why {
        Why::State => "state",
        Why::Queue => "queue",
        Why::Size => "size",
        Why::Set => "set",
        Why::Unset => "unset",
        Why::Tag => "tag",
        Why::Full => "full",
        Why::Range => "range",
        Why::Mode => "mode",
    }
}

impl Text {
    /// Adds the line of a reply: the number of the script's line, the reply, the place of the operation's marked access
    /// and the number of its accesses. The written bytes of a used buffer are in the room.
    pub fn reply(&mut self, line: u32, reply: &Reply, room: &Room, place: Place)
        requires { LINE_SPARE ≤ self.old.spare }
        ensures added { Added self.old self.new (reply_line line (reply_value reply.now room.now.items) place.p place.n) }
        ensures spare { self.old.spare ≤ self.new.spare + LINE_SPARE }
    {
        self.number(line as u64);
        self.text(" ");
        self.reply_text(reply, room);
        self.text(" p=");
        self.number(place.p as u64);
        self.text(" n=");
        self.number(place.n as u64);
        self.text("\n");
    }

    /// Adds a reply. The written bytes of a used buffer are in the room.
    fn reply_text(&mut self, reply: &Reply, room: &Room)
        requires { REPLY_SPARE ≤ self.old.spare }
        ensures added { Added self.old self.new (reply_text (reply_value reply.now room.now.items)) }
        ensures spare { self.old.spare ≤ self.new.spare + REPLY_SPARE }
    {
        match reply {
            Reply::Good => self.text("ok"),
            Reply::Id(id) => self.named_number("id", *id as u64),
            Reply::Features(features) => self.named_digits("features", 8, *features),
            Reply::Status(status) => self.named_digits("status", 1, *status as u64),
            Reply::Value(bytes) => self.named_hex("value", bytes.as_slice()),
            Reply::Nothing => self.text("none"),
            Reply::Used { tag, len } => self.used(*tag, *len, room.as_slice()),
            Reply::Signals(queues) => self.signals(queues.as_slice()),
            Reply::AnyQueue => self.text("irq some"),
            Reply::Config(true) => self.text("irq config"),
            Reply::Config(false) => self.text("irq none"),
            Reply::Refused(why) => self.refused(*why),
        }
    }

    /// Adds a used buffer: its tag, how many bytes were written, and these bytes: at most
    /// `LONGEST_BUFFER`.
    fn used(&mut self, tag: u16, len: u32, bytes: &[u8])
        requires few { length bytes.now ≤ LONGEST_BUFFER }
        requires spare { REPLY_SPARE ≤ self.old.spare }
        ensures added { Added self.old self.new (reply_text (Used tag len bytes.now)) }
        ensures spare { self.old.spare ≤ self.new.spare + REPLY_SPARE }
    {
        self.text("used");
        self.number_word(tag as u64);
        self.number_word(len as u64);
        self.hex_word(bytes);
    }

    /// Adds the queues that signalled: at most 16.
    fn signals(&mut self, queues: &[u16])
        requires few { length queues.now ≤ 16 }
        requires spare { SIGNALS_SPARE ≤ self.old.spare }
        ensures added { Added self.old self.new (reply_text (Signals queues.now)) }
        ensures spare { self.old.spare ≤ self.new.spare + SIGNALS_SPARE }
    {
        if queues.is_empty() {
            self.text("irq none");
        } else {
            self.text("irq");
            self.number_words(queues);
        }
    }

    /// Adds a refusal.
    fn refused(&mut self, why: Why)
        requires { SIGNALS_SPARE ≤ self.old.spare }
        ensures added { Added self.old self.new (reply_text (Refused why)) }
        ensures spare { self.old.spare ≤ self.new.spare + SIGNALS_SPARE }
    {
        self.text("refused");
        self.word(why_name(why));
    }
}
