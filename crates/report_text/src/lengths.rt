//! How long the lines of a trace are at most.

ghost use Rattle.std.specs.Prelude.{◌≡◌, ◌+◌, ◌*◌, ◌≤◌, [], false, length, if◌then◌else◌, IsTrue};
ghost use Rattle.std.specs.Fmt.{decimal};
ghost use Rattle.vt_types.specs.Access.{IsWithinLimits, access_value, is_width};
ghost use Rattle.vt_types.specs.Program.{got};
ghost use Rattle.vt_types.specs.Within.{IsEventWithin};
ghost use Rattle.report_text.specs.Access.{access_line, access_text, address, answer_text, brings_bytes, longest_access_line, offset};
ghost use Rattle.report_text.specs.Event.{event_line};

use crate::access::{ANSWER_SPARE, answer_width, turn_name};
use crate::text::{EVENT_SPARE, NUMBER_SPARE};
use crate::words::{DIGITS_SPARE, NAMED_SPARE};
use vt_types::{Access, Answer, Event, Room};

/// The line of an access within limits is no longer than the longest one of its kind, where bytes come with a get alone.
/// Does nothing.
pub fn access_line_is_short(a: &Access<'_>, answer: &Answer, room: &Room)
    requires limits { IsWithinLimits (access_value a.now) }
    requires bytes { brings_bytes (access_value a.now) ≡ false → got answer.now room.now.items ≡ [] }
    ensures { length (access_line (access_value a.now) answer.now (got answer.now room.now.items)) ≤ longest_access_line (access_value a.now) }
{
    access_is_short(a);
    answer_is_short(a, answer, room);
}

/// The line of an event within the bounds of a script has at most `EVENT_SPARE` bytes. Does nothing.
#[tactic(auto, using(crate::proofs::DigitCounts::lengths))]
pub fn event_line_is_short(e: &Event)
    requires { IsEventWithin e.now }
    ensures { length (event_line e.now) ≤ EVENT_SPARE }
{
    match e {
        Event::Serve { queue, .. } => decimal_is_short(*queue as u64),
        Event::Resize(sectors) => decimal_is_short(*sectors),
        Event::Consize { cols, rows } => {
            decimal_is_short(*cols as u64);
            decimal_is_short(*rows as u64);
        }
        Event::Diskfail(ahead) => decimal_is_short(*ahead as u64),
        Event::Frame(_) | Event::Key(_) | Event::Link(_) => {}
    }
}

/// The decimal digits of a number are few. Does nothing.
#[tactic(auto, using(crate::proofs::DigitCounts::length_decimal))]
fn decimal_is_short(n: u64)
    ensures { length (decimal n) ≤ NUMBER_SPARE }
{}

/// The digits of an address are few. Does nothing.
fn address_is_short(n: u64)
    ensures { length (address n) ≤ DIGITS_SPARE }
{}

/// The digits of an offset are few. Does nothing.
fn offset_is_short(n: u16)
    ensures { length (offset n) ≤ DIGITS_SPARE }
{}

/// An access leaves spare bytes for its answer in the longest line of its kind. Does nothing.
#[tactic(auto, using(crate::proofs::DigitCounts::lengths))]
fn access_is_short(a: &Access<'_>)
    requires { IsWithinLimits (access_value a.now) }
    ensures { length (access_text (access_value a.now)) + (if brings_bytes (access_value a.now) then ANSWER_SPARE else NAMED_SPARE) ≤ longest_access_line (access_value a.now) }
{
    match *a {
        Access::Load { addr, width } | Access::Store { addr, width, .. } => {
            address_is_short(addr);
            decimal_is_short(width as u64);
            width_is_small(width);
        }
        Access::Put { addr, .. } | Access::Swap { addr, .. } => address_is_short(addr),
        Access::Get { addr, count } | Access::Zero { addr, count } => {
            address_is_short(addr);
            decimal_is_short(count as u64);
        }
        Access::CfgLoad { func, off, width }
        | Access::CfgStore {
            func,
            off,
            width,
            ..
        } => {
            decimal_is_short(func as u64);
            offset_is_short(off);
            decimal_is_short(width as u64);
            width_is_small(width);
        }
        Access::Ssch { id, addr }
        | Access::Tsch { id, addr }
        | Access::Stsch { id, addr }
        | Access::Msch { id, addr } => {
            address_is_short(id as u64);
            address_is_short(addr);
        }
        Access::Csch { id } | Access::Turn { id } | Access::Diag { id, .. } => {
            address_is_short(id as u64);
        }
    }
}

/// A width of an access is a small number. Does nothing.
fn width_is_small(width: u8)
    requires { IsTrue (is_width width) }
    ensures { width ≤ 4 }
{}

/// An answer and what stands around it in the line are short, where bytes come with a get alone. Does nothing.
#[tactic(auto, using(crate::proofs::DigitCounts::lengths))]
fn answer_is_short(a: &Access<'_>, answer: &Answer, room: &Room)
    requires limits { IsWithinLimits (access_value a.now) }
    requires bytes { brings_bytes (access_value a.now) ≡ false → got answer.now room.now.items ≡ [] }
    ensures { length (answer_text (access_value a.now) answer.now (got answer.now room.now.items)) + 6 ≤ (if brings_bytes (access_value a.now) then ANSWER_SPARE else NAMED_SPARE) }
{
    let _at_most_8 = answer_width(a);
    let _at_most_8192 = room.len();
    match *answer {
        Answer::Word(_) | Answer::Done | Answer::Got | Answer::Outside | Answer::NoSuch => {}
        Answer::Code(code) => decimal_is_short(code as u64),
        Answer::Turned(turn) => {
            let _short = turn_name(turn);
        }
    }
}
