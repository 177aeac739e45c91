//! The events of a script.

ghost use Rattle.std.specs.Prelude.{◌≡◌, IfOk};
ghost use Rattle.vt_types.specs.Events.{MOST_EVENTS};
ghost use Rattle.script_text.specs.Reading.{Reads, Spells};
ghost use Rattle.script_text.specs.Event as spec;
ghost use Rattle.vt_types.specs.Within.{IsEventWithin, AreEventsWithin};

use crate::fault::LineFault;
use crate::fields::decimal;
use crate::words::{Words, find_byte, is};
use std::alloc::Global;
use vt_types::{Event, EventAt, Events, LONGEST_FRAME, LONGEST_KEYS, MOST_EVENTS};

/// The event whose first word is this: a device serves a queue, a frame or keys come, the disk, the link or the console
/// changes, or a call of the disk will fail.
#[tactic(auto, unfolding(crate::specs::Event::event_named))]
fn event_named(alloc: Global, word: &[u8], words: &mut Words<'_>) -> Result<Event, LineFault>
    ensures value { Reads (λ e. e) result words.new (spec.event_named word.now words.old) }
    ensures within { IfOk result IsEventWithin }
{
    if is(word, b"serve") {
        let dev = words.device()?;
        let queue = words.number16()?;
        Ok(Event::Serve { dev, queue })
    } else if is(word, b"frame") {
        Ok(Event::Frame(words.hex_bytes(alloc, LONGEST_FRAME)?))
    } else if is(word, b"key") {
        Ok(Event::Key(words.hex_bytes(alloc, LONGEST_KEYS)?))
    } else if is(word, b"resize") {
        Ok(Event::Resize(words.decimal(0, u64::MAX)?))
    } else if is(word, b"link") {
        Ok(Event::Link(words.link()?))
    } else if is(word, b"consize") {
        let cols = words.number16()?;
        let rows = words.number16()?;
        Ok(Event::Consize { cols, rows })
    } else if is(word, b"diskfail") {
        Ok(Event::Diskfail(words.decimal(1, 65535)? as u32))
    } else {
        Err(LineFault::Bad)
    }
}

/// An event.
pub(crate) fn event(alloc: Global, words: &mut Words<'_>) -> Result<Event, LineFault>
    ensures value { Reads (λ e. e) result words.new (spec.event words.old) }
    ensures within { IfOk result IsEventWithin }
{
    let word = words.next()?;
    event_named(alloc, word, words)
}

/// `@`, a gap, `:` and the first word of an event.
fn gap(word: &[u8]) -> Option<(u16, &[u8])>
    ensures { spec.gap_value result ≡ spec.gap_in word.now }
{
    let behind = word.strip_prefix(b"@")?;
    let colon = find_byte(behind, b':')?;
    let gap = decimal(&behind[..colon], 0, 65535)?;
    Some((gap as u16, &behind[colon + 1..]))
}

/// An event at the end of an operation line.
fn event_at(alloc: Global, words: &mut Words<'_>) -> Result<EventAt, LineFault>
    ensures value { Reads (λ e. e) result words.new (spec.event_at words.old) }
    ensures within { IfOk result (λ e. IsEventWithin e.event) }
{
    let Some((gap, name)) = gap(words.next()?) else {
        return Err(LineFault::Bad);
    };
    let event = event_named(alloc, name, words)?;
    Ok(EventAt { gap, event })
}

/// The events to the end of an operation line: at most `MOST_EVENTS`, and their gaps never fall.
pub(crate) fn events(alloc: Global, words: &mut Words<'_>) -> Result<Events, LineFault>
    ensures value { Spells (λ e. e) result (spec.events_from MOST_EVENTS 0 words.old) }
    ensures within { IfOk result AreEventsWithin }
{
    let mut events = Events::new(alloc);
    'events: while !words.is_empty() {
        if events.len() == MOST_EVENTS {
            return Err(LineFault::Bad);
        }
        let EventAt { gap, event } = event_at(alloc, words)?;
        if gap < events.last_gap() {
            return Err(LineFault::Bad);
        }
        events.push(alloc, gap, event)?;
    }
    Ok(events)
}
