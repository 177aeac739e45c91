//! The lines of a script.

ghost use Rattle.std.specs.Prelude.{IfOk};
ghost use Rattle.script_text.specs.Reading.{Spells, to_the_end};
ghost use Rattle.script_text.specs.Event as spec;
ghost use Rattle.script_text.specs.Line.{form_of, line_value, script_line};
ghost use Rattle.script_text.specs.Form.{form_value};
ghost use Rattle.vt_types.specs.Within.{IsEventWithin};
ghost use Rattle.script_text.specs.Within.{IsLineWithin};

use crate::LONGEST_LINE;
use crate::event::{event, events};
use crate::fault::LineFault;
use crate::operation::operation_named;
use crate::words::{Words, begins_with, is};
use std::alloc::Global;
use vt_types::{Event, Events, Op};

/// A line of a script: nothing to do, an operation with the events in its gaps, or an event between operations.
#[derive(Drop)]
pub enum Line {
    Blank,
    Op(Op, Events),
    Event(Event),
}

/// The words of a line by its first one: nothing to do, the words of an event, or others.
#[derive(Drop)]
pub(crate) enum Form<'a> {
    Blank,
    Event(Words<'a>),
    Other(&'a [u8], Words<'a>),
}

/// The form of a line in either grammar.
pub(crate) fn form_of(line: &[u8]) -> Result<Form<'_>, LineFault>
    ensures { Spells form_value result (form_of line.now) }
{
    if line.len() > LONGEST_LINE {
        return Err(LineFault::Bad);
    }
    let mut words = Words::new(line);
    if words.is_empty() {
        return Ok(Form::Blank);
    }
    let word = words.next()?;
    if begins_with(word, b'#') {
        Ok(Form::Blank)
    } else if is(word, b"ev") {
        Ok(Form::Event(words))
    } else {
        Ok(Form::Other(word, words))
    }
}

/// The line of a script that some bytes without a line feed spell.
///
/// `probe D`, `reset D`, `features D`, `getstatus D`, `accept D F`, `status D S`, `setq D Q N`, `post D Q T [ind] P1 ..
/// Pk`, `notify D Q`, `reap D Q`, `arm D Q`, `disarm D Q`, `readcfg D X`, `writecfg D X V`, `irq queues D` and `irq
/// config D` are operations: D is `blk`, `net` or `con`; F has 16 hexadecimal digits; S is `ack`, `driver`, `featok` or
/// `drvok`; Q, N and T are 0 to 65535; each P is `r:` and 1 to 4,096 bytes or `w:` and 1 to 4096, 1 to 8 of them, no
/// `r:` after a `w:`; X is one of the device's fields; V is 0 to 4294967295. An operation line may end with up to 128
/// events, each written `@G:` and the event without a space between; G is 0 to 65535 and never falls. `ev E` is an event
/// alone: `serve D Q`, `frame H` (1 to 2,048 bytes), `key H` (1 to 64 bytes), `resize N`, `link up`, `link down`,
/// `consize C R` (0 to 65535) and `diskfail K` (1 to 65535).
///
/// `Bad` comes exactly where the line is not in the grammar. The operation and the events keep these bounds.
pub fn parse_line(alloc: Global, line: &[u8]) -> Result<Line, LineFault>
    ensures value { Spells line_value result (script_line line.now) }
    ensures within { IfOk result (λ line. IsLineWithin (line_value line)) }
{
    match form_of(line)? {
        Form::Blank => Ok(Line::Blank),
        Form::Event(mut words) => Ok(Line::Event(event_alone(alloc, &mut words)?)),
        Form::Other(word, mut words) => {
            let op = operation_named(alloc, word, &mut words)?;
            Ok(Line::Op(op, events(alloc, &mut words)?))
        }
    }
}

/// An event that nothing follows.
pub(crate) fn event_alone(alloc: Global, words: &mut Words<'_>) -> Result<Event, LineFault>
    ensures value { Spells (λ e. e) result (to_the_end (spec.event words.old)) }
    ensures within { IfOk result IsEventWithin }
{
    let event = event(alloc, words)?;
    words.end()?;
    Ok(event)
}
