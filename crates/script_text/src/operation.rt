//! The operations of a script.

ghost use Rattle.std.specs.Prelude.{IfOk};
ghost use Rattle.vt_types.specs.Operation.{operation};
ghost use Rattle.script_text.specs.Reading.{Reads};
ghost use Rattle.script_text.specs.Operation as spec;
ghost use Rattle.vt_types.specs.Within.{IsOperationWithin};

use crate::fault::LineFault;
use crate::post::buffer;
use crate::words::{Words, is};
use std::alloc::Global;
use vt_types::Op;

/// What `irq` asks for.
fn irq(words: &mut Words<'_>) -> Result<Op, LineFault>
    ensures value { Reads operation result words.new (spec.irq words.old) }
    ensures within { IfOk result (λ op. IsOperationWithin (operation op)) }
{
    let word = words.next()?;
    if is(word, b"queues") {
        Ok(Op::IrqQueues(words.device()?))
    } else if is(word, b"config") {
        Ok(Op::IrqConfig(words.device()?))
    } else {
        Err(LineFault::Bad)
    }
}

/// A field to read.
fn readcfg(words: &mut Words<'_>) -> Result<Op, LineFault>
    ensures value { Reads operation result words.new (spec.readcfg words.old) }
    ensures within { IfOk result (λ op. IsOperationWithin (operation op)) }
{
    let dev = words.device()?;
    Ok(Op::ReadCfg(dev, words.read_field(dev)?))
}

/// A field to write, and its value.
fn writecfg(words: &mut Words<'_>) -> Result<Op, LineFault>
    ensures value { Reads operation result words.new (spec.writecfg words.old) }
    ensures within { IfOk result (λ op. IsOperationWithin (operation op)) }
{
    let dev = words.device()?;
    let field = words.written_field(dev)?;
    let value = words.decimal(0, u32::MAX as u64)? as u32;
    Ok(Op::WriteCfg(dev, field, value))
}

/// The operation whose first word is this.
#[tactic(auto, unfolding(crate::specs::Operation::operation_named))]
pub(crate) fn operation_named(
    alloc: Global,
    word: &[u8],
    words: &mut Words<'_>,
) -> Result<Op, LineFault>
    ensures value { Reads operation result words.new (spec.operation_named word.now words.old) }
    ensures within { IfOk result (λ op. IsOperationWithin (operation op)) }
{
    if is(word, b"probe") {
        Ok(Op::Probe(words.device()?))
    } else if is(word, b"reset") {
        Ok(Op::Reset(words.device()?))
    } else if is(word, b"features") {
        Ok(Op::Features(words.device()?))
    } else if is(word, b"getstatus") {
        Ok(Op::GetStatus(words.device()?))
    } else if is(word, b"accept") {
        Ok(Op::Accept(words.device()?, words.features()?))
    } else if is(word, b"status") {
        Ok(Op::Status(words.device()?, words.step()?))
    } else if is(word, b"setq") {
        Ok(Op::SetQ(words.device()?, words.number16()?, words.number16()?))
    } else if is(word, b"post") {
        Ok(Op::Post(words.device()?, words.number16()?, buffer(alloc, words)?))
    } else if is(word, b"notify") {
        Ok(Op::Notify(words.device()?, words.number16()?))
    } else if is(word, b"reap") {
        Ok(Op::Reap(words.device()?, words.number16()?))
    } else if is(word, b"arm") {
        Ok(Op::Arm(words.device()?, words.number16()?))
    } else if is(word, b"disarm") {
        Ok(Op::Disarm(words.device()?, words.number16()?))
    } else if is(word, b"readcfg") {
        readcfg(words)
    } else if is(word, b"writecfg") {
        writecfg(words)
    } else if is(word, b"irq") {
        irq(words)
    } else {
        Err(LineFault::Bad)
    }
}
