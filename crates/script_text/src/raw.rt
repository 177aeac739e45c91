//! The lines of a raw script.

ghost use Rattle.std.specs.Prelude.{◌≤◌, IfOk};
ghost use Rattle.vt_types.specs.Access.{access_value, IsWithinLimits};
ghost use Rattle.script_text.specs.Reading.{Reads, Spells, named};
ghost use Rattle.script_text.specs.Raw as spec;
ghost use Rattle.script_text.specs.Line.{raw_access, raw_line_value, raw_line};
ghost use Rattle.script_text.specs.Within.{IsRawLineWithin};

use crate::fault::LineFault;
use crate::line::{Form, event_alone, form_of};
use crate::words::{Words, is};
use std::alloc::Global;
use vt_types::{Access, Bytes, Event, LONGEST_BUFFER};

/// An access of a raw script, which owns its bytes.
#[derive(Drop)]
pub enum RawAccess {
    /// An access that has no bytes of its own.
    Plain(Access<'static>),
    /// Bytes to put into guest memory.
    Put { addr: u64, bytes: Bytes },
}

impl RawAccess {
    ghost use Rattle.std.specs.Prelude.{◌≡◌};
    ghost use Rattle.vt_types.specs.Access.{access_value};
    ghost use Rattle.script_text.specs.Line.{raw_access};

    /// The access.
    pub fn access(&self) -> Access<'_>
        ensures { access_value result ≡ raw_access self.now }
    {
        match self {
            RawAccess::Plain(access) => *access,
            RawAccess::Put { addr, bytes } => Access::Put {
                addr: *addr,
                bytes: bytes.as_slice(),
            },
        }
    }
}

/// A line of a raw script: nothing to do, an access, or an event between accesses.
#[derive(Drop)]
pub enum RawLine {
    Blank,
    Access(RawAccess),
    Event(Event),
}

/// A hexadecimal number of at most 16 digits: an address, or a number of 64 bits.
fn digits16(words: &mut Words<'_>) -> Result<u64, LineFault>
    ensures { Reads (λ n. n) result words.new (spec.digits16 words.old) }
{
    words.hexadecimal(16, u64::MAX)
}

/// A hexadecimal number of at most 8 digits: a subchannel's id, or a value to store.
fn digits8(words: &mut Words<'_>) -> Result<u32, LineFault>
    ensures { Reads (λ n. n) result words.new (spec.digits8 words.old) }
{
    Ok(words.hexadecimal(8, u32::MAX as u64)? as u32)
}

/// An offset of at most 3 hexadecimal digits.
fn offset(words: &mut Words<'_>) -> Result<u16, LineFault>
    ensures value { Reads (λ n. n) result words.new (spec.offset words.old) }
    ensures bound { IfOk result (λ n. n ≤ 0xfff) }
{
    Ok(words.hexadecimal(3, 0xfff)? as u16)
}

/// A function's number.
fn func(words: &mut Words<'_>) -> Result<u8, LineFault>
    ensures { Reads (λ n. n) result words.new (spec.func words.old) }
{
    Ok(words.decimal(0, 255)? as u8)
}

/// A load of a register.
fn load(words: &mut Words<'_>) -> Result<Access<'static>, LineFault>
    ensures value { Reads access_value result words.new (spec.load words.old) }
    ensures limits { IfOk result (λ a. IsWithinLimits (access_value a)) }
{
    let addr = digits16(words)?;
    let width = words.width()?;
    Ok(Access::Load { addr, width })
}

/// A store to a register.
fn store(words: &mut Words<'_>) -> Result<Access<'static>, LineFault>
    ensures value { Reads access_value result words.new (spec.store words.old) }
    ensures limits { IfOk result (λ a. IsWithinLimits (access_value a)) }
{
    let addr = digits16(words)?;
    let width = words.width()?;
    let value = digits8(words)?;
    Ok(Access::Store { addr, width, value })
}

/// A load from a function's configuration space.
fn cfgload(words: &mut Words<'_>) -> Result<Access<'static>, LineFault>
    ensures value { Reads access_value result words.new (spec.cfgload words.old) }
    ensures limits { IfOk result (λ a. IsWithinLimits (access_value a)) }
{
    let func = func(words)?;
    let off = offset(words)?;
    let width = words.width()?;
    Ok(Access::CfgLoad { func, off, width })
}

/// A store to a function's configuration space.
fn cfgstore(words: &mut Words<'_>) -> Result<Access<'static>, LineFault>
    ensures value { Reads access_value result words.new (spec.cfgstore words.old) }
    ensures limits { IfOk result (λ a. IsWithinLimits (access_value a)) }
{
    let func = func(words)?;
    let off = offset(words)?;
    let width = words.width()?;
    let value = digits8(words)?;
    Ok(Access::CfgStore {
        func,
        off,
        width,
        value,
    })
}

/// Bytes to put into guest memory.
fn put(alloc: Global, words: &mut Words<'_>) -> Result<RawAccess, LineFault>
    ensures value { Reads raw_access result words.new (spec.put words.old) }
    ensures limits { IfOk result (λ a. IsWithinLimits (raw_access a)) }
{
    let addr = digits16(words)?;
    let bytes = words.hex_bytes(alloc, LONGEST_BUFFER)?;
    Ok(RawAccess::Put { addr, bytes })
}

/// Bytes to get from guest memory.
fn get(words: &mut Words<'_>) -> Result<Access<'static>, LineFault>
    ensures value { Reads access_value result words.new (spec.get words.old) }
    ensures limits { IfOk result (λ a. IsWithinLimits (access_value a)) }
{
    let addr = digits16(words)?;
    let count = words.decimal(1, LONGEST_BUFFER as u64)? as u16;
    Ok(Access::Get { addr, count })
}

/// Guest memory to fill with zeros.
fn zero(words: &mut Words<'_>) -> Result<Access<'static>, LineFault>
    ensures value { Reads access_value result words.new (spec.zero_range words.old) }
    ensures limits { IfOk result (λ a. IsWithinLimits (access_value a)) }
{
    let addr = digits16(words)?;
    let count = words.decimal(1, 65535)? as u16;
    Ok(Access::Zero { addr, count })
}

/// A number to swap with one in guest memory.
fn swap(words: &mut Words<'_>) -> Result<Access<'static>, LineFault>
    ensures value { Reads access_value result words.new (spec.swap words.old) }
    ensures limits { IfOk result (λ a. IsWithinLimits (access_value a)) }
{
    let addr = digits16(words)?;
    let value = digits16(words)?;
    Ok(Access::Swap { addr, value })
}

/// A subchannel, and a block in guest memory.
fn block(words: &mut Words<'_>) -> Result<(u32, u64), LineFault>
    ensures { Reads (λ at. (at.0, at.1)) result words.new (spec.block words.old) }
{
    let id = digits8(words)?;
    let addr = digits16(words)?;
    Ok((id, addr))
}

/// A call of the hypervisor: a function, a subchannel, a value and a cookie.
fn diag(words: &mut Words<'_>) -> Result<Access<'static>, LineFault>
    ensures value { Reads access_value result words.new (spec.diag words.old) }
    ensures limits { IfOk result (λ a. IsWithinLimits (access_value a)) }
{
    let func = digits16(words)?;
    let id = digits8(words)?;
    let value = digits16(words)?;
    let cookie = digits16(words)?;
    Ok(Access::Diag {
        func,
        id,
        value,
        cookie,
    })
}

/// The access on a subchannel whose first word is this.
fn channel_named(word: &[u8], words: &mut Words<'_>) -> Result<Access<'static>, LineFault>
    ensures value { Reads access_value result words.new (named spec.channel_names word.now words.old) }
    ensures limits { IfOk result (λ a. IsWithinLimits (access_value a)) }
{
    if is(word, b"ssch") {
        let (id, addr) = block(words)?;
        Ok(Access::Ssch { id, addr })
    } else if is(word, b"tsch") {
        let (id, addr) = block(words)?;
        Ok(Access::Tsch { id, addr })
    } else if is(word, b"stsch") {
        let (id, addr) = block(words)?;
        Ok(Access::Stsch { id, addr })
    } else if is(word, b"msch") {
        let (id, addr) = block(words)?;
        Ok(Access::Msch { id, addr })
    } else if is(word, b"csch") {
        let id = digits8(words)?;
        Ok(Access::Csch { id })
    } else if is(word, b"turn") {
        let id = digits8(words)?;
        Ok(Access::Turn { id })
    } else if is(word, b"diag") {
        diag(words)
    } else {
        Err(LineFault::Bad)
    }
}

/// The access without bytes of its own whose first word is this.
fn plain_named(word: &[u8], words: &mut Words<'_>) -> Result<Access<'static>, LineFault>
    ensures value { Reads access_value result words.new (named spec.plain_names word.now words.old) }
    ensures limits { IfOk result (λ a. IsWithinLimits (access_value a)) }
{
    if is(word, b"load") {
        load(words)
    } else if is(word, b"store") {
        store(words)
    } else if is(word, b"cfgload") {
        cfgload(words)
    } else if is(word, b"cfgstore") {
        cfgstore(words)
    } else if is(word, b"get") {
        get(words)
    } else if is(word, b"zero") {
        zero(words)
    } else if is(word, b"swap") {
        swap(words)
    } else {
        channel_named(word, words)
    }
}

/// The access whose first word is this.
#[tactic(auto, unfolding(crate::specs::Raw::access_named))]
fn access_named(alloc: Global, word: &[u8], words: &mut Words<'_>) -> Result<RawAccess, LineFault>
    ensures value { Reads raw_access result words.new (spec.access_named word.now words.old) }
    ensures limits { IfOk result (λ a. IsWithinLimits (raw_access a)) }
{
    if is(word, b"put") {
        put(alloc, words)
    } else {
        Ok(RawAccess::Plain(plain_named(word, words)?))
    }
}

/// The line of a raw script that some bytes without a line feed spell.
///
/// `load A w`, `store A w v`, `cfgload f o w`, `cfgstore f o w v`, `put A H`, `get A n`, `zero A n`, `swap A x`, `ssch i
/// A`, `tsch i A`, `stsch i A`, `msch i A`, `csch i`, `turn i` and `diag x i x x` are accesses: A and x have 1 to 16
/// hexadecimal digits, i and v 1 to 8, o 1 to 3; w is 1, 2 or 4, f 0 to 255; H is 1 to 8,192 bytes, n of a get 1 to 8192
/// and of a zero 1 to 65535. `ev E` is an event, as in a script.
///
/// `Bad` comes exactly where the line is not in the grammar. Every access is within the limits of a port, and
/// every event within these bounds.
pub fn parse_raw(alloc: Global, line: &[u8]) -> Result<RawLine, LineFault>
    ensures value { Spells raw_line_value result (raw_line line.now) }
    ensures within { IfOk result (λ line. IsRawLineWithin (raw_line_value line)) }
{
    match form_of(line)? {
        Form::Blank => Ok(RawLine::Blank),
        Form::Event(mut words) => Ok(RawLine::Event(event_alone(alloc, &mut words)?)),
        Form::Other(word, mut words) => {
            let access = access_named(alloc, word, &mut words)?;
            words.end()?;
            Ok(RawLine::Access(access))
        }
    }
}
