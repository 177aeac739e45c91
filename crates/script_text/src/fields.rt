//! What single words spell: numbers, bytes, and names of devices and fields.

ghost use Rattle.std.specs.Prelude.{◌≡◌, ◌≤◌, length, map, IsTrue, IfOk, IfSome};
ghost use Rattle.vt_types.specs.Access.{is_width};
ghost use Rattle.vt_types.specs.Limits.{LONGEST_BUFFER};
ghost use Rattle.script_text.specs.Reading as spec;
ghost use Rattle.script_text.specs.Reading.{Spells};
ghost use Rattle.script_text.specs.Fields as field;

use crate::MOST_DECIMAL_DIGITS;
use crate::fault::LineFault;
use crate::words::{Words, is};
use hex::FromHexError;
use std::alloc::Global;
use vt_types::{Bytes, Dev, Field, Step};

/// How many digits features have.
const FEATURE_DIGITS: usize = 16;

/// A number with one more digit; None where the byte is no digit of the base, or the number has more than 64 bits.
fn with_digit(n: u64, base: u32, byte: u8) -> Option<u64>
    requires low { 2 ≤ base }
    requires high { base ≤ 16 }
    ensures { result ≡ field.with_digit base n byte }
{
    let digit = (byte as char).to_digit(base)?;
    n.checked_mul(base as u64)?.checked_add(digit as u64)
}

/// A number from `least` to `most`, in 1 to `digits` digits of a base.
fn number(word: &[u8], base: u32, digits: usize, least: u64, most: u64) -> Option<u64>
    requires low { 2 ≤ base }
    requires high { base ≤ 16 }
    ensures value { result ≡ field.number_in base digits least most word.now }
    ensures bound { IfSome result (λ n. (least ≤ n) × (n ≤ most)) }
{
    if word.is_empty() || word.len() > digits {
        return None;
    }
    let mut n = 0;
    'digits: for byte in word {
        n = with_digit(n, base, *byte)?;
    }
    if least <= n && n <= most {
        Some(n)
    } else {
        None
    }
}

/// A decimal number from `least` to `most`.
pub(crate) fn decimal(word: &[u8], least: u64, most: u64) -> Option<u64>
    ensures value { result ≡ field.decimal_in least most word.now }
    ensures bound { IfSome result (λ n. (least ≤ n) × (n ≤ most)) }
{
    number(word, 10, MOST_DECIMAL_DIGITS, least, most)
}

/// Features: exactly 16 hexadecimal digits.
fn features(word: &[u8]) -> Option<u64>
    ensures { result ≡ field.features_in word.now }
{
    if word.len() == FEATURE_DIGITS {
        number(word, 16, FEATURE_DIGITS, 0, u64::MAX)
    } else {
        None
    }
}

/// The width of an access: 1, 2 or 4 bytes.
fn width(word: &[u8]) -> Option<u8>
    ensures value { result ≡ field.width_in word.now }
    ensures width { IfSome result (λ n. IsTrue (is_width n)) }
{
    match decimal(word, 0, 255) {
        Some(1) => Some(1),
        Some(2) => Some(2),
        Some(4) => Some(4),
        _ => None,
    }
}

/// From 1 to `most` bytes in hexadecimal.
pub(crate) fn hex_bytes(alloc: Global, word: &[u8], most: usize) -> Result<Bytes, LineFault>
    requires { most ≤ LONGEST_BUFFER }
    ensures value { Spells (λ bytes. bytes) result (field.bytes_in most word.now) }
    ensures few { IfOk result (λ bytes. (1 ≤ length bytes) × (length bytes ≤ most)) }
{
    if word.len() > 2 * most {
        return Err(LineFault::Bad);
    }
    match hex::decode(alloc, word) {
        Ok(bytes) if bytes.is_empty() => Err(LineFault::Bad),
        Ok(bytes) => Ok(Bytes::from_vec(bytes)),
        Err(FromHexError::OutOfMemory) => Err(LineFault::Memory),
        Err(_) => Err(LineFault::Bad),
    }
}

/// What a word names in a list of names.
fn one_of<T: Copy>(names: &[(&[u8], T)], word: &[u8]) -> Option<T>
    ensures { result ≡ spec.one_of (map (λ row. (row.0.now, row.1)) names.now) word.now }
{
    'names: for (name, value) in names {
        if is(word, name) {
            return Some(*value);
        }
    }
    None
}

/// A device.
fn device(word: &[u8]) -> Option<Dev>
    ensures { result ≡ field.device_in word.now }
{
    one_of(
        &[(b"blk", Dev::Blk), (b"net", Dev::Net), (b"con", Dev::Con)],
        word,
    )
}

/// A step of the bring-up.
fn step(word: &[u8]) -> Option<Step>
    ensures { result ≡ field.step_in word.now }
{
    one_of(
        &[
            (b"ack", Step::Ack),
            (b"driver", Step::Driver),
            (b"featok", Step::FeatOk),
            (b"drvok", Step::DrvOk),
        ],
        word,
    )
}

/// A field of a device's configuration that can be read.
fn read_field(dev: Dev, word: &[u8]) -> Option<Field>
    ensures { result ≡ field.read_field_in dev word.now }
{
    match dev {
        Dev::Blk => one_of(
            &[
                (b"capacity", Field::Capacity),
                (b"seg_max", Field::SegMax),
                (b"blk_size", Field::BlkSize),
                (b"writeback", Field::Writeback),
            ],
            word,
        ),
        Dev::Net => one_of(&[(b"mac", Field::Mac), (b"status", Field::NetStatus)], word),
        Dev::Con => one_of(
            &[
                (b"cols", Field::Cols),
                (b"rows", Field::Rows),
                (b"ports", Field::Ports),
            ],
            word,
        ),
    }
}

/// A field of a device's configuration that can be written.
fn written_field(dev: Dev, word: &[u8]) -> Option<Field>
    ensures { result ≡ field.written_field_in dev word.now }
{
    match dev {
        Dev::Blk => one_of(&[(b"writeback", Field::Writeback)], word),
        Dev::Net => None,
        Dev::Con => one_of(&[(b"emerg", Field::Emerg)], word),
    }
}

/// Whether a link is up.
fn link(word: &[u8]) -> Option<bool>
    ensures { result ≡ field.link_in word.now }
{
    one_of(&[(b"up", true), (b"down", false)], word)
}

/// A value that a word spells, or that it spells none.
fn found<T>(value: Option<T>) -> Result<T, LineFault>
    ensures { Spells (λ x. x) result value }
{
    match value {
        Some(value) => Ok(value),
        None => Err(LineFault::Bad),
    }
}

impl<'a> Words<'a> {
    ghost use Rattle.std.specs.Prelude.{◌≡◌, ◌≤◌, ◌-◌, ◌^◌, length, IsTrue, IfOk};
    ghost use Rattle.vt_types.specs.Access.{is_width};
    ghost use Rattle.vt_types.specs.Limits.{LONGEST_BUFFER};
    ghost use Rattle.script_text.specs.Reading.{Reads, one_word};
    ghost use Rattle.script_text.specs.Fields as field;

    /// A device.
    pub(crate) fn device(&mut self) -> Result<Dev, LineFault>
        ensures { Reads (λ dev. dev) result self.new (field.device self.old) }
    {
        found(device(self.next()?))
    }

    /// A step of the bring-up.
    pub(crate) fn step(&mut self) -> Result<Step, LineFault>
        ensures { Reads (λ step. step) result self.new (one_word field.step_in self.old) }
    {
        found(step(self.next()?))
    }

    /// A field of a device's configuration that can be read.
    pub(crate) fn read_field(&mut self, dev: Dev) -> Result<Field, LineFault>
        ensures { Reads (λ x. x) result self.new (one_word (field.read_field_in dev) self.old) }
    {
        found(read_field(dev, self.next()?))
    }

    /// A field of a device's configuration that can be written.
    pub(crate) fn written_field(&mut self, dev: Dev) -> Result<Field, LineFault>
        ensures { Reads (λ x. x) result self.new (one_word (field.written_field_in dev) self.old) }
    {
        found(written_field(dev, self.next()?))
    }

    /// Whether a link is up.
    pub(crate) fn link(&mut self) -> Result<bool, LineFault>
        ensures { Reads (λ up. up) result self.new (one_word field.link_in self.old) }
    {
        found(link(self.next()?))
    }

    /// A decimal number from `least` to `most`.
    pub(crate) fn decimal(&mut self, least: u64, most: u64) -> Result<u64, LineFault>
        ensures value { Reads (λ n. n) result self.new (field.decimal least most self.old) }
        ensures bound { IfOk result (λ n. (least ≤ n) × (n ≤ most)) }
    {
        match decimal(self.next()?, least, most) {
            Some(n) => Ok(n),
            None => Err(LineFault::Bad),
        }
    }

    /// A decimal number of 16 bits.
    pub(crate) fn number16(&mut self) -> Result<u16, LineFault>
        ensures { Reads (λ n. n) result self.new (field.number16 self.old) }
    {
        Ok(self.decimal(0, 65535)? as u16)
    }

    /// Features.
    pub(crate) fn features(&mut self) -> Result<u64, LineFault>
        ensures { Reads (λ n. n) result self.new (one_word field.features_in self.old) }
    {
        found(features(self.next()?))
    }

    /// The width of an access, in bytes.
    pub(crate) fn width(&mut self) -> Result<u8, LineFault>
        ensures value { Reads (λ n. n) result self.new (one_word field.width_in self.old) }
        ensures width { IfOk result (λ n. IsTrue (is_width n)) }
    {
        match width(self.next()?) {
            Some(n) => Ok(n),
            None => Err(LineFault::Bad),
        }
    }

    /// A hexadecimal number of at most so many digits, of which `most` is the greatest.
    pub(crate) fn hexadecimal(&mut self, digits: usize, most: u64) -> Result<u64, LineFault>
        requires { most ≡ 16 ^ digits - 1 }
        ensures value { Reads (λ n. n) result self.new (field.hexadecimal digits self.old) }
        ensures bound { IfOk result (λ n. n ≤ most) }
    {
        match number(self.next()?, 16, digits, 0, most) {
            Some(n) => Ok(n),
            None => Err(LineFault::Bad),
        }
    }

    /// From 1 to `most` bytes in hexadecimal.
    pub(crate) fn hex_bytes(&mut self, alloc: Global, most: usize) -> Result<Bytes, LineFault>
        requires { most ≤ LONGEST_BUFFER }
        ensures value { Reads (λ bytes. bytes) result self.new (field.hex_bytes most self.old) }
        ensures few { IfOk result (λ bytes. (1 ≤ length bytes) × (length bytes ≤ most)) }
    {
        let word = self.next()?;
        hex_bytes(alloc, word, most)
    }
}
