//! A text over a buffer with spare bytes.

ghost use Rattle.std.specs.Prelude.{◌≡◌, ◌+◌, ◌*◌, ◌≤◌, [], length, IfOk, OnOk};
ghost use Rattle.std.specs.Fmt.{decimal};
ghost use Rattle.hex.specs.Hex.{encode_lower};
ghost use Rattle.report_text.specs.Text as spec;
ghost use Rattle.report_text.specs.Text.{Added};
ghost use Rattle.report_text.specs.Words.{hex};

use hex::encode_to_slice;
use itoa::Buffer;
use std::alloc::Global;
use std::marker::Model;
use vt_types::Memory;

/// Spare bytes that are enough for the line of an access, a reply or a sector: for `LONGEST_BUFFER` bytes in
/// hexadecimal both in an access and in its answer, and the words around them.
pub const LINE_SPARE: u32 = 33_024;

/// Spare bytes that are enough for the line of an event.
pub const EVENT_SPARE: u32 = 8_192;

/// Spare bytes that are enough for a line of words and one number.
pub const SHORT_SPARE: u32 = 64;

/// Spare bytes that are enough for a number in decimal digits.
pub const NUMBER_SPARE: u32 = 20;

/// The spare bytes for a line are the definitions'. Does nothing.
pub fn limits_are_defined()
    ensures line { LINE_SPARE ≡ spec.LINE_SPARE }
    ensures event { EVENT_SPARE ≡ spec.EVENT_SPARE }
{}

/// A text over a buffer with spare bytes, so that adding to it never fails.
#[derive(Drop)]
pub struct Text {
    bytes: Vec<u8>,
}

impl Model for Text {
    ghost use Rattle.std.specs.Prelude.{◌-◌, length, vec_capacity};
    ghost use Rattle.report_text.specs.Text.{TextView};

    ghost Value = { TextView };

    ghost view = { λ t. record { bytes = t.bytes.items; spare = vec_capacity t.bytes - length t.bytes.items } };
}

impl Text {
    /// An empty text with spare bytes for a line.
    pub fn new(alloc: Global) -> Result<Text, Memory>
        ensures empty { IfOk result (λ text. text.bytes ≡ []) }
        ensures spare { IfOk result (λ text. LINE_SPARE ≤ text.spare) }
    {
        let bytes = Vec::with_capacity(alloc, LINE_SPARE as usize)?;
        Ok(Text { bytes })
    }

    /// Sees to it that there are `n` spare bytes. `Memory` leaves the spare bytes that there were.
    pub fn reserve(&mut self, alloc: Global, n: u32) -> Result<(), Memory>
        ensures bytes { self.new.bytes ≡ self.old.bytes }
        ensures spare { self.old.spare ≤ self.new.spare }
        ensures ok { OnOk result (n ≤ self.new.spare) }
    {
        let _ = alloc;
        self.bytes.reserve(n as usize)
    }

    /// The bytes of the text.
    pub fn bytes(&self) -> &[u8]
        ensures { result.now ≡ self.now.bytes }
    {
        self.bytes.as_slice()
    }

    /// Takes all bytes away. The spare bytes stay, and those that they took are spare again.
    pub fn clear(&mut self)
        ensures bytes { self.new.bytes ≡ [] }
        ensures spare { self.old.spare + length self.old.bytes ≤ self.new.spare }
    {
        self.bytes.clear();
    }

    /// Adds bytes as they are.
    pub(crate) fn add(&mut self, bytes: &[u8])
        requires { length bytes.now ≤ self.old.spare }
        ensures { Added self.old self.new bytes.now }
    {
        let _fits = self.bytes.extend_from_slice(bytes);
    }

    /// Adds a text as it is.
    pub fn text(&mut self, s: &str)
        requires { length s.now ≤ self.old.spare }
        ensures { Added self.old self.new s.now }
    {
        self.add(s.as_bytes());
    }

    /// Adds a number in decimal digits.
    pub fn number(&mut self, n: u64)
        requires { NUMBER_SPARE ≤ self.old.spare }
        ensures added { Added self.old self.new (decimal n) }
        ensures spare { self.old.spare ≤ self.new.spare + NUMBER_SPARE }
    {
        let mut buffer = Buffer::new();
        self.text(buffer.format(n));
    }

    /// Adds two hexadecimal digits for each byte.
    pub(crate) fn digits(&mut self, bytes: &[u8])
        requires { 2 * length bytes.now ≤ self.old.spare }
        ensures added { Added self.old self.new (encode_lower bytes.now) }
        ensures spare { self.old.spare ≤ self.new.spare + 2 * length bytes.now }
    {
        let start = self.bytes.len();
        let end = start + 2 * bytes.len();
        let _fits = self.bytes.resize(end, 0);
        let _exact = encode_to_slice(bytes, &mut self.bytes[start..]);
    }

    /// Adds bytes in hexadecimal: two lower-case digits for each, or `-` where there are none.
    pub fn hex(&mut self, bytes: &[u8])
        requires { 2 * length bytes.now + 1 ≤ self.old.spare }
        ensures added { Added self.old self.new (hex bytes.now) }
        ensures spare { self.old.spare ≤ self.new.spare + 2 * length bytes.now + 1 }
    {
        if bytes.is_empty() {
            self.text("-");
        } else {
            self.digits(bytes);
        }
    }
}
