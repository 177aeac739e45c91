//! The words of a line: a space and a text.

ghost use Rattle.std.specs.Prelude.{◌≡◌, ◌==◌, ◌+◌, ◌*◌, ◌≤◌, ◌++◌, length};
ghost use Rattle.std.specs.Fmt.{decimal};
ghost use Rattle.std.specs.List.{prefix_len};
ghost use Rattle.report_text.specs.Access.{address, offset};
ghost use Rattle.report_text.specs.Text.{Added};
ghost use Rattle.report_text.specs.Words.{hex, hex_number, low_digits, numbers, word, zero_digit};

use crate::text::Text;
use hex::encode_to_slice;

/// Spare bytes that are enough for the hexadecimal digits of a number.
pub(crate) const DIGITS_SPARE: u32 = 16;

/// Spare bytes that are enough for a space and a number in any form.
pub(crate) const WORD_SPARE: u32 = 24;

/// Spare bytes that are enough for a name of at most 8 bytes and such a word.
pub(crate) const NAMED_SPARE: u32 = 32;

/// How many hexadecimal digits a number of 64 bits has.
const ALL_DIGITS: usize = 16;

/// All 16 hexadecimal digits of a number.
fn all_digits(n: u64) -> [u8; ALL_DIGITS]
    ensures { result ≡ low_digits 8 n }
{
    let mut digits = [0u8; ALL_DIGITS];
    let _exact = encode_to_slice(n.to_be_bytes(), &mut digits);
    digits
}

/// How many zeros stand before the other digits.
fn leading_zeros(digits: &[u8]) -> usize
    ensures count { result ≡ prefix_len (λ digit. digit == zero_digit) digits.now }
    ensures within { result ≤ length digits.now }
{
    digits.iter().take_while(|digit| **digit == b'0').count()
}

impl Text {
    /// Adds the low `width` bytes of a number in hexadecimal: at most 8.
    pub(crate) fn low_digits(&mut self, width: u8, n: u64)
        requires width { width ≤ 8 }
        requires spare { DIGITS_SPARE ≤ self.old.spare }
        ensures added { Added self.old self.new (low_digits width n) }
        ensures spare { self.old.spare ≤ self.new.spare + DIGITS_SPARE }
    {
        let bytes = n.to_be_bytes();
        self.digits(&bytes[8 - width as usize..]);
    }

    /// Adds a number in hexadecimal, in at least so many digits: from 1 to 16.
    fn hex_number(&mut self, least: usize, n: u64)
        requires some { 1 ≤ least }
        requires few { least ≤ ALL_DIGITS }
        requires spare { DIGITS_SPARE ≤ self.old.spare }
        ensures added { Added self.old self.new (hex_number least n) }
        ensures spare { self.old.spare ≤ self.new.spare + DIGITS_SPARE }
    {
        let digits = all_digits(n);
        let zeros = leading_zeros(&digits[..ALL_DIGITS - least]);
        self.add(&digits[zeros..]);
    }

    /// Adds a word.
    pub(crate) fn word(&mut self, s: &str)
        requires { length s.now + 1 ≤ self.old.spare }
        ensures { Added self.old self.new (word s.now) }
    {
        self.text(" ");
        self.text(s);
    }

    /// Adds a number in decimal digits as a word.
    pub(crate) fn number_word(&mut self, n: u64)
        requires { WORD_SPARE ≤ self.old.spare }
        ensures added { Added self.old self.new (word (decimal n)) }
        ensures spare { self.old.spare ≤ self.new.spare + WORD_SPARE }
    {
        self.text(" ");
        self.number(n);
    }

    /// Adds the low bytes of a number as a word.
    pub(crate) fn low_digits_word(&mut self, width: u8, n: u64)
        requires width { width ≤ 8 }
        requires spare { WORD_SPARE ≤ self.old.spare }
        ensures added { Added self.old self.new (word (low_digits width n)) }
        ensures spare { self.old.spare ≤ self.new.spare + WORD_SPARE }
    {
        self.text(" ");
        self.low_digits(width, n);
    }

    /// Adds an address, or the id of a subchannel, as a word.
    pub(crate) fn address_word(&mut self, n: u64)
        requires { WORD_SPARE ≤ self.old.spare }
        ensures added { Added self.old self.new (word (address n)) }
        ensures spare { self.old.spare ≤ self.new.spare + WORD_SPARE }
    {
        self.text(" ");
        self.hex_number(8, n);
    }

    /// Adds an offset in a configuration space as a word.
    pub(crate) fn offset_word(&mut self, n: u16)
        requires { WORD_SPARE ≤ self.old.spare }
        ensures added { Added self.old self.new (word (offset n)) }
        ensures spare { self.old.spare ≤ self.new.spare + WORD_SPARE }
    {
        self.text(" ");
        self.hex_number(2, n as u64);
    }

    /// Adds bytes in hexadecimal as a word.
    pub(crate) fn hex_word(&mut self, bytes: &[u8])
        requires { 2 * length bytes.now + 2 ≤ self.old.spare }
        ensures added { Added self.old self.new (word (hex bytes.now)) }
        ensures spare { self.old.spare ≤ self.new.spare + 2 * length bytes.now + 2 }
    {
        self.text(" ");
        self.hex(bytes);
    }

    /// Adds numbers, each as a word.
    pub(crate) fn number_words(&mut self, all: &[u16])
        requires { WORD_SPARE * length all.now ≤ self.old.spare }
        ensures added { Added self.old self.new (numbers all.now) }
        ensures spare { self.old.spare ≤ self.new.spare + WORD_SPARE * length all.now }
    {
        'numbers: for n in all {
            self.number_word(*n as u64);
        }
    }

    /// Adds a name of at most 8 bytes, and a number in decimal digits.
    pub(crate) fn named_number(&mut self, name: &str, n: u64)
        requires short { length name.now ≤ 8 }
        requires spare { NAMED_SPARE ≤ self.old.spare }
        ensures added { Added self.old self.new (name.now ++ word (decimal n)) }
        ensures spare { self.old.spare ≤ self.new.spare + NAMED_SPARE }
    {
        self.text(name);
        self.number_word(n);
    }

    /// Adds a name of at most 8 bytes, and the low bytes of a number: at most 8.
    pub(crate) fn named_digits(&mut self, name: &str, width: u8, n: u64)
        requires short { length name.now ≤ 8 }
        requires width { width ≤ 8 }
        requires spare { NAMED_SPARE ≤ self.old.spare }
        ensures added { Added self.old self.new (name.now ++ word (low_digits width n)) }
        ensures spare { self.old.spare ≤ self.new.spare + NAMED_SPARE }
    {
        self.text(name);
        self.low_digits_word(width, n);
    }

    /// Adds a name of at most 8 bytes, and an address or the id of a subchannel.
    pub(crate) fn named_address(&mut self, name: &str, n: u64)
        requires short { length name.now ≤ 8 }
        requires spare { NAMED_SPARE ≤ self.old.spare }
        ensures added { Added self.old self.new (name.now ++ word (address n)) }
        ensures spare { self.old.spare ≤ self.new.spare + NAMED_SPARE }
    {
        self.text(name);
        self.address_word(n);
    }

    /// Adds a name of at most 8 bytes, and bytes in hexadecimal.
    pub(crate) fn named_hex(&mut self, name: &str, bytes: &[u8])
        requires short { length name.now ≤ 8 }
        requires spare { NAMED_SPARE + 2 * length bytes.now ≤ self.old.spare }
        ensures added { Added self.old self.new (name.now ++ word (hex bytes.now)) }
        ensures spare { self.old.spare ≤ self.new.spare + NAMED_SPARE + 2 * length bytes.now }
    {
        self.text(name);
        self.hex_word(bytes);
    }
}
