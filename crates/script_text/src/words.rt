//! The words of a line that are left to read.

ghost use Rattle.std.specs.Prelude.{◌≡◌, ◌<◌, ◌≤◌, ◌==◌, not, length, IfSome};
ghost use Rattle.std.specs.List.{position, prefix_len};
ghost use Rattle.std.specs.Str.{bytes_eq};
ghost use Rattle.script_text.specs.Words.{begins_with};

use crate::fault::LineFault;
use std::marker::Model;

/// The words of a line that are left to read: what stands between spaces.
#[derive(Drop)]
pub(crate) struct Words<'a> {
    text: &'a [u8],
}

impl<'a> Model for Words<'a> {
    ghost use Rattle.std.specs.Prelude.{ℕ, List};
    ghost use Rattle.script_text.specs.Words.{words_of};

    ghost Value = { List (List ℕ) };

    ghost view = { λ w. words_of w.text.now };
}

/// How many spaces a text begins with.
fn spaces_len(text: &[u8]) -> usize
    ensures value { result ≡ prefix_len (λ b. b == 32) text.now }
    ensures within { result ≤ length text.now }
{
    text.iter().take_while(|b| **b == b' ').count()
}

/// How many bytes a text has before its first space.
fn word_len(text: &[u8]) -> usize
    ensures value { result ≡ prefix_len (λ b. not (b == 32)) text.now }
    ensures within { result ≤ length text.now }
{
    text.iter().take_while(|b| **b != b' ').count()
}

/// Where a byte stands first.
pub(crate) fn find_byte(bytes: &[u8], byte: u8) -> Option<usize>
    ensures value { result ≡ position (λ b. b == byte) bytes.now }
    ensures within { IfSome result (λ n. n < length bytes.now) }
{
    bytes.iter().position(|b| *b == byte)
}

/// Whether a word is a name.
pub(crate) fn is(word: &[u8], name: &[u8]) -> bool
    ensures { result ≡ bytes_eq word.now name.now }
{
    word == name
}

/// Whether a word begins with a byte.
pub(crate) fn begins_with(word: &[u8], byte: u8) -> bool
    ensures { result ≡ begins_with byte word.now }
{
    word.first() == Some(&byte)
}

impl<'a> Words<'a> {
    ghost use Rattle.std.specs.Prelude.{◌≡◌, ◌≢◌, [], ◌∷◌, false, Some, MatchOption, MatchBool};
    ghost use Rattle.script_text.specs.Words.{words_of, begins_with, Without};
    ghost use Rattle.script_text.specs.Reading.{Reads, Spells, any_word, optional_word, to_the_end};

    /// The words of a line.
    pub(crate) fn new(line: &'a [u8]) -> Words<'a>
        ensures { result ≡ words_of line.now }
    {
        Words { text: line }
    }

    /// The next word, and the words behind it.
    fn split_first(&self) -> Option<(&'a [u8], Words<'a>)>
        ensures { MatchOption result (self.now ≡ []) (λ w. self.now ≡ w.0.now ∷ w.1) }
    {
        let begun = &self.text[spaces_len(self.text)..];
        if begun.is_empty() {
            return None;
        }
        let (word, rest) = begun.split_at(word_len(begun));
        Some((word, Words { text: rest }))
    }

    /// Whether no word is left.
    pub(crate) fn is_empty(&self) -> bool
        ensures { MatchBool result (self.now ≡ []) (self.now ≢ []) }
    {
        self.split_first().is_none()
    }

    /// Takes the next word, where there is one that does not begin with a byte.
    pub(crate) fn next_unless(&mut self, byte: u8) -> Option<&'a [u8]>
        ensures { MatchOption result (Without byte self.old self.new) (λ word. (self.old ≡ word.now ∷ self.new) × (begins_with byte word.now ≡ false)) }
    {
        match self.split_first() {
            Some((word, rest)) if !begins_with(word, byte) => {
                *self = rest;
                Some(word)
            }
            _ => None,
        }
    }

    /// Takes the next word.
    pub(crate) fn next(&mut self) -> Result<&'a [u8], LineFault>
        ensures { Reads (λ word. word.now) result self.new (any_word self.old) }
    {
        match self.split_first() {
            Some((word, rest)) => {
                *self = rest;
                Ok(word)
            }
            None => Err(LineFault::Bad),
        }
    }

    /// Takes the next word where it is a name, and says whether it is.
    pub(crate) fn next_is(&mut self, name: &[u8]) -> bool
        ensures { optional_word name.now self.old ≡ Some (result, self.new) }
    {
        match self.split_first() {
            Some((word, rest)) if is(word, name) => {
                *self = rest;
                true
            }
            _ => false,
        }
    }

    /// Says that no word is left.
    pub(crate) fn end(&self) -> Result<(), LineFault>
        ensures { Spells (λ u. u) result (to_the_end (Some (tt, self.now))) }
    {
        match self.split_first() {
            None => Ok(()),
            Some(_) => Err(LineFault::Bad),
        }
    }
}
