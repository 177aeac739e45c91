//! The lines of a source.

use crate::LONGEST_LINE;
use crate::words::find_byte;
use std::alloc::Global;
use std::marker::Model;
use vt_outside::{Failed, Source};
use vt_types::{LONGEST_SCRIPT, Memory};

/// The most bytes that one read takes from a source.
const READ_LEN: usize = 4096;

/// Why no line was answered: the source failed; the script has too many bytes; the next line is too long; or there was
/// no memory for the bytes of a line.
#[derive(Clone, Copy, Debug, PartialEq, Eq)]
pub enum NextFault {
    Read,
    TooLong,
    Long,
    Memory,
}

/// Reads a source line by line. It holds the bytes of a line and at most one read more.
#[derive(Drop)]
pub struct LineReader {
    bytes: Vec<u8>,
    line_start: usize,
    line_len: usize,
    start: usize,
    answered: u32,
    number: u32,
    ended: bool,
}

impl Model for LineReader {
    ghost use Rattle.std.specs.Prelude.{◌≤◌, ◌+◌, drop, take, length};
    ghost use Rattle.vt_types.specs.Limits.{LONGEST_SCRIPT};
    ghost use Rattle.script_text.specs.Lines.{ReaderView};

    ghost Value = { ReaderView };

    ghost view = { λ r. record { held = drop r.start r.bytes.items; answered = r.answered; number = r.number; ended = r.ended; line = take r.line_len (drop r.line_start r.bytes.items) } };

    ghost invariant = { λ r. (r.start ≤ length r.bytes.items) × (r.line_start + r.line_len ≤ length r.bytes.items) × (r.answered ≤ LONGEST_SCRIPT) × (r.number ≤ r.answered) × (r.answered + length r.bytes.items ≤ r.start + (LONGEST_SCRIPT + 1)) };
}

impl LineReader {
    ghost use Rattle.std.specs.Prelude.{◌≡◌, ◌+◌, ◌-◌, ◌<◌, ◌≤◌, ◌==◌, [], false, true, length, take, is_some, IfOk};
    ghost use Rattle.std.specs.List.{position};
    ghost use Rattle.script_text.specs.Lines.{bytes_taken, Answers, Takes, KnowsEnd, FaultsOf, Numbers};
    ghost use Rattle.script_text.specs.Reader.{without_line, AnswersLine, AnswersRest, ReadsMore};
    ghost use Rattle.vt_types.specs.Limits as limit;

    /// A reader that has answered no line.
    pub fn new(alloc: Global) -> Result<LineReader, Memory>
        ensures { IfOk result (λ r. r ≡ record { held = []; answered = 0; number = 0; ended = false; line = [] }) }
    {
        Ok(LineReader {
            bytes: Vec::with_capacity(alloc, READ_LEN)?,
            line_start: 0,
            line_len: 0,
            start: 0,
            answered: 0,
            number: 0,
            ended: false,
        })
    }

    /// The line that the last call of `next_line` answered, without its line feed; no bytes where it answered none.
    pub fn line(&self) -> &[u8]
        ensures { result.now ≡ self.now.line }
    {
        &self.bytes[self.line_start..self.line_start + self.line_len]
    }

    /// The next line of a script, which `line` lends then: its number, counted from 1, or None where the input has ended
    /// and no line is left. A line ends at its line feed, or at the end of the input.
    ///
    /// `TooLong` comes exactly where the next line does not end within the first `LONGEST_SCRIPT` bytes of the script, its line feed
    /// among them, and more bytes came; `Long` where it ends there and has more than `LONGEST_LINE` bytes. `Read` comes
    /// where the source failed. After None or a fault the input stays: the bytes held, followed by those that the source
    /// has left, are as before, and a later call goes on from there. A source that has ended is read no more, and none is
    /// read where the bytes held have a line feed. All calls together take at most the first `LONGEST_SCRIPT` + 1 bytes of a source.
    pub fn next_line<S: Source>(
        &mut self,
        alloc: Global,
        source: &mut S,
    ) -> Result<Option<u32>, NextFault>
        ensures told { Answers (S.view source.old).left (S.view source.new).left result self.old self.new }
        ensures numbers { Numbers result self.old self.new }
        ensures faults { FaultsOf result (S.view source.old).faults (S.view source.new).faults }
        ensures ended { self.old.ended ≡ true → source.new ≡ source.old }
        ensures held { is_some (position (λ b. b == 10) self.old.held) ≡ true → source.new ≡ source.old }
        ensures takes { Takes (S.view source.old).left (S.view source.new).left self.old self.new }
        ensures within { bytes_taken self.new ≤ limit.LONGEST_SCRIPT + 1 }
        ensures ends { KnowsEnd (S.view source.old).left self.old → KnowsEnd (S.view source.new).left self.new }
    {
        self.forget_line();
        let mut searched = 0;
        'reads: loop {
            if let Some(len) = self.find_feed(searched) {
                return self.answer(len, len + 1);
            }
            searched = self.held().len();
            if searched > self.room() {
                return Err(NextFault::TooLong);
            }
            if self.ended {
                return self.answer_rest();
            }
            self.read(alloc, source)?;
        }
    }

    /// The bytes held behind the lines that were answered.
    fn held(&self) -> &[u8]
        ensures { result.now ≡ self.now.held }
    {
        &self.bytes[self.start..]
    }

    /// How many bytes of the script may still come.
    fn room(&self) -> usize
        ensures { result ≡ limit.LONGEST_SCRIPT - self.now.answered }
    {
        (LONGEST_SCRIPT - self.answered) as usize
    }

    /// Where the bytes held have their first line feed: the first `searched` of them have none.
    fn find_feed(&self, searched: usize) -> Option<usize>
        requires within { searched ≤ length self.now.held }
        requires none { position (λ b. b == 10) (take searched self.now.held) ≡ None }
        ensures { result ≡ position (λ b. b == 10) self.now.held }
    {
        match find_byte(&self.held()[searched..], b'\n') {
            Some(n) => Some(searched + n),
            None => None,
        }
    }

    /// Lends no line any more.
    fn forget_line(&mut self)
        ensures { self.new ≡ without_line self.old }
    {
        self.line_len = 0;
    }

    /// Answers the first `len` bytes held as a line, and passes over the first `taken` bytes.
    fn answer(&mut self, len: usize, taken: usize) -> Result<Option<u32>, NextFault>
        requires some { 0 < taken }
        requires line { len ≤ taken }
        requires within { taken ≤ length self.old.held }
        ensures { AnswersLine len taken result self.old self.new }
    {
        if taken > self.room() {
            return Err(NextFault::TooLong);
        }
        if len > LONGEST_LINE {
            return Err(NextFault::Long);
        }
        self.line_start = self.start;
        self.line_len = len;
        self.start += taken;
        self.answered += taken as u32;
        self.number += 1;
        Ok(Some(self.number))
    }

    /// Answers all the bytes held, of a source that has ended, as the last line.
    fn answer_rest(&mut self) -> Result<Option<u32>, NextFault>
        ensures { AnswersRest result self.old self.new }
    {
        match self.held().len() {
            0 => Ok(None),
            len => self.answer(len, len),
        }
    }

    /// Reads more bytes behind those held, or the end; of the bytes that are too many it takes the first at most.
    fn read<S: Source>(&mut self, alloc: Global, source: &mut S) -> Result<(), NextFault>
        requires room { length self.old.held ≤ limit.LONGEST_SCRIPT - self.old.answered }
        ensures more { ReadsMore result (S.view source.old) (S.view source.new) self.old self.new }
        ensures within { bytes_taken self.new ≤ limit.LONGEST_SCRIPT + 1 }
    {
        let _ = alloc;
        let most = READ_LEN.min(self.room() + 1 - self.held().len());
        self.drop_answered();
        if self.bytes.reserve(READ_LEN).is_err() {
            return Err(NextFault::Memory);
        }
        let mut room = [0u8; READ_LEN];
        match source.read(&mut room[..most]) {
            Ok(n) => {
                self.ended = n == 0;
                let _fits = self.bytes.extend_from_slice(&room[..n]);
                Ok(())
            }
            Err(Failed) => Err(NextFault::Read),
        }
    }

    /// Drops the bytes of the lines that were answered.
    fn drop_answered(&mut self)
        ensures { self.new ≡ without_line self.old }
    {
        self.bytes.drain(..self.start);
        self.start = 0;
        self.line_start = 0;
        self.line_len = 0;
    }
}
