//! What runs the lines of a source.

ghost use Rattle.std.specs.Prelude.{◌≡◌, ◌+◌, ◌≤◌, length};
ghost use Rattle.report_text.specs.EndParts.{fault_line};
ghost use Rattle.report_out.specs.Output.{Sends};
ghost use Rattle.report_out.specs.Report.{line_text};

use crate::line_runner::LineRunner;
use report_out::{Ended, Stop, send, send_console, send_disk};
use report_text::{LINE_SPARE, SHORT_SPARE, Text};
use script_text::{LineReader, NextFault};
use std::alloc::Global;
use vt_outside::{Sink, Source, Watch};

/// Puts the fault of a line in place of the text, and answers the status with which the lines end there.
fn bad_line(number: u32, text: &mut Text) -> u8
    requires { SHORT_SPARE ≤ text.old.spare + length text.old.bytes }
    ensures status { result ≡ 3 }
    ensures text { text.new.bytes ≡ fault_line number }
    ensures spare { text.old.spare + length text.old.bytes ≤ text.new.spare + length text.new.bytes }
{
    text.clear();
    text.fault(number);
    3
}

/// Sends a text, and where traces are asked for a trace before it.
fn send_line<K: Sink>(traces: bool, trace: &[u8], text: &[u8], sink: &mut K) -> Result<(), Stop>
    ensures { Sends (K.view sink.old) (K.view sink.new) (line_text traces trace.now text.now) result }
{
    if !traces {
        return send(sink, text);
    }
    match send(sink, trace) {
        Ok(()) => send(sink, text),
        Err(stop) => Err(stop),
    }
}

/// The reader of a script's lines and the number of the last line, what the lines are run on, and the text of a fault and of
/// the end.
pub struct Runner<L: LineRunner> {
    reader: LineReader,
    number: u32,
    lines: L,
    text: Text,
}

impl<L: LineRunner> Runner<L> {
    ghost use Rattle.std.specs.Prelude.{◌≡◌, ◌+◌, ◌≤◌, ℕ, List, Bool, length, IfOk, IfErr};
    ghost use Rattle.vt_types.specs.Limits.{LONGEST_SCRIPT};
    ghost use Rattle.vt_outside.specs.Watch.{Shows};
    ghost use Rattle.report_out.specs.EndText.{disk_text};
    ghost use Rattle.report_out.specs.Output.{Sends};
    ghost use Rattle.report_out.specs.Report.{line_text};
    ghost use Rattle.report_out.specs.Reports.{ReportsOn};
    ghost use Rattle.line_runner.specs.Lines.{IsLast, IsNew, ReadsNext, RunsLines, RunsNext};
    ghost use Rattle.line_runner.specs.Script.{ending, reporting};
    ghost use Rattle.line_runner.specs.Shows.{ShowsOn};

    /// A runner before the first line. Where there is no memory, what the lines are run on comes back.
    pub fn new(alloc: Global, lines: L) -> Result<Runner<L>, L>
        ensures new { IfOk result (λ r. IsNew r.reader r.number) }
        ensures lines { IfOk result (λ r. r.lines ≡ lines) }
        ensures spare { IfOk result (λ r. LINE_SPARE ≤ r.text.spare + length r.text.bytes) }
        ensures err { IfErr result (λ l. l ≡ lines) }
    {
        let Ok(reader) = LineReader::new(alloc) else {
            return Err(lines);
        };
        let Ok(text) = Text::new(alloc) else {
            return Err(lines);
        };
        Ok(Runner {
            reader,
            number: 0,
            lines,
            text,
        })
    }

    /// Runs the next line of a source. The status where the lines end here, with the text that is then to be sent: 0 at the
    /// end of the input, 3 at a line that is not in the grammar, and 7 where too many bytes came.
    fn run_next<S: Source>(&mut self, alloc: Global, source: &mut S) -> Result<Option<u8>, Stop>
        requires number { self.old.number ≡ self.old.reader.number }
        requires few { self.old.number ≤ LONGEST_SCRIPT + 1 }
        requires spare { LINE_SPARE ≤ self.old.text.spare + length self.old.text.bytes }
        ensures reads { ReadsNext (S.view source.old) (S.view source.new) self.old.reader self.new.reader result }
        ensures runs { (state : L.State) → L.represents self.old.lines state → RunsNext L.script (S.view source.old) (S.view source.new) self.old.reader self.new.reader state (L.represents self.new.lines) (L.traced self.new.lines) (L.printed self.new.lines) self.new.text.bytes result }
        ensures number { self.new.number ≡ self.new.reader.number }
        ensures spare { LINE_SPARE ≤ self.new.text.spare + length self.new.text.bytes }
        ensures disk { L.under self.new.lines ≡ L.under self.old.lines }
    {
        self.text.clear();
        match self.reader.next_line(alloc, source) {
            Ok(Some(number)) => self.number = number,
            Ok(None) => return Ok(Some(0)),
            Err(NextFault::Long) => {
                L::refuses_long_lines();
                return Ok(Some(bad_line(self.number + 1, &mut self.text)));
            }
            Err(NextFault::TooLong) => {
                self.text.too_long();
                return Ok(Some(7));
            }
            Err(NextFault::Read) => return Err(Stop::Read),
            Err(NextFault::Memory) => return Err(Stop::Memory),
        }
        match self.lines.run_line(alloc, self.number, self.reader.line()) {
            Ok(true) => Ok(None),
            Ok(false) => Ok(Some(bad_line(self.number, &mut self.text))),
            Err(stop) => Err(stop),
        }
    }

    /// Shows the trace of the last line, and sends what the line printed.
    fn tell_line<K: Sink, W: Watch>(
        &self,
        traces: bool,
        sink: &mut K,
        watch: &mut W,
    ) -> Result<(), Stop>
        ensures sends { Sends (K.view sink.old) (K.view sink.new) (line_text traces (L.traced self.now.lines) (L.printed self.now.lines)) result }
        ensures shows { Shows (W.shown watch.old) (L.traced self.now.lines) (W.shown watch.new) }
    {
        watch.show(self.lines.trace());
        send_line(traces, self.lines.trace(), self.lines.text(), sink)
    }

    /// Runs the lines of a source, shows and sends what they did; the end parts are not sent yet. The status is 0 at the end
    /// of the input, 3 at a line that is not in the grammar, and 7 where too many bytes came.
    fn run_to_end<S: Source, K: Sink, W: Watch>(
        &mut self,
        alloc: Global,
        traces: bool,
        source: &mut S,
        sink: &mut K,
        watch: &mut W,
    ) -> Result<u8, Stop>
        requires new { IsNew self.old.reader self.old.number }
        requires start { (sectors : List (List ℕ)) (read_only : Bool) → L.represents self.old.lines (L.script.start sectors read_only) }
        requires spare { LINE_SPARE ≤ self.old.text.spare + length self.old.text.bytes }
        ensures runs { (last : List (List ℕ) → List Bool → List ℕ) → IsLast L.script (L.represents self.new.lines) result last → RunsLines L.script traces last (S.view source.old) (S.view source.new) (K.view sink.old) (K.view sink.new) (W.shown watch.old) (W.shown watch.new) result }
        ensures spare { LINE_SPARE ≤ self.new.text.spare + length self.new.text.bytes }
        ensures disk { L.under self.new.lines ≡ L.under self.old.lines }
    {
        'lines: loop {
            match self.run_next(alloc, source) {
                Ok(None) => {}
                Ok(Some(status)) => {
                    return match send(sink, self.text.bytes()) {
                        Ok(()) => Ok(status),
                        Err(stop) => Err(stop),
                    };
                }
                Err(stop) => return Err(stop),
            }
            match self.tell_line(traces, sink, watch) {
                Ok(()) => {}
                Err(stop) => return Err(stop),
            }
        }
    }

    /// The same, and where the input was run to its end sends the end parts up to the disk's.
    fn run_to_disk<S: Source, K: Sink, W: Watch>(
        &mut self,
        alloc: Global,
        traces: bool,
        source: &mut S,
        sink: &mut K,
        watch: &mut W,
    ) -> Result<u8, Stop>
        requires new { IsNew self.old.reader self.old.number }
        requires start { (sectors : List (List ℕ)) (read_only : Bool) → L.represents self.old.lines (L.script.start sectors read_only) }
        requires spare { LINE_SPARE ≤ self.old.text.spare + length self.old.text.bytes }
        ensures runs { RunsLines L.script traces disk_text (S.view source.old) (S.view source.new) (K.view sink.old) (K.view sink.new) (W.shown watch.old) (W.shown watch.new) result }
        ensures spare { LINE_SPARE ≤ self.new.text.spare + length self.new.text.bytes }
        ensures disk { L.under self.new.lines ≡ L.under self.old.lines }
    {
        match self.run_to_end(alloc, traces, source, sink, watch) {
            Ok(0) => {}
            Ok(status) => return Ok(status),
            Err(stop) => return Err(stop),
        }
        match send_console(self.lines.console(), &mut self.text, sink) {
            Ok(()) => Ok(0),
            Err(stop) => Err(stop),
        }
    }

    /// Runs the script of a source from its first line, and writes its report. The disk comes back whatever the status is.
    pub fn run<S: Source, K: Sink, W: Watch>(
        self,
        alloc: Global,
        traces: bool,
        source: &mut S,
        sink: &mut K,
        watch: &mut W,
    ) -> Ended<L::Disk>
        requires new { IsNew self.reader self.number }
        requires start { (sectors : List (List ℕ)) (read_only : Bool) → L.represents self.lines (L.script.start sectors read_only) }
        requires spare { LINE_SPARE ≤ self.text.spare + length self.text.bytes }
        ensures reports { ReportsOn (reporting L.script) traces (ending L.script) (S.view source.old) (S.view source.new) (K.view sink.old) (K.view sink.new) (L.under self.lines) (L.Disk.view result.disk) result.status }
        ensures shows { ShowsOn L.script traces (S.view source.old) (K.view sink.old) (K.view sink.new) (W.shown watch.old) (W.shown watch.new) result.status }
    {
        let mut runner = self;
        let ran = runner.run_to_disk(alloc, traces, source, sink, watch);
        let Runner {
            reader: _,
            number: _,
            lines,
            mut text,
        } = runner;
        let mut disk = lines.into_disk();
        match ran {
            Ok(0) => {}
            Ok(status) => return Ended { status, disk },
            Err(stop) => {
                return Ended {
                    status: stop.status(),
                    disk,
                };
            }
        }
        match send_disk(&mut text, sink, &mut disk) {
            Ok(()) => Ended { status: 0, disk },
            Err(stop) => Ended {
                status: stop.status(),
                disk,
            },
        }
    }
}
