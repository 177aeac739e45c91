//! Worked rows of a script whose lines are one byte each.

use line_runner::{LineRunner, run_lines};
use report_out::Stop;
use std::alloc::{AllocError, Global};
use std::test::Fail;
use vt_outside::{MemDisk, MemSink, MemSource, MemWatch};
use vt_types::{Bytes, Memory};

/// Runs lines of one byte: the trace of a line is its byte, and what it prints is the byte twice.
struct Echo {
    disk: MemDisk,
    trace: [u8; 1],
    text: [u8; 2],
}

impl LineRunner for Echo {
    ghost use Rattle.std.specs.Prelude.{◌==◌, ◌++◌, [], length, Some, None, if◌then◌else◌};
    ghost use Rattle.vt_outside.specs.Memory.{disk_view};
    ghost use Rattle.report_out.specs.EndText.{end_text};
    ghost use Rattle.report_out.specs.Report.{Asked};

    type Disk = MemDisk;

    ghost State = { Unit };

    ghost script = { record { start = λ sectors read_only. tt; line = λ line. if length line == 1 then Some (λ k state. record { told = record { kind = Asked; trace = line; text = line ++ line; accesses = None }; state = tt }) else None; last = λ state sectors outcomes. end_text [] [] sectors outcomes } };

    ghost represents = { λ echo state. Unit };

    ghost traced = { λ echo. echo.trace };

    ghost printed = { λ echo. echo.text };

    ghost under = { λ echo. disk_view echo.disk };

    fn refuses_long_lines() {}

    fn run_line(&mut self, _alloc: Global, _number: u32, line: &[u8]) -> Result<bool, Stop> {
        match line {
            [byte] => {
                self.trace = [*byte];
                self.text = [*byte, *byte];
                Ok(true)
            }
            _ => Ok(false),
        }
    }

    fn trace(&self) -> &[u8] {
        &self.trace
    }

    fn text(&self) -> &[u8] {
        &self.text
    }

    fn console(&self) -> &[u8] {
        &[]
    }

    fn into_disk(self) -> MemDisk {
        let Echo {
            disk,
            trace: _,
            text: _,
        } = self;
        disk
    }
}

/// A script, whether traces are asked for, which calls of the source and the sink fail, where byte k is 1 for call number k
/// (from 0); and what is wanted: the status, what was written, and what the watch was shown.
#[derive(Clone, Copy)]
struct Row<'a> {
    script: &'a str,
    traces: bool,
    source: &'a [u8],
    sink: &'a [u8],
    status: u8,
    text: &'a str,
    shown: &'a str,
}

/// A row in which no call fails.
const CALM: Row<'static> = Row {
    script: "a\nb",
    traces: false,
    source: &[],
    sink: &[],
    status: 0,
    text: "aabbframes 0\nconsole -\ndisk 2\nend\n",
    shown: "ab",
};

const ROWS: [Row<'static>; 5] = [
    CALM,
    Row {
        traces: true,
        text: "aaabbbframes 0\nconsole -\ndisk 2\nend\n",
        ..CALM
    },
    Row {
        script: "a\n\nb",
        status: 3,
        text: "aafault 2\n",
        shown: "a",
        ..CALM
    },
    Row {
        source: &[0, 1],
        status: 4,
        text: "aa",
        shown: "a",
        ..CALM
    },
    Row {
        traces: true,
        sink: &[0, 0, 0, 1],
        status: 5,
        text: "aaab",
        ..CALM
    },
];

fn list(alloc: Global, bytes: &[u8]) -> Result<Bytes, Memory> {
    let mut all = Bytes::new(alloc);
    all.extend(alloc, bytes)?;
    Ok(all)
}

/// Whether a row gives what is wanted, on a disk of two sectors.
fn holds(alloc: Global, row: &Row<'_>) -> Result<bool, AllocError> {
    let mut source = MemSource::new(
        list(alloc, row.script.as_bytes())?,
        list(alloc, row.source)?,
    );
    let mut sink = MemSink::new(alloc, 4096, list(alloc, row.sink)?)?;
    let mut watch = MemWatch::new();
    let echo = Echo {
        disk: MemDisk::new(alloc, 2, false, Bytes::new(alloc))?,
        trace: [0],
        text: [0, 0],
    };
    let ended = run_lines(alloc, echo, row.traces, &mut source, &mut sink, &mut watch);
    Ok(
        ended.status == row.status
            && sink.bytes() == row.text.as_bytes()
            && watch.bytes() == row.shown.as_bytes(),
    )
}

#[test]
fn rows_of_lines(rt: HostRuntime) -> Result<(), Fail> {
    for row in ROWS {
        assert!(rt; holds(rt.alloc(), &row)?, "{} {}", row.status, row.text);
    }
    Ok(())
}
