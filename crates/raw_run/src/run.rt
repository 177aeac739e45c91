//! A run of a raw script.

ghost use Rattle.std.specs.Prelude.{false};
ghost use Rattle.report_out.specs.Reports.{ReportsOn};
ghost use Rattle.line_runner.specs.Script.{ending, reporting};
ghost use Rattle.raw_run.specs.RawScript.{raw_script};

use crate::line::RawLines;
use dev_core::Bus;
use line_runner::run_lines;
use report_out::{Ended, Stop};
use std::alloc::Global;
use vt_outside::{Disk, NoWatch, Sink, Source};

/// Runs the raw script of a source on a bus, and writes its report: a line for each access with its answer, then the end
/// parts. The disk comes back whatever the status is.
pub fn run_raw<B: Bus + Drop, S: Source, K: Sink, D: Disk>(
    alloc: Global,
    source: &mut S,
    sink: &mut K,
    disk: D,
) -> Ended<D>
    ensures { ReportsOn (reporting (raw_script B.table)) false (ending (raw_script B.table)) (S.view source.old) (S.view source.new) (K.view sink.old) (K.view sink.new) (D.view disk) (D.view result.disk) result.status }
{
    match RawLines::<B, D>::new(alloc, disk) {
        Ok(lines) => run_lines(alloc, lines, false, source, sink, &mut NoWatch),
        Err(back) => Ended {
            status: Stop::Memory.status(),
            disk: back.disk,
        },
    }
}
