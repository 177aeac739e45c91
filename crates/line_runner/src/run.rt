//! A run over the lines of a source.

ghost use Rattle.std.specs.Prelude.{ℕ, List, Bool};
ghost use Rattle.report_out.specs.Reports.{ReportsOn};
ghost use Rattle.line_runner.specs.Script.{ending, reporting};
ghost use Rattle.line_runner.specs.Shows.{ShowsOn};

use crate::line_runner::LineRunner;
use crate::runner::Runner;
use report_out::{Ended, Stop};
use std::alloc::Global;
use vt_outside::{Sink, Source, Watch};

/// Runs the script of a source on a runner that stands at the start, and writes its report, with the trace of each line
/// before what it printed where `traces` says so. The watch is shown the trace of each line before the line's text is sent.
/// The disk comes back whatever the status is.
pub fn run_lines<L: LineRunner, S: Source, K: Sink, W: Watch>(
    alloc: Global,
    runner: L,
    traces: bool,
    source: &mut S,
    sink: &mut K,
    watch: &mut W,
) -> Ended<L::Disk>
    requires { (sectors : List (List ℕ)) (read_only : Bool) → L.represents runner (L.script.start sectors read_only) }
    ensures reports { ReportsOn (reporting L.script) traces (ending L.script) (S.view source.old) (S.view source.new) (K.view sink.old) (K.view sink.new) (L.under runner) (L.Disk.view result.disk) result.status }
    ensures shows { ShowsOn L.script traces (S.view source.old) (K.view sink.old) (K.view sink.new) (W.shown watch.old) (W.shown watch.new) result.status }
{
    match Runner::<L>::new(alloc, runner) {
        Ok(runner) => runner.run(alloc, traces, source, sink, watch),
        Err(runner) => Ended {
            status: Stop::Memory.status(),
            disk: runner.into_disk(),
        },
    }
}
