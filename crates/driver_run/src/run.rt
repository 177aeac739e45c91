//! A run of a script of driver operations.

ghost use Rattle.interleaving.specs.BusDefinition.{driven};
ghost use Rattle.line_runner.specs.Script.{ending, reporting};
ghost use Rattle.line_runner.specs.Shows.{ShowsOn};
ghost use Rattle.report_out.specs.Reports.{ReportsOn};
ghost use Rattle.driver_run.specs.DrivenScript.{driven_script};

use crate::driven_lines::DrivenLines;
use interleaving::Simulation;
use line_runner::run_lines;
use report_out::{Ended, Stop};
use std::alloc::Global;
use vt_outside::{Disk, Sink, Source, Watch};

/// Runs the script of a source on a bus with its driver, and writes its report: the reply of each operation, with its place
/// and the number of its accesses, and then the end parts; where `traces` says so, before each reply what happened in its
/// operation. The watch is shown what happened in each operation, before the reply is sent. The disk comes back whatever
/// the status is.
pub fn run_script<M: Simulation, S: Source, K: Sink, D: Disk, W: Watch>(
    alloc: Global,
    traces: bool,
    source: &mut S,
    sink: &mut K,
    disk: D,
    watch: &mut W,
) -> Ended<D>
    ensures reports { ReportsOn (reporting (driven_script (driven M.Bus.table M.Driver.lowering M.kind))) traces (ending (driven_script (driven M.Bus.table M.Driver.lowering M.kind))) (S.view source.old) (S.view source.new) (K.view sink.old) (K.view sink.new) (D.view disk) (D.view result.disk) result.status }
    ensures shows { ShowsOn (driven_script (driven M.Bus.table M.Driver.lowering M.kind)) traces (S.view source.old) (K.view sink.old) (K.view sink.new) (W.shown watch.old) (W.shown watch.new) result.status }
{
    match DrivenLines::<M, D>::new(alloc, disk) {
        Ok(lines) => run_lines(alloc, lines, traces, source, sink, watch),
        Err(back) => Ended {
            status: Stop::Memory.status(),
            disk: back.disk,
        },
    }
}
