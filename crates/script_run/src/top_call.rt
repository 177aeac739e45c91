//! The top call.

ghost use Rattle.std.specs.Prelude.{◌≡◌, map, string_bytes};
ghost use Rattle.vt_outside.specs.Disk.{DiskView};
ghost use Rattle.vt_outside.specs.Sink.{SinkView};
ghost use Rattle.vt_outside.specs.Source.{SourceView};
ghost use Rattle.script_run.specs.Headline.{Headline};
ghost use Rattle.script_run.specs.Usage as spec;

use crate::command::{Command, command_of};
use driver_run::run_script;
use mmio_regs::MmioBus;
use mmio_simulation::MmioSimulation;
use raw_run::run_raw;
use report_out::{Ended, Stop, send};
use std::alloc::Global;
use vt_outside::{Disk, Sink, Source, Watch};

/// What is sent for words that are not in the grammar.
const USAGE: &[u8] = b"usage: vt run BUS [trace] [file NAME] | raw BUS [file NAME] | load BUS N\n";

/// The status of a call that sent the usage line, or stopped.
fn usage_status(sent: Result<(), Stop>) -> u8
    ensures { result ≡ spec.usage_status sent }
{
    match sent {
        Ok(()) => 2,
        Err(stop) => stop.status(),
    }
}

/// Does all that the program does. The words are those after the program's name: `run mmio` runs the script of the source,
/// `run mmio trace` does so with the traces of its lines in the report, and `raw mmio` runs a raw script. The report is
/// written to the sink. With and without `trace` the watch is shown the traces of a script's lines, each before what the
/// line prints is sent; it is shown nothing else. The disk comes back whatever the status is.
///
/// The status is 0 where the whole input was run and the whole report written, 2 where the words are not in the grammar,
/// 3 at a line that is not in it, 7 where more than 2^26 bytes came; 4 and 5 where the source or the sink failed, and 6
/// for want of memory.
pub fn top<S: Source, K: Sink, D: Disk, W: Watch>(
    alloc: Global,
    words: &[String],
    source: &mut S,
    sink: &mut K,
    disk: D,
    watch: &mut W,
) -> Ended<D>
    ensures { Headline (map string_bytes words.now) (S.view source.old) (S.view source.new) (K.view sink.old) (K.view sink.new) (D.view disk) (D.view result.disk) (W.shown watch.old) (W.shown watch.new) result.status }
{
    match command_of(words) {
        Some(Command::Run { traces }) => run_script::<MmioSimulation, S, K, D, W>(
            alloc, traces, source, sink, disk, watch,
        ),
        Some(Command::Raw) => run_raw::<MmioBus, S, K, D>(alloc, source, sink, disk),
        None => {
            let sent = send(sink, USAGE);
            Ended {
                status: usage_status(sent),
                disk,
            }
        }
    }
}
