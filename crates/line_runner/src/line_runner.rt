//! What runs the lines of a script.

ghost use Rattle.std.specs.Prelude.{◌≡◌, ℕ, ◌<◌, List, [], Bool, None, length};
ghost use Rattle.vt_outside.specs.Disk.{DiskView};
ghost use Rattle.script_text.specs.Limits.{LONGEST_LINE};
ghost use Rattle.report_out.specs.EndText.{end_text};
ghost use Rattle.line_runner.specs.Script.{Script};
ghost use Rattle.line_runner.specs.Shows.{RunsLine};

use report_out::Stop;
use std::alloc::Global;
use vt_outside::Disk;

/// What runs the lines of a kind of script, one after the other, over a disk that no line asks.
pub trait LineRunner: Sized {
    type Disk: Disk;

    ghost State: { Type 0 };

    /// What the lines do.
    ghost script: { Script Self.State };

    /// The states that it represents.
    ghost represents: { Self → Self.State → Type 0 };

    /// The trace of the last line, what it printed behind it, and the disk under the machine.
    ghost traced: { Self → List ℕ };

    ghost printed: { Self → List ℕ };

    ghost under: { Self → DiskView };

    /// A line that is too long is not in the grammar. Does nothing.
    fn refuses_long_lines()
        ensures { (line : List ℕ) → LONGEST_LINE < length line → script.line line ≡ None };

    /// Runs a line, the `number`-th of its script. False, and nothing happens, where it is not in the grammar.
    fn run_line(&mut self, alloc: Global, number: u32, line: &[u8]) -> Result<bool, Stop>
        ensures runs { (state : Self.State) → represents self.old state → RunsLine (script.line line.now) number state (represents self.new) (traced self.new) (printed self.new) result }
        ensures disk { under self.new ≡ under self.old };

    /// The trace of the last line.
    fn trace(&self) -> &[u8]
        ensures { result.now ≡ traced self.now };

    /// What the last line printed.
    fn text(&self) -> &[u8]
        ensures { result.now ≡ printed self.now };

    /// The bytes that the console was given.
    fn console(&self) -> &[u8]
        ensures { (state : Self.State) (image : List (List ℕ)) (outcomes : List Bool) → represents self.now state → script.last state image outcomes ≡ end_text [] result.now image outcomes };

    /// The disk that was under the machine.
    fn into_disk(self) -> Self::Disk
        ensures { Self.Disk.view result ≡ under self };
}
