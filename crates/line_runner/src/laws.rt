//! Laws of reports.

ghost use Rattle.std.specs.Prelude.{ℕ, List, Bool};
ghost use Rattle.line_runner.specs.Script.{reporting};
ghost use Rattle.line_runner.specs.Stands.{StandFrom};

use crate::line_runner::LineRunner;

/// The lines of a report stand in its input: the bytes of each before its end, the first from the start of the input, and each
/// other one behind the line feed of the one before it. Each did what its script says, from the state that the one before it left.
pub fn lines_stand<L: LineRunner>()
    ensures { (input : List ℕ) (sectors : List (List ℕ)) (read_only : Bool) (outcomes : List Bool) → StandFrom L.script input 0 0 (L.script.start sectors read_only) (reporting L.script input sectors read_only outcomes).lines }
{}
