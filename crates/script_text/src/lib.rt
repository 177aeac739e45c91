//! The texts of a script (our own): the reader of its lines, and the grammars of the lines of a script and of a raw
//! script.
//!
//! Words stand between spaces, and only a space separates them. A line without words, or whose first word begins with
//! `#`, does nothing. Decimal numbers have 1 to 20 digits, zeros in front among them; hexadecimal digits are read in
//! either case, and bytes are pairs of them. Names are in lower case. A line that is longer than `LONGEST_LINE` is in
//! neither grammar.
#![tactic(auto)]

ghost use Rattle.std.specs.Prelude.{◌≡◌};
ghost use Rattle.script_text.specs.Limits as limit;

mod event;
mod fault;
mod fields;
mod line;
mod operation;
mod post;
mod raw;
mod reader;
mod words;

pub use fault::LineFault;
pub use line::{Line, parse_line};
pub use raw::{RawAccess, RawLine, parse_raw};
pub use reader::{LineReader, NextFault};

/// The most bytes of a line without its line feed.
pub const LONGEST_LINE: usize = 0x10_0000;

/// The most digits of a decimal number.
const MOST_DECIMAL_DIGITS: usize = 20;

/// The limits of the code are those of the definitions. Does nothing.
pub fn limits_are_defined()
    ensures line { LONGEST_LINE ≡ limit.LONGEST_LINE }
    ensures digits { MOST_DECIMAL_DIGITS ≡ limit.MOST_DECIMAL_DIGITS }
{}
