//! What the words of a call ask for.

ghost use Rattle.std.specs.Prelude.{◌≡◌, map, string_bytes};
ghost use Rattle.script_run.specs.Command as spec;

/// What the words of a call ask for, on the MMIO bus: no other is there yet.
#[derive(Clone, Copy, Debug, PartialEq, Eq)]
pub(crate) enum Command {
    /// To run a script, with the traces of its lines in the report or without.
    Run { traces: bool },
    /// To run a raw script.
    Raw,
}

/// Whether words are these names, one after the other.
fn are_words(words: &[String], names: &[&str]) -> bool
    ensures { result ≡ spec.are_words (map string_bytes words.now) (map (λ name. name.now) names.now) }
{
    match (words, names) {
        ([], []) => true,
        ([], [_, ..]) => false,
        ([_word, _words @ ..], []) => false,
        ([word, words @ ..], [name, names @ ..]) => {
            word.as_str() == *name && are_words(words, names)
        }
    }
}

/// The command that words are; None where they are not in the grammar.
pub(crate) fn command_of(words: &[String]) -> Option<Command>
    ensures { result ≡ spec.command_of (map string_bytes words.now) }
{
    if are_words(words, &["run", "mmio"]) {
        Some(Command::Run { traces: false })
    } else if are_words(words, &["run", "mmio", "trace"]) {
        Some(Command::Run { traces: true })
    } else if are_words(words, &["raw", "mmio"]) {
        Some(Command::Raw)
    } else {
        None
    }
}
