//! The commands by their words.
ghost use Rattle.std.specs.Prelude.{◌≡◌, ◌≢◌, ◌∷◌, [], MatchOption, codes};
ghost use Rattle.ipa_words.specs.Commands.{IsCommand, texts_of};
ghost use Rattle.ipa_words.specs.declared.commands.Command.{Command as TheCommand};

use ipa_weather::{Kind, kind_of, number_of};

/// The line for words that name no command.
pub const USAGE: &str =
    "usage: ipa check | repair | simulate NUMBER [WEATHER] | simulate --generate NUMBER | audit | migrate | run [WEATHER]\n";

/// A command, as words name it.
#[derive(Clone, Copy, Debug, PartialEq, Eq)]
pub enum Command {
    /// Judges a document.
    Check,
    /// Repairs a document's specification.
    Repair,
    /// Runs a document's schedule.
    Simulate {
        /// The number of the schedule.
        number: u64,
        /// The weather of its links.
        kind: Kind,
    },
    /// Runs the schedule of a generated document.
    Generate {
        /// The number of the document and of the schedule.
        number: u64,
    },
    /// Checks the journal behind a document.
    Audit,
    /// Writes the journal behind a document in the latest version.
    Migrate,
}

/// The command that one word names.
fn named_by_word(word: &str) -> Option<Command>
    ensures { MatchOption result ((c : TheCommand) → IsCommand (word.now ∷ []) c → ⊥) (IsCommand (word.now ∷ [])) }
{
    match word {
        "check" => Some(Command::Check),
        "repair" => Some(Command::Repair),
        "audit" => Some(Command::Audit),
        "migrate" => Some(Command::Migrate),
        _ => None,
    }
}

/// The simulation of this number in clear weather.
fn simulate_in_clear(number: &str) -> Option<Command>
    ensures { MatchOption result ((c : TheCommand) → IsCommand (codes "simulate" ∷ number.now ∷ []) c → ⊥)
        (IsCommand (codes "simulate" ∷ number.now ∷ [])) }
{
    let number = number_of(number)?;
    Some(Command::Simulate {
        number,
        kind: Kind::Clear,
    })
}

/// The simulation of a generated document of this number.
fn generate(number: &str) -> Option<Command>
    ensures { MatchOption result ((c : TheCommand) → IsCommand (codes "simulate" ∷ codes "--generate" ∷ number.now ∷ []) c → ⊥)
        (IsCommand (codes "simulate" ∷ codes "--generate" ∷ number.now ∷ [])) }
{
    let number = number_of(number)?;
    Some(Command::Generate { number })
}

/// The simulation of this number in this weather.
fn simulate_in(number: &str, weather: &str) -> Option<Command>
    requires { number.now ≢ codes "--generate" }
    ensures { MatchOption result ((c : TheCommand) → IsCommand (codes "simulate" ∷ number.now ∷ weather.now ∷ []) c → ⊥)
        (IsCommand (codes "simulate" ∷ number.now ∷ weather.now ∷ [])) }
{
    let number = number_of(number)?;
    let kind = kind_of(weather)?;
    Some(Command::Simulate { number, kind })
}

/// What `simulate` and two more words name.
fn simulate_with(first: &str, second: &str) -> Option<Command>
    ensures { MatchOption result ((c : TheCommand) → IsCommand (codes "simulate" ∷ first.now ∷ second.now ∷ []) c → ⊥)
        (IsCommand (codes "simulate" ∷ first.now ∷ second.now ∷ [])) }
{
    if first == "--generate" {
        generate(second)
    } else {
        simulate_in(first, second)
    }
}

/// What `simulate` and these words name.
fn simulate_words(words: &[String]) -> Option<Command>
    ensures { MatchOption result ((c : TheCommand) → IsCommand (codes "simulate" ∷ texts_of words.now) c → ⊥)
        (IsCommand (codes "simulate" ∷ texts_of words.now)) }
{
    match words {
        [number] => simulate_in_clear(number.as_str()),
        [first, second] => simulate_with(first.as_str(), second.as_str()),
        _ => None,
    }
}

/// The command that the words name, or `None` where they match no row of the table of commands.
pub fn command_of(words: &[String]) -> Option<Command>
    ensures { MatchOption result ((c : TheCommand) → IsCommand (texts_of words.now) c → ⊥)
        (IsCommand (texts_of words.now)) }
{
    let (first, later) = words.split_first()?;
    if first.as_str() == "simulate" {
        simulate_words(later)
    } else if later.is_empty() {
        named_by_word(first.as_str())
    } else {
        None
    }
}
