//! The law of words. The function does nothing: what it ensures is the law.
ghost use Rattle.std.specs.Prelude.{◌≡◌, ℕ, List};
ghost use Rattle.ipa_words.specs.Commands.{IsCommand};
ghost use Rattle.ipa_words.specs.declared.commands.Command.{Command};

/// Words name one command at most.
pub fn one_command()
    ensures { (texts : List (List ℕ)) (one other : Command) → IsCommand texts one → IsCommand texts other → one ≡ other }
{}
