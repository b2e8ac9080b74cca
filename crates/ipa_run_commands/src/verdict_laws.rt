//! The law of verdicts. This function does nothing: what it ensures is the law.
ghost use Rattle.std.specs.Prelude.{◌≡◌, ℕ, List};
ghost use Rattle.ipa_command.specs.declared.status.Status.{Status};
ghost use Rattle.ipa_run_commands.specs.RunVerdicts.{Handed, RunVerdict};
ghost use Rattle.ipa_run_commands.specs.declared.telling.Telling.{Telling as TheTelling};

use ipa_command::first_cases_are_one;

/// For what is handed back of a run, an input has one verdict: one status, with one text.
pub fn one_run_verdict()
    ensures { (telling : TheTelling) (number : ℕ) (handed : Handed) (bytes text other : List ℕ) (status end : Status) →
        RunVerdict telling number handed bytes status text → RunVerdict telling number handed bytes end other →
        (status ≡ end) × (text ≡ other) }
{
    first_cases_are_one();
}
