//! The laws of verdicts. These functions do nothing: what they ensure is the law.
ghost use Rattle.std.specs.Prelude.{◌≡◌, ℕ, List};
ghost use Rattle.ipa_document_commands.specs.Checks.{CheckVerdict};
ghost use Rattle.ipa_document_commands.specs.Repairs.{RepairVerdict};
ghost use Rattle.ipa_command.specs.declared.status.Status.{Status};

use ipa_command::first_cases_are_one;
use ipa_repair::one_repair;

/// An input has one verdict of `check`: one status, with one text.
pub fn one_verdict()
    ensures { (bytes text other : List ℕ) (status end : Status) → CheckVerdict bytes status text → CheckVerdict bytes end other → (status ≡ end) × (text ≡ other) }
{
    first_cases_are_one();
}

/// An input has one verdict of `repair`: one status, with one text.
pub fn one_repair_verdict()
    ensures { (bytes text other : List ℕ) (status end : Status) → RepairVerdict bytes status text → RepairVerdict bytes end other → (status ≡ end) × (text ≡ other) }
{
    first_cases_are_one();
    one_repair();
}
