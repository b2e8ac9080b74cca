//! The laws of verdicts. These functions do nothing: what they ensure is the law.
ghost use Rattle.std.specs.Prelude.{◌≡◌, ℕ, List};
ghost use Rattle.ipa_journal_commands.specs.Audits.{AuditVerdict};
ghost use Rattle.ipa_journal_commands.specs.Journals.{AreOneJournal};
ghost use Rattle.ipa_journal_commands.specs.Migrations.{MigrateVerdict};
ghost use Rattle.ipa_command.specs.declared.status.Status.{Status};

use ipa_audit::{law_bad_is_unlawful, law_one_reason};
use ipa_command::first_cases_are_one;
use ipa_journal::one_journal;
use ipa_reader::kept_by_type;

/// There is one reading of a journal.
fn journals_are_one()
    ensures { AreOneJournal }
{
    one_journal();
}

/// An input has one verdict of `migrate`: one status, with one text.
pub fn one_migration()
    ensures { (bytes text other : List ℕ) (status end : Status) → MigrateVerdict bytes status text → MigrateVerdict bytes end other → (status ≡ end) × (text ≡ other) }
{
    first_cases_are_one();
    journals_are_one();
}

/// An input has one verdict of `audit`: one status, with one text.
pub fn one_audit_verdict()
    ensures { (bytes text other : List ℕ) (status end : Status) → AuditVerdict bytes status text → AuditVerdict bytes end other → (status ≡ end) × (text ≡ other) }
{
    first_cases_are_one();
    journals_are_one();
    kept_by_type();
    law_one_reason();
    law_bad_is_unlawful();
}
