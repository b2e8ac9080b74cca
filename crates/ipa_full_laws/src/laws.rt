//! Laws on how many entries a run makes. These functions do nothing: what they ensure is the law.
ghost use Rattle.std.specs.Prelude.{ℕ, ◌<◌, ◌≤◌, List, length};
ghost use Rattle.ipa_spec.specs.Fits.{IsFit};
ghost use Rattle.ipa_spec.specs.declared.specification.Specification.{Specification};
ghost use Rattle.ipa_logic.specs.Acceptance.{IsAccepted};
ghost use Rattle.ipa_logic.specs.Facts.{Universe};
ghost use Rattle.ipa_logic.specs.declared.facts.Fact.{Fact};
ghost use Rattle.ipa_logic.specs.declared.facts.Request.{Request};
ghost use Rattle.ipa_history.specs.Legality.{IsLegalHistory};
ghost use Rattle.ipa_history.specs.declared.history.Tx.{Tx};
ghost use Rattle.ipa_history.specs.declared.outcomes.Fate.{Fate};
ghost use Rattle.ipa_history.specs.declared.outcomes.Outcome.{Outcome};
ghost use Rattle.ipa_reader.specs.Documents.{ReadsAs};
ghost use Rattle.ipa_reader.specs.declared.document.Document.{Document};
ghost use Rattle.ipa_reader.specs.declared.sessions.SessionWork.{SessionWork};
ghost use Rattle.ipa_gate.specs.Logs.{most};
ghost use Rattle.ipa_gate.specs.Settings.{SettingParts};
ghost use Rattle.ipa_world.specs.Worlds.{WorldParts, start_of};
ghost use Rattle.ipa_world.specs.WorldLaws.{IsSetup};
ghost use Rattle.ipa_schedule.specs.Ends.{IsFullOf};
ghost use Rattle.ipa_settings.specs.DocumentSettings.{setting_of};
ghost use Rattle.ipa_run_commands.specs.Runs.{IsFullRun};
ghost use Rattle.ipa_full_laws.specs.Large.{AreAsked, do_count, most_entries};
ghost use Rattle.ipa_full_laws.specs.Setups.{most_entries_of};

use ipa_reader::{document_faultless, kept_by_type};
use ipa_schedule::laws::law_schedules_are_runs;
use ipa_spec::laws::faultless_parts_are_fit;
use ipa_world::laws::law_runs_stay_lawful;

/// A legal history whose operations were asked for has no more members than an operation for each request to do one, and
/// of each session a drop for each fact of the base and each of an operation's twelve adds.
pub fn law_entries_are_few()
    ensures { (s : Specification) (universe : Universe) (base : List Fact) (requests : List (List Request))
        (outcomes : List (List Outcome)) (h : List Tx) → IsFit s → IsLegalHistory s universe base h →
        AreAsked requests outcomes h →
        length h ≤ most_entries (length requests) (length base) (do_count requests) }
{}

/// Where the schedule of a number meets a log without room from the world of a setup, whatever the fates were, the setup's
/// sessions could make more entries than a log can have.
pub fn law_full_is_large()
    ensures { (s : SettingParts) (works : List SessionWork) (replicas number : ℕ) (after : WorldParts)
        (fates : List (List Fate)) → IsFit s.spec → IsSetup s works replicas →
        IsFullOf number (start_of s works replicas) after fates → most < most_entries_of s works }
{
    law_runs_stay_lawful();
    law_schedules_are_runs();
}

/// The same of the schedule of a document whose specification is accepted.
pub fn law_full_run_is_large()
    ensures { (bytes : List ℕ) (document : Document) (number : ℕ) (fates : List (List Fate)) → ReadsAs bytes document →
        IsAccepted document.spec → IsFullRun document number fates →
        most < most_entries_of (setting_of document) document.setup.sessions }
{
    kept_by_type();
    document_faultless();
    faultless_parts_are_fit();
    law_full_is_large();
}
