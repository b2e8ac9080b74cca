//! The cuts of a run have a count for each origin. These functions answer nothing: what they ensure is the law.
ghost use Rattle.std.specs.Prelude.{◌≡◌, ℕ, Some, slice_get};
ghost use Rattle.ipa_clock.specs.Laws.{HasAllOrigins};
ghost use Rattle.ipa_history.specs.LawfulEnds.{IsAt};
ghost use Rattle.ipa_history.specs.declared.history.Tx.{Tx as TheTx};
ghost use Rattle.ipa_history.specs.declared.outcomes.Outcome.{Outcome as TheOutcome};
ghost use Rattle.ipa_journal_laws.specs.Writable.{HaveAllOrigins};

use ipa_clock::Cut;
use ipa_history::{History, Outcome, Tx};
use ipa_spec::List;

fn has_all_origins(cut: &Cut)
    ensures { HasAllOrigins cut.now }
{
    let counts = cut.counts;
    let _many = counts.len();
}

fn seen_have_all_origins(entries: &[Tx])
    ensures { (k : ℕ) (t : TheTx) → slice_get entries.now k ≡ Some t → HasAllOrigins t.cut }
{
    for tx in entries {
        has_all_origins(&tx.cut);
    }
}

fn read_have_all_origins(outcomes: &[Outcome])
    ensures { (k : ℕ) (o : TheOutcome) → slice_get outcomes.now k ≡ Some o → HasAllOrigins o.cut }
{
    for outcome in outcomes {
        has_all_origins(&outcome.cut);
    }
}

fn each_has_all_origins(outcomes: &[List<Outcome>])
    ensures { (i k : ℕ) (o : TheOutcome) → IsAt outcomes.now i k o → HasAllOrigins o.cut }
{
    for own in outcomes {
        read_have_all_origins(own.as_slice());
    }
}

/// Each cut of a history, and each cut of outcomes, has a count for each of the 16 origins.
pub fn cuts_have_all_origins(entries: &History, outcomes: &List<List<Outcome>>)
    ensures { HaveAllOrigins entries.now outcomes.now }
{
    seen_have_all_origins(entries.as_slice());
    each_has_all_origins(outcomes.as_slice());
}
