#![tactic(auto)]
//! The laws of histories: equal cuts have equal states, and closed cuts keep all clauses.
//!
//! Each function computes nothing: its contract is the law. The headline is `law_closed_cut_keeps`: in a legal history
//! of an accepted specification every closed cut keeps all clauses, also one that no session has ever read. It calls
//! `law_no_meeting_conflict_keeps`, which asks of the history itself that no two members, neither before the other,
//! have actions in conflict. `law_top_is_plain` says that the state after a transaction is its plain application to
//! the state at its cut, and `law_legal_depends_on_cut` that two histories with the same transactions in a cut have
//! the same state there, the same ages, the same due drops, and judge a transaction at that cut alike.
ghost use Rattle.std.specs.Prelude.{◌≡◌, ◌↔◌, ℕ, ◌+◌, ◌∷◌, ◌++◌, []};
ghost use Rattle.ipa_clock.specs.Cut.{count_of};
ghost use Rattle.ipa_logic.specs.Truth.{Keeps};
ghost use Rattle.ipa_logic.specs.Touches.{plain_application};
ghost use Rattle.ipa_logic.specs.Acceptance.{IsAccepted};
ghost use Rattle.ipa_logic.specs.declared.facts.Fact.{Fact as TheFact};
ghost use Rattle.ipa_history.specs.Histories.{IsClosed, members_of};
ghost use Rattle.ipa_history.specs.Values.{value_at, value_of};
ghost use Rattle.ipa_history.specs.Ages.{age_at, IsDropAt};
ghost use Rattle.ipa_history.specs.Legality.{IsLegal, IsIllegal, IsLegalHistory};
ghost use Rattle.ipa_history.specs.declared.reasons.Reason.{Reason as TheReason};
ghost use Rattle.ipa_lift.specs.CutLaws.{Agree};
ghost use Rattle.ipa_lift.specs.Meetings.{NoMeetingConflict};

use ipa_clock::Cut;
use ipa_history::{History, Tx};
use ipa_logic::{State, Universe};
use ipa_spec::Spec;
use ipa_spec::laws::spec_is_fit;

/// In a legal history in which no two members, neither before the other, have actions in conflict, every closed cut
/// keeps all clauses.
pub fn law_no_meeting_conflict_keeps(
    spec: &Spec,
    universe: &Universe,
    base: &State,
    history: &History,
    cut: &Cut,
)
    requires legal { IsLegalHistory spec.now universe.now.sizes base.now history.now }
    requires apart { NoMeetingConflict spec.now history.now }
    requires closed { IsClosed history.now cut.now }
    ensures { Keeps spec.now universe.now.sizes (value_at spec.now base.now history.now cut.now) }
{
    spec_is_fit(spec);
}

/// In a legal history of an accepted specification every closed cut keeps all clauses.
pub fn law_closed_cut_keeps(
    spec: &Spec,
    universe: &Universe,
    base: &State,
    history: &History,
    cut: &Cut,
)
    requires accepted { IsAccepted spec.now }
    requires legal { IsLegalHistory spec.now universe.now.sizes base.now history.now }
    requires closed { IsClosed history.now cut.now }
    ensures { Keeps spec.now universe.now.sizes (value_at spec.now base.now history.now cut.now) }
{
    law_no_meeting_conflict_keeps(spec, universe, base, history, cut);
}

/// The state after a transaction is its plain application to the state at its cut.
pub fn law_top_is_plain(spec: &Spec, base: &State, history: &History, tx: &Tx)
    requires closed { IsClosed history.now tx.now.cut }
    requires next { tx.now.dot.number ≡ count_of tx.now.cut tx.now.dot.origin + 1 }
    ensures { (f : TheFact) → value_of spec.now base.now (members_of history.now tx.now.cut ++ tx.now ∷ []) f
        ≡ plain_application spec.now tx.now.action tx.now.args (value_at spec.now base.now history.now tx.now.cut) f }
{}

/// Two histories that have the same transactions in a transaction's cut have the same state there, the same ages and
/// the same due drops. They give it the same legality, and the same first reason where it is not legal.
pub fn law_legal_depends_on_cut(
    spec: &Spec,
    universe: &Universe,
    base: &State,
    one: &History,
    two: &History,
    tx: &Tx,
)
    requires { Agree one.now two.now tx.now.cut }
    ensures values { (f : TheFact) →
        value_at spec.now base.now one.now tx.now.cut f
        ≡ value_at spec.now base.now two.now tx.now.cut f }
    ensures ages { (f : TheFact) → age_at spec.now one.now tx.now.cut f ≡ age_at spec.now two.now tx.now.cut f }
    ensures drops { (n : ℕ) (f : TheFact) →
        IsDropAt spec.now base.now one.now tx.now.cut n f
        ↔ IsDropAt spec.now base.now two.now tx.now.cut n f }
    ensures illegal { (reason : TheReason) →
        IsIllegal spec.now universe.now.sizes base.now one.now tx.now reason
        ↔ IsIllegal spec.now universe.now.sizes base.now two.now tx.now reason }
    ensures legal { IsLegal spec.now universe.now.sizes base.now one.now tx.now
        ↔ IsLegal spec.now universe.now.sizes base.now two.now tx.now }
{}
