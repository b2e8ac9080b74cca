//! Whether a transaction is legal between the state at its cut, seen by a view, and the state after it, which is not
//! built.
ghost use Rattle.std.specs.Prelude.{◌≡◌, ◌↔◌, ℕ, true, IsTrue, MatchOption, List};
ghost use Rattle.ipa_logic.specs.Facts.{has, IsRising, IsStateOf};
ghost use Rattle.ipa_logic.specs.Truth.{Keeps};
ghost use Rattle.ipa_logic.specs.Touches.{IsAfter};
ghost use Rattle.ipa_logic.specs.Groups.{Within};
ghost use Rattle.ipa_logic.specs.DueDrops.{IsDueDrop};
ghost use Rattle.ipa_logic.specs.declared.facts.Fact.{Fact as TheFact};
ghost use Rattle.ipa_history.specs.Values.{value_at};
ghost use Rattle.ipa_history.specs.Ages.{age_at};
ghost use Rattle.ipa_history.specs.Legality.{IsLegalOperation, IsOperationReason, IsLegal, IsIllegal};
ghost use Rattle.ipa_gate.specs.Verdicts.{IsAtCut};
ghost use Rattle.ipa_gate.specs.DueDrops.{IsDueAs, IsOneDrop};

use ipa_bounds::{AgedView, DropOf, first_drop};
use ipa_history::{History, Reason, Tx};
use ipa_logic::{Fact, State, Universe, View, drop_effect, fact_given, first_failing_need};
use ipa_overfill::first_over_after;
use ipa_spec::{Action, Spec};
use ipa_touch::first_broken;

/// The first reason why the transaction is not legal at its closed cut, or `None` where it is. The view stands for the
/// state there, with the ages of its facts. A clause is never the reason against a drop. It takes no memory.
pub fn reason_at<V: AgedView>(
    spec: &Spec,
    universe: &Universe,
    base: &State,
    history: &History,
    view: &V,
    tx: &Tx,
) -> Option<Reason>
    requires at { IsAtCut spec.now universe.now.sizes base.now history.now tx.now }
    requires state { IsStateOf (value_at spec.now base.now history.now tx.now.cut) (V.facts view.now) }
    requires ages { (f : TheFact) → has (V.facts view.now) f ≡ true →
        V.ages view.now f ≡ age_at spec.now history.now tx.now.cut f }
    ensures { MatchOption result (IsLegal spec.now universe.now.sizes base.now history.now tx.now)
        (IsIllegal spec.now universe.now.sizes base.now history.now tx.now) }
{
    match tx.action {
        Action::Op(_) => reason_against(spec, universe, view, tx),
        Action::Drop(number) => {
            if is_due(spec, view, number, &tx.args) {
                None
            } else {
                Some(Reason::NotTheDrop)
            }
        }
    }
}

/// The same for an operation at whose cut the state is within the bounds. They are not looked through again.
pub fn reason_within<V: AgedView>(
    spec: &Spec,
    universe: &Universe,
    base: &State,
    history: &History,
    view: &V,
    tx: &Tx,
) -> Option<Reason>
    requires at { IsAtCut spec.now universe.now.sizes base.now history.now tx.now }
    requires state { IsStateOf (value_at spec.now base.now history.now tx.now.cut) (V.facts view.now) }
    requires operation { (number : ℕ) → tx.now.action ≡ Action.Drop number → ⊥ }
    requires within { Within spec.now.bounds (V.facts view.now) }
    ensures { MatchOption result (IsLegal spec.now universe.now.sizes base.now history.now tx.now)
        (IsIllegal spec.now universe.now.sizes base.now history.now tx.now) }
{
    match tx.action {
        Action::Op(_) => reason_besides(spec, universe, view, tx),
        Action::Drop(_) => unreachable!(),
    }
}

// The first reason why the operation is not legal, or `None` where it is. The viewed state keeps all clauses.
fn reason_against<V: AgedView>(
    spec: &Spec,
    universe: &Universe,
    view: &V,
    tx: &Tx,
) -> Option<Reason>
    requires rising { IsRising (V.facts view.now) }
    requires keeps { Keeps spec.now universe.now.sizes (has (V.facts view.now)) }
    ensures { (after : List TheFact) → IsAfter spec.now tx.now.action tx.now.args (V.facts view.now) after →
        MatchOption result (IsLegalOperation spec.now universe.now.sizes tx.now (V.facts view.now) after)
        (IsOperationReason spec.now universe.now.sizes tx.now (V.facts view.now) after) }
{
    if let Some(drop) = first_drop(spec, view) {
        return Some(Reason::NotWithin(drop.bound));
    }
    reason_besides(spec, universe, view, tx)
}

// The same where the viewed state is within the bounds.
fn reason_besides<V: AgedView>(
    spec: &Spec,
    universe: &Universe,
    view: &V,
    tx: &Tx,
) -> Option<Reason>
    requires rising { IsRising (V.facts view.now) }
    requires keeps { Keeps spec.now universe.now.sizes (has (V.facts view.now)) }
    requires within { Within spec.now.bounds (V.facts view.now) }
    ensures { (after : List TheFact) → IsAfter spec.now tx.now.action tx.now.args (V.facts view.now) after →
        MatchOption result (IsLegalOperation spec.now universe.now.sizes tx.now (V.facts view.now) after)
        (IsOperationReason spec.now universe.now.sizes tx.now (V.facts view.now) after) }
{
    if let Some(number) = first_failing_need(spec, view, tx.action, &tx.args) {
        return Some(Reason::Need(number));
    }
    if let Some(broken) = first_broken(spec, universe, view, tx.action, &tx.args) {
        return Some(Reason::Clause(broken));
    }
    if let Some(number) = first_over_after(spec, view, tx.action, &tx.args) {
        return Some(Reason::Over(number));
    }
    None
}

// Whether the drop of this bound with these arguments is the one that is due in the viewed state.
fn is_due<V: AgedView>(spec: &Spec, view: &V, number: u8, args: &[u16; 4]) -> bool
    ensures { IsTrue result ↔ IsDueAs spec.now (V.facts view.now) (V.ages view.now) number args.now }
{
    match spec.bounds().get(number as usize) {
        Some(bound) => is_dropped(
            spec,
            view,
            number,
            &fact_given(spec, &drop_effect(spec, bound), args),
        ),
        None => false,
    }
}

// Whether the drop of this bound and this fact is due in the viewed state.
fn is_dropped<V: AgedView>(spec: &Spec, view: &V, number: u8, fact: &Fact) -> bool
    ensures { IsTrue result ↔ IsDueDrop spec.now.bounds (V.facts view.now) (V.ages view.now) number fact.now }
{
    match first_drop(spec, view) {
        Some(due) => is_same_drop(&due, number, fact),
        None => false,
    }
}

// Whether the drop is that of this bound and this fact.
fn is_same_drop(due: &DropOf, number: u8, fact: &Fact) -> bool
    ensures { IsTrue result ↔ IsOneDrop due.now.bound number due.now.fact fact.now }
{
    due.bound == number && due.fact == *fact
}
