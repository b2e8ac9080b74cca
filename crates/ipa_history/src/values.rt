//! The value of a fact by the maximal effects of the transactions that are known.
ghost use Rattle.std.specs.Prelude.{◌≡◌, ◌&&◌};
ghost use Rattle.std.specs.List.{list_any};
ghost use Rattle.ipa_logic.specs.Facts.{has};
ghost use Rattle.ipa_logic.specs.Touches.{has_rule, is_add_wins};
ghost use Rattle.ipa_history.specs.Histories.{is_before};
ghost use Rattle.ipa_history.specs.Values.{adds_fact, removes_fact, touches_fact, is_maximal, is_maximal_add, is_maximal_remove, value_of};

use crate::history::Tx;
use ipa_logic::{Fact, State, Touch, View, effect_on};
use ipa_spec::{Rule, Spec};

// The value of the fact where these transactions are known.
pub(crate) fn value_of(spec: &Spec, base: &State, members: &[Tx], fact: &Fact) -> bool
    ensures { result ≡ value_of spec.now base.now members.now fact.now }
{
    if !is_touched(spec, members, fact) {
        base.holds(fact)
    } else if adds_win(spec, fact.predicate) {
        is_added_last(spec, members, fact)
    } else {
        !is_removed_last(spec, members, fact)
    }
}

// Whether one transaction is before the other.
fn is_before(one: &Tx, other: &Tx) -> bool
    ensures { result ≡ is_before one.now other.now }
{
    other.cut.covers(one.dot)
}

// Whether adds win on the predicate.
fn adds_win(spec: &Spec, predicate: u8) -> bool
    ensures { result ≡ has_rule is_add_wins spec.now predicate }
{
    match spec.predicates().get(predicate as usize) {
        Some(predicate) => predicate.rule == Rule::AddWins,
        None => false,
    }
}

// Whether the transaction adds the fact.
fn adds_fact(spec: &Spec, tx: &Tx, fact: &Fact) -> bool
    ensures { result ≡ adds_fact spec.now fact.now tx.now }
{
    effect_on(spec, tx.action, &tx.args, fact) == Touch::Adds
}

// Whether it removes the fact.
fn removes_fact(spec: &Spec, tx: &Tx, fact: &Fact) -> bool
    ensures { result ≡ removes_fact spec.now fact.now tx.now }
{
    effect_on(spec, tx.action, &tx.args, fact) == Touch::Removes
}

// Whether it does one of the two.
fn touches_fact(spec: &Spec, tx: &Tx, fact: &Fact) -> bool
    ensures { result ≡ touches_fact spec.now fact.now tx.now }
{
    adds_fact(spec, tx, fact) || removes_fact(spec, tx, fact)
}

// Whether one of the transactions touches the fact.
fn is_touched(spec: &Spec, members: &[Tx], fact: &Fact) -> bool
    ensures { result ≡ list_any (touches_fact spec.now fact.now) members.now }
{
    members.iter().any(|tx| touches_fact(spec, tx, fact))
}

// Whether a later one touches the fact.
fn is_passed(spec: &Spec, members: &[Tx], fact: &Fact, tx: &Tx) -> bool
    ensures { result ≡ list_any (λ u. touches_fact spec.now fact.now u && is_before tx.now u) members.now }
{
    members.iter().any(|other| touches_fact(spec, other, fact) && is_before(tx, other))
}

// Whether its effect on the fact is maximal.
fn is_maximal(spec: &Spec, members: &[Tx], fact: &Fact, tx: &Tx) -> bool
    ensures { result ≡ is_maximal spec.now members.now fact.now tx.now }
{
    touches_fact(spec, tx, fact) && !is_passed(spec, members, fact, tx)
}

// Whether its effect on the fact is maximal and an add.
pub(crate) fn is_maximal_add(spec: &Spec, members: &[Tx], fact: &Fact, tx: &Tx) -> bool
    ensures { result ≡ is_maximal_add spec.now members.now fact.now tx.now }
{
    is_maximal(spec, members, fact, tx) && adds_fact(spec, tx, fact)
}

// Whether its effect on the fact is maximal and a remove.
fn is_maximal_remove(spec: &Spec, members: &[Tx], fact: &Fact, tx: &Tx) -> bool
    ensures { result ≡ is_maximal_remove spec.now members.now fact.now tx.now }
{
    is_maximal(spec, members, fact, tx) && removes_fact(spec, tx, fact)
}

// Whether a maximal effect is an add.
fn is_added_last(spec: &Spec, members: &[Tx], fact: &Fact) -> bool
    ensures { result ≡ list_any (is_maximal_add spec.now members.now fact.now) members.now }
{
    members
        .iter()
        .any(|tx| is_maximal_add(spec, members, fact, tx))
}

// Whether a maximal effect is a remove.
fn is_removed_last(spec: &Spec, members: &[Tx], fact: &Fact) -> bool
    ensures { result ≡ list_any (is_maximal_remove spec.now members.now fact.now) members.now }
{
    members
        .iter()
        .any(|tx| is_maximal_remove(spec, members, fact, tx))
}
