//! The state where some transactions are known, by trying each fact that can be true.
//!
//! A fact can be true only where the base holds it or a transaction adds it.
ghost use Rattle.std.specs.Prelude.{◌≡◌, ◌&&◌, ◌||◌, IfOk, OnOk};
ghost use Rattle.std.specs.List.{list_any};
ghost use Rattle.std.specs.Ordering.{is_eq};
ghost use Rattle.ipa_logic.specs.Facts.{has, fact_cmp, IsRising, IsStateOf};
ghost use Rattle.ipa_history.specs.Histories.{is_before, members_of};
ghost use Rattle.ipa_history.specs.Values.{adds_fact, value_of};
ghost use Rattle.ipa_history.specs.EffectLaws.{Order};

use crate::history::{History, Tx};
use crate::values::value_of;
use ipa_clock::Cut;
use ipa_logic::{Fact, State, apply_plain};
use ipa_spec::Spec;
use std::alloc::{AllocError, Global};

/// The state at a cut of the history.
pub fn state_at_plain(
    alloc: Global,
    spec: &Spec,
    base: &State,
    history: &History,
    cut: &Cut,
) -> Result<State, AllocError>
    ensures { IfOk result (IsStateOf (value_of spec.now base.now (members_of history.now cut.now))) }
{
    let members = members_of(alloc, history, cut)?;
    state_of(alloc, spec, base, members.as_slice())
}

// The members of the cut, in the order of the history.
pub(crate) fn members_of(alloc: Global, history: &History, cut: &Cut) -> Result<Vec<Tx>, AllocError>
    ensures members { IfOk result (λ members. members.items ≡ members_of history.now cut.now) }
    ensures order { Order is_before (members_of history.now cut.now) }
{
    history
        .as_slice()
        .iter()
        .filter(|tx| cut.covers(tx.dot))
        .copied()
        .collect(alloc)
}

// The state where these transactions are known.
pub(crate) fn state_of(
    alloc: Global,
    spec: &Spec,
    base: &State,
    members: &[Tx],
) -> Result<State, AllocError>
    requires { Order is_before members.now }
    ensures { IfOk result (IsStateOf (value_of spec.now base.now members.now)) }
{
    let candidates = candidates_of(alloc, spec, base, members)?;
    let facts = candidates.to_vec(alloc)?;
    let mut state = State::new(alloc);
    for fact in &facts {
        insert_if_true(&mut state, spec, base, members, fact)?;
    }
    Ok(state)
}

// Makes the fact true, if it is true where these transactions are known.
fn insert_if_true(
    state: &mut State,
    spec: &Spec,
    base: &State,
    members: &[Tx],
    fact: &Fact,
) -> Result<(), AllocError>
    requires rising { IsRising state.old }
    ensures facts { OnOk result ((f : Fact) → has state.new f
        ≡ ((is_eq (fact_cmp fact.now f) && value_of spec.now base.now members.now f) || has state.old f)) }
    ensures rising { IsRising state.new }
{
    if value_of(spec, base, members, fact) {
        state.insert(*fact)?;
    }
    Ok(())
}

// The facts that can be true: those of the base, and those that a transaction adds.
fn candidates_of(
    alloc: Global,
    spec: &Spec,
    base: &State,
    members: &[Tx],
) -> Result<State, AllocError>
    ensures { IfOk result (λ all. (f : Fact) → has all f
        ≡ (list_any (adds_fact spec.now f) members.now || has base.now f)) }
{
    let mut all = base.copy()?;
    for tx in members {
        insert_added(&mut all, alloc, spec, tx)?;
    }
    Ok(all)
}

// Makes the facts true that the transaction adds: those after it where none is true before.
fn insert_added(state: &mut State, alloc: Global, spec: &Spec, tx: &Tx) -> Result<(), AllocError>
    ensures { OnOk result ((f : Fact) → has state.new f ≡ (adds_fact spec.now f tx.now || has state.old f)) }
{
    let added = apply_plain(alloc, spec, tx.action, &tx.args, &State::new(alloc))?;
    let facts = added.to_vec(alloc)?;
    insert_all(state, facts.as_slice())
}

// Makes these facts true.
fn insert_all(state: &mut State, facts: &[Fact]) -> Result<(), AllocError>
    ensures { OnOk result ((f : Fact) → has state.new f ≡ (has facts.now f || has state.old f)) }
{
    for fact in facts {
        state.insert(*fact)?;
    }
    Ok(())
}
