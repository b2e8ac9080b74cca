//! Whether the final facts are those that are true where all transactions are known.
ghost use Rattle.std.specs.Prelude.{◌≡◌, ◌↔◌, IsTrue, IfOk, length};
ghost use Rattle.std.specs.List.{list_all};
ghost use Rattle.ipa_logic.specs.Facts.{has, IsRising, IsStateOf};
ghost use Rattle.ipa_history.specs.Legality.{IsLegalHistory};
ghost use Rattle.ipa_history.specs.Values.{value_of};
ghost use Rattle.ipa_sets.specs.Indexes.{IsIndexOf};
ghost use Rattle.ipa_audit.specs.Finals.{AreTrueIn, AreIn, AreInUpTo};

use ipa_logic::{Fact, State, Universe, View, true_facts};
use ipa_sets::Index;
use ipa_spec::Spec;
use ipa_spec::laws::spec_is_fit;
use std::alloc::{AllocError, Global};

// Whether the facts are those that are true where all entries are known.
pub(crate) fn is_final(
    alloc: Global,
    spec: &Spec,
    _universe: &Universe,
    base: &State,
    index: &Index,
    last: &State,
) -> Result<bool, AllocError>
    requires indexed { IsIndexOf spec.now index.now }
    requires legal { IsLegalHistory spec.now _universe.now.sizes base.now index.now.entries }
    ensures { IfOk result (λ right. IsTrue right ↔ IsStateOf (value_of spec.now base.now index.now.entries) last.now) }
{
    spec_is_fit(spec);
    stands_in_order(last);
    let view = index.at(base, &index.clock());
    if !are_true(alloc, &view, last)? {
        return Ok(false);
    }
    Ok(are_all_in(spec, &view, last))
}

// Whether the two are one state.
pub(crate) fn is_same_state(alloc: Global, one: &State, other: &State) -> Result<bool, AllocError>
    ensures { IfOk result (λ same. IsTrue same ↔ (one.now ≡ other.now)) }
{
    stands_in_order(one);
    stands_in_order(other);
    if !are_true(alloc, one, other)? {
        return Ok(false);
    }
    let back = are_true(alloc, other, one)?;
    Ok(back)
}

// A state stands in order. It computes nothing.
fn stands_in_order(state: &State)
    ensures { IsRising state.now }
{
    let _rising = true_facts(state, 0);
}

// Whether each fact of the state is true in the view.
fn are_true<V: View>(alloc: Global, view: &V, state: &State) -> Result<bool, AllocError>
    ensures { IfOk result (λ all. IsTrue all ↔ AreTrueIn (V.facts view.now) state.now) }
{
    let facts = state.to_vec(alloc)?;
    Ok(hold_all(view, facts.as_slice()))
}

// Whether each of the facts is true in the view.
fn hold_all<V: View>(view: &V, facts: &[Fact]) -> bool
    ensures { result ≡ list_all (has (V.facts view.now)) facts.now }
{
    facts.iter().all(|fact| view.holds(fact))
}

// Whether each true fact of the view, of a declared predicate, is one of the state.
fn are_all_in<V: View>(spec: &Spec, view: &V, state: &State) -> bool
    ensures { IsTrue result ↔ AreInUpTo (length spec.now.predicates) (V.facts view.now) state.now }
{
    are_in_up_to(predicate_count(spec), view, state)
}

// The number of predicates.
fn predicate_count(spec: &Spec) -> u8
    ensures { result ≡ length spec.now.predicates }
{
    spec_is_fit(spec);
    spec.predicates().len() as u8
}

// Whether each true fact of the view, of a predicate below this, is one of the state.
fn are_in_up_to<V: View>(count: u8, view: &V, state: &State) -> bool
    ensures { IsTrue result ↔ AreInUpTo count (V.facts view.now) state.now }
{
    for predicate in 0..count {
        if !are_in(view, predicate, state) {
            return false;
        }
    }
    true
}

// Whether each true fact of the predicate is one of the state.
fn are_in<V: View>(view: &V, predicate: u8, state: &State) -> bool
    ensures { IsTrue result ↔ AreIn predicate (V.facts view.now) state.now }
{
    for fact in true_facts(view, predicate) {
        if !state.holds(&fact) {
            return false;
        }
    }
    true
}
