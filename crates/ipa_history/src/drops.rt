//! The drop that is due in a state, by counting each group of facts again for each fact.
ghost use Rattle.std.specs.Prelude.{◌≡◌, ◌↔◌, ◌&&◌, length, IsTrue, IfOk, MatchOption};
ghost use Rattle.std.specs.List.{list_any};
ghost use Rattle.std.specs.Cmp.Lexicographic.{slice_cmp};
ghost use Rattle.std.specs.Ordering.{nat_cmp, is_lt, is_le};
ghost use Rattle.ipa_logic.specs.Facts.{has, fact_cmp};
ghost use Rattle.ipa_logic.specs.Groups.{key_of, is_in_group, group_of, Within};
ghost use Rattle.ipa_logic.specs.DueDrops.{IsFirstOver, aged_cmp, IsDueDrop};
ghost use Rattle.ipa_logic.specs.declared.facts.Fact.{Fact as TheFact};
ghost use Rattle.ipa_history.specs.Ages.{age_of};
ghost use Rattle.ipa_history.specs.PlainDrops.{is_exceeded, is_over, NoneOver, IsFirstTested, has_lesser, comes_after, has_later, is_due};
ghost use Rattle.ipa_history.specs.Legality.{IsDropOf};

use crate::ages::age_of;
use crate::history::Tx;
use ipa_logic::{Fact, State, drop_effect, fact_given};
use ipa_spec::laws::spec_is_fit;
use ipa_spec::{Bound, Pick, Spec};
use std::alloc::{AllocError, Global};

// The first bound that a group exceeds, or `None` where the state is within the bounds.
pub(crate) fn first_over(
    alloc: Global,
    spec: &Spec,
    state: &State,
) -> Result<Option<u8>, AllocError>
    ensures { IfOk result (λ first. MatchOption first (Within spec.now.bounds state.now)
        (IsFirstOver spec.now.bounds state.now)) }
{
    let facts = state.to_vec(alloc)?;
    Ok(first_over_among(spec, facts.as_slice()))
}

// Whether the drop of this bound with the transaction's arguments is the one that is due in the state, where the
// members of the transaction's cut are known.
pub(crate) fn is_drop_of(
    alloc: Global,
    spec: &Spec,
    number: u8,
    members: &[Tx],
    tx: &Tx,
    state: &State,
) -> Result<bool, AllocError>
    ensures { IfOk result (λ is. IsTrue is ↔ IsDropOf spec.now number members.now tx.now state.now) }
{
    let facts = state.to_vec(alloc)?;
    Ok(is_drop_among(spec, number, members, tx, facts.as_slice()))
}

// The same, where these facts are true.
fn is_drop_among(spec: &Spec, number: u8, members: &[Tx], tx: &Tx, facts: &[Fact]) -> bool
    ensures { IsTrue result ↔ IsDropOf spec.now number members.now tx.now facts.now }
{
    let Some(bound) = spec.bounds().get(number as usize) else {
        return false;
    };
    let fact = fact_given(spec, &drop_effect(spec, bound), &tx.args);
    match first_over_among(spec, facts) {
        Some(first) => first == number && is_due(spec, members, bound, facts, &fact),
        None => false,
    }
}

// The first bound that a group of these facts exceeds, or `None` where they are within the bounds.
fn first_over_among(spec: &Spec, facts: &[Fact]) -> Option<u8>
    ensures { MatchOption result (NoneOver spec.now.bounds facts.now) (IsFirstTested spec.now.bounds facts.now) }
{
    spec_is_fit(spec);
    for (number, bound) in spec.bounds().as_slice().iter().enumerate() {
        if is_over(bound, facts) {
            return Some(number as u8);
        }
    }
    None
}

// Whether a group of the bound exceeds it.
fn is_over(bound: &Bound, facts: &[Fact]) -> bool
    ensures { result ≡ is_over bound.now facts.now }
{
    facts
        .iter()
        .any(|fact| is_exceeded(bound, &key_of(bound, fact), facts))
}

// Whether the group of the key has more facts than the bound allows.
fn is_exceeded(bound: &Bound, key: &[u16; 3], facts: &[Fact]) -> bool
    ensures { result ≡ is_exceeded bound.now key.now facts.now }
{
    usize::from(bound.most) < group_size(bound, key, facts)
}

// The number of facts in the group of the key.
fn group_size(bound: &Bound, key: &[u16; 3], facts: &[Fact]) -> usize
    ensures { result ≡ length (group_of bound.now key.now facts.now) }
{
    facts
        .iter()
        .filter(|fact| is_in_group(bound, key, fact))
        .count()
}

// The elements of the fact in all places but the counted one, where 0 stands.
fn key_of(bound: &Bound, fact: &Fact) -> [u16; 3]
    ensures { result ≡ key_of bound.now fact.now }
{
    let mut key = fact.args;
    if (bound.counted as usize) < key.len() {
        key[bound.counted as usize] = 0;
    }
    key
}

// Whether the fact is in the group of the key.
fn is_in_group(bound: &Bound, key: &[u16; 3], fact: &Fact) -> bool
    ensures { result ≡ is_in_group bound.now key.now fact.now }
{
    fact.predicate == bound.predicate && key_of(bound, fact).cmp(key).is_eq()
}

// Whether, of the bound, the drop of this fact is due.
fn is_due(spec: &Spec, members: &[Tx], bound: &Bound, facts: &[Fact], fact: &Fact) -> bool
    ensures { result ≡ is_due bound.now (age_of spec.now members.now) facts.now fact.now }
{
    let key = key_of(bound, fact);
    fact.predicate == bound.predicate
        && is_among(facts, fact)
        && is_exceeded(bound, &key, facts)
        && !has_lesser(bound, &key, facts)
        && !has_later(spec, members, bound, &key, facts, fact)
}

// Whether the fact is one of these.
fn is_among(facts: &[Fact], fact: &Fact) -> bool
    ensures { result ≡ has facts.now fact.now }
{
    facts.iter().any(|other| fact.cmp(other).is_eq())
}

// Whether a group with a lesser key exceeds the bound.
fn has_lesser(bound: &Bound, key: &[u16; 3], facts: &[Fact]) -> bool
    ensures { result ≡ has_lesser bound.now key.now facts.now }
{
    facts
        .iter()
        .any(|fact| leads_excess(bound, key, facts, fact))
}

// Whether the fact's key is lesser, and its group exceeds the bound.
fn leads_excess(bound: &Bound, key: &[u16; 3], facts: &[Fact], fact: &Fact) -> bool
    ensures { result ≡ (is_lt (slice_cmp nat_cmp (key_of bound.now fact.now) key.now)
        && is_exceeded bound.now (key_of bound.now fact.now) facts.now) }
{
    let own = key_of(bound, fact);
    own.cmp(key).is_lt() && is_exceeded(bound, &own, facts)
}

// Whether a fact of the group is picked before this one.
fn has_later(
    spec: &Spec,
    members: &[Tx],
    bound: &Bound,
    key: &[u16; 3],
    facts: &[Fact],
    fact: &Fact,
) -> bool
    ensures { result ≡ has_later bound.now (age_of spec.now members.now) key.now facts.now fact.now }
{
    facts.iter().any(|other| is_in_group(bound, key, other)
        && comes_after(spec, members, bound.pick, other, fact))
}

// Whether one fact is picked before the other.
fn comes_after(spec: &Spec, members: &[Tx], pick: Pick, one: &Fact, other: &Fact) -> bool
    ensures { result ≡ comes_after pick (age_of spec.now members.now) one.now other.now }
{
    match pick {
        Pick::Greatest => !one.cmp(other).is_le(),
        Pick::Youngest => !is_at_most_as_young(spec, members, one, other),
    }
}

// Whether one fact is not younger than the other, and of one age not greater.
fn is_at_most_as_young(spec: &Spec, members: &[Tx], one: &Fact, other: &Fact) -> bool
    ensures { result ≡ is_le (aged_cmp (age_of spec.now members.now) one.now other.now) }
{
    age_of(spec, members, one)
        .cmp(&age_of(spec, members, other))
        .then(one.cmp(other))
        .is_le()
}
