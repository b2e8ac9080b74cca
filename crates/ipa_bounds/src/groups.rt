//! Groups of facts that a bound counts together.
ghost use Rattle.std.specs.Prelude.{◌≡◌, ◌↔◌, IsTrue, Some, MatchOption};
ghost use Rattle.ipa_logic.specs.Groups.{key_of, is_in_group};
ghost use Rattle.ipa_logic.specs.DueDrops.{Exceeds, IsWithin, IsLeastOver};
ghost use Rattle.ipa_bounds.specs.Choices.{comes_before, first_of, LeadsExcess, Improves};

use crate::members::next_member;
use crate::runs::{Found, least_in_order};
use ipa_logic::{Fact, View, true_facts};
use ipa_spec::Bound;

/// The key of the fact's group: its elements in all places but the counted one, where 0 stands.
pub fn key_of(bound: &Bound, fact: &Fact) -> [u16; 3]
    ensures { result ≡ key_of bound.now fact.now }
{
    let mut key = fact.args;
    if (bound.counted as usize) < key.len() {
        key[bound.counted as usize] = 0;
    }
    key
}

// Whether the fact is in the group of this key.
pub(crate) fn is_in_group(bound: &Bound, key: &[u16; 3], fact: &Fact) -> bool
    ensures { result ≡ is_in_group bound.now key.now fact.now }
{
    fact.predicate == bound.predicate && key_of(bound, fact).cmp(key).is_eq()
}

/// Whether the group of this key has more facts than the bound allows. It looks at facts of the group alone, and at few
/// others.
pub fn exceeds<V: View>(view: &V, bound: &Bound, key: &[u16; 3]) -> bool
    ensures { IsTrue result ↔ Exceeds bound.now key.now (V.facts view.now) }
{
    let mut count = 0;
    let mut last = None;
    while let Some(fact) = next_member(view, bound, key, last) {
        if count == bound.most {
            return true;
        }
        count += 1;
        last = Some(fact);
    }
    false
}

// Whether the fact is the first of the group of this key.
fn is_first<V: View>(view: &V, bound: &Bound, key: &[u16; 3], fact: &Fact) -> bool
    ensures { IsTrue result ↔ (first_of bound.now key.now (V.facts view.now) ≡ Some fact.now) }
{
    match next_member(view, bound, key, None) {
        Some(first) => first.cmp(fact).is_eq(),
        None => false,
    }
}

// Whether the fact is the first of its group, and the group has more facts than the bound allows.
fn leads_excess<V: View>(view: &V, bound: &Bound, fact: &Fact) -> bool
    ensures { IsTrue result ↔ LeadsExcess bound.now (V.facts view.now) fact.now }
{
    let key = key_of(bound, fact);
    is_first(view, bound, &key, fact) && exceeds(view, bound, &key)
}

// A fact of the group of least key that has more facts than the bound allows, or `None` where no group has.
pub(crate) fn least_over<V: View>(view: &V, bound: &Bound) -> Option<Fact>
    ensures { MatchOption result (IsWithin bound.now (V.facts view.now)) (λ f. IsLeastOver bound.now (key_of bound.now f) (V.facts view.now)) }
{
    match least_in_order(view, bound) {
        Found::InOrder(over) => over,
        Found::OutOfOrder => least_by_key(view, bound),
    }
}

// The same, in whatever order the keys come: the group of each fact that is its first, and whose key comes before
// the best so far, is counted.
fn least_by_key<V: View>(view: &V, bound: &Bound) -> Option<Fact>
    ensures { MatchOption result (IsWithin bound.now (V.facts view.now)) (λ f. IsLeastOver bound.now (key_of bound.now f) (V.facts view.now)) }
{
    let mut best = None;
    for fact in true_facts(view, bound.predicate) {
        best = better(view, bound, best, fact);
    }
    best
}

// The fact, where it is the first of a group over the bound whose key comes before that of the best so far, and
// otherwise the best so far.
fn better<V: View>(view: &V, bound: &Bound, best: Option<Fact>, fact: Fact) -> Option<Fact>
    ensures { Improves bound.now (V.facts view.now) best fact result }
{
    if comes_before(bound, &fact, best) && leads_excess(view, bound, &fact) {
        Some(fact)
    } else {
        best
    }
}

// Whether the fact's key comes before that of the best so far, if there is one.
fn comes_before(bound: &Bound, fact: &Fact, best: Option<Fact>) -> bool
    ensures { result ≡ comes_before bound.now fact.now best }
{
    match best {
        None => true,
        Some(best) => key_of(bound, fact).cmp(&key_of(bound, &best)).is_lt(),
    }
}
