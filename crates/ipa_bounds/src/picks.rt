//! The fact of a group that a drop removes.
//!
//! One walk over the group keeps the youngest of its facts, and of facts of one age the greatest. To a bound
//! that picks the greatest fact all facts are of one age.
ghost use Rattle.std.specs.Prelude.{◌≡◌, [], true, MatchOption};
ghost use Rattle.ipa_logic.specs.Facts.{has};
ghost use Rattle.ipa_logic.specs.Groups.{group_of};
ghost use Rattle.ipa_logic.specs.DueDrops.{IsPicked};
ghost use Rattle.ipa_bounds.specs.Picks.{pick_ages, IsYoungerOf, IsBestOf};

use crate::ages::AgedView;
use crate::members::next_member;
use ipa_logic::{Age, Fact};
use ipa_spec::{Bound, Pick};

// A fact with the age that it has to a bound. They are ordered by age, and those of one age as facts are.
#[derive(Clone, Copy, PartialEq, Eq, PartialOrd, Ord)]
pub(crate) struct Aged {
    age: Age,
    fact: Fact,
}

// The fact of the group of this key that the bound picks, or `None` where the group has no fact.
pub(crate) fn picked_of_group<V: AgedView>(view: &V, bound: &Bound, key: &[u16; 3]) -> Option<Fact>
    ensures { MatchOption result (group_of bound.now key.now (V.facts view.now) ≡ [])
        (IsPicked bound.now.pick (V.ages view.now) (group_of bound.now key.now (V.facts view.now))) }
{
    let youngest = youngest_of_group(view, bound, key)?;
    Some(youngest.fact)
}

// The youngest fact of the group of this key by the ages that facts have to the bound, and of several the greatest.
fn youngest_of_group<V: AgedView>(view: &V, bound: &Bound, key: &[u16; 3]) -> Option<Aged>
    ensures { IsBestOf (pick_ages bound.now.pick (V.ages view.now)) (group_of bound.now key.now (V.facts view.now)) result }
{
    let mut best = None;
    let mut last = None;
    while let Some(fact) = next_member(view, bound, key, last) {
        let age = age_to(view, bound, &fact);
        best = Some(younger(best, Aged { age, fact }));
        last = Some(fact);
    }
    best
}

// The age that a true fact has to the bound.
fn age_to<V: AgedView>(view: &V, bound: &Bound, fact: &Fact) -> Age
    requires { has (V.facts view.now) fact.now ≡ true }
    ensures { result ≡ pick_ages bound.now.pick (V.ages view.now) fact.now }
{
    match bound.pick {
        Pick::Greatest => Age { size: 0, origin: 0 },
        Pick::Youngest => view.age(fact),
    }
}

// The later, in their order, of the best so far, if there is one, and a fact with its age.
fn younger(best: Option<Aged>, aged: Aged) -> Aged
    ensures { IsYoungerOf best aged result }
{
    match best {
        None => aged,
        Some(best) => { if aged.cmp(&best).is_lt() { best } else { aged } }
    }
}
