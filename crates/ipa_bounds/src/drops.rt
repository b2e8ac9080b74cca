//! Whether a state is within the bounds, and the drop that is due where it is not.
ghost use Rattle.std.specs.Prelude.{◌≡◌, ◌↔◌, IsTrue, MatchOption, MatchBool, length};
ghost use Rattle.ipa_logic.specs.Groups.{Within};
ghost use Rattle.ipa_logic.specs.DueDrops.{IsWithin, IsFirstOver, IsDueDrop};
ghost use Rattle.ipa_bounds.specs.Choices.{IsChosen, IsOverAt, IsWithinAt};

use crate::ages::AgedView;
use crate::groups::{key_of, least_over};
use crate::picks::picked_of_group;
use ipa_logic::{Fact, View};
use ipa_spec::laws::spec_is_fit;
use ipa_spec::{Bound, Spec};

/// A drop: what a state that is over a bound is to lose.
#[derive(Clone, Copy, PartialEq, Eq)]
pub struct DropOf {
    /// The number of the bound.
    pub bound: u8,
    /// The fact that the drop removes.
    pub fact: Fact,
}

/// The drop that is due in the viewed state, or `None` where it is within the bounds.
pub fn first_drop<V: AgedView>(spec: &Spec, view: &V) -> Option<DropOf>
    ensures due { MatchOption result (Within spec.now.bounds (V.facts view.now))
        (λ drop. IsDueDrop spec.now.bounds (V.facts view.now) (V.ages view.now) drop.bound drop.fact) }
{
    let number = first_over_in(spec, view)?;
    let bound = spec.bounds().get(number as usize)?;
    let fact = fact_to_drop(view, bound)?;
    Some(DropOf {
        bound: number,
        fact,
    })
}

/// Whether no group of a bound has more facts than the bound allows.
pub fn within<V: View>(spec: &Spec, view: &V) -> bool
    ensures { IsTrue result ↔ Within spec.now.bounds (V.facts view.now) }
{
    first_over_in(spec, view).is_none()
}

// The first bound that a group of the viewed state exceeds, or `None` where the state is within the bounds.
pub(crate) fn first_over_in<V: View>(spec: &Spec, view: &V) -> Option<u8>
    ensures { MatchOption result (Within spec.now.bounds (V.facts view.now)) (IsFirstOver spec.now.bounds (V.facts view.now)) }
{
    for number in 0..bound_count(spec) {
        if is_over(spec, view, number) {
            return Some(number);
        }
    }
    None
}

// Whether a group exceeds the bound of this number.
fn is_over<V: View>(spec: &Spec, view: &V, number: u8) -> bool
    ensures { MatchBool result (IsOverAt spec.now.bounds (V.facts view.now) number) (IsWithinAt spec.now.bounds (V.facts view.now) number) }
{
    match spec.bounds().get(number as usize) {
        Some(bound) => least_over(view, bound).is_some(),
        None => false,
    }
}

// The number of bounds, at most 8.
fn bound_count(spec: &Spec) -> u8
    ensures { result ≡ length spec.now.bounds }
{
    spec_is_fit(spec);
    spec.bounds().len() as u8
}

// The fact that the drop of this bound removes, or `None` where no group exceeds the bound.
fn fact_to_drop<V: AgedView>(view: &V, bound: &Bound) -> Option<Fact>
    ensures { MatchOption result (IsWithin bound.now (V.facts view.now)) (IsChosen bound.now (V.facts view.now) (V.ages view.now)) }
{
    let least = least_over(view, bound)?;
    picked_of_group(view, bound, &key_of(bound, &least))
}
