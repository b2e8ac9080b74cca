//! The first bound that an action overfills.
ghost use Rattle.std.specs.Prelude.{◌≡◌, ◌↔◌, IsTrue, MatchOption, MatchBool, length};
ghost use Rattle.ipa_overfill.specs.Overfills.{Spares, SparesBound, Overfills, OverfillsBy, SomeOverfills, EachSpares, IsFirstOverfilled, OverfillsAt, SparesAt};

use ipa_bounds::{exceeds, key_of};
use ipa_logic::{View, fact_given};
use ipa_spec::laws::spec_is_fit;
use ipa_spec::{Action, Bound, Effect, Spec};

/// Whether the action spares all bounds: no group of a fact that it adds exceeds one in the viewed state.
pub fn spares<V: View>(spec: &Spec, view: &V, action: Action, args: &[u16; 4]) -> bool
    ensures { IsTrue result ↔ Spares spec.now action args.now (V.facts view.now) }
{
    first_overfilled(spec, view, action, args).is_none()
}

// The first bound, in declared order, that the action overfills, or `None` where it spares all.
pub(crate) fn first_overfilled<V: View>(
    spec: &Spec,
    view: &V,
    action: Action,
    args: &[u16; 4],
) -> Option<u8>
    ensures { MatchOption result (Spares spec.now action args.now (V.facts view.now))
        (IsFirstOverfilled spec.now action args.now (V.facts view.now)) }
{
    for number in 0..bound_count(spec) {
        if overfills_at(spec, view, number, action, args) {
            return Some(number);
        }
    }
    None
}

// Whether the action overfills the bound of this number.
fn overfills_at<V: View>(spec: &Spec, view: &V, number: u8, action: Action, args: &[u16; 4]) -> bool
    ensures { MatchBool result (OverfillsAt spec.now action args.now (V.facts view.now) number)
        (SparesAt spec.now action args.now (V.facts view.now) number) }
{
    match spec.bounds().get(number as usize) {
        Some(bound) => overfills(spec, view, bound, action, args),
        None => false,
    }
}

// Whether the action overfills the bound. A drop adds no fact.
fn overfills<V: View>(spec: &Spec, view: &V, bound: &Bound, action: Action, args: &[u16; 4]) -> bool
    ensures { MatchBool result (Overfills spec.now action args.now bound.now (V.facts view.now))
        (SparesBound spec.now action args.now bound.now (V.facts view.now)) }
{
    spec_is_fit(spec);
    match action {
        Action::Op(number) => match spec.operations().get(number as usize) {
            Some(operation) => some_overfills(
                spec,
                view,
                bound,
                operation.effects.as_slice(),
                args,
            ),
            None => false,
        },
        Action::Drop(_) => false,
    }
}

// Whether one of the effects overfills the bound.
fn some_overfills<V: View>(
    spec: &Spec,
    view: &V,
    bound: &Bound,
    effects: &[Effect],
    args: &[u16; 4],
) -> bool
    ensures { MatchBool result (SomeOverfills spec.now args.now bound.now (V.facts view.now) effects.now)
        (EachSpares spec.now args.now bound.now (V.facts view.now) effects.now) }
{
    for effect in effects {
        if overfills_by(spec, view, bound, effect, args) {
            return true;
        }
    }
    false
}

// Whether the effect is an add whose fact is in a group that exceeds the bound.
fn overfills_by<V: View>(
    spec: &Spec,
    view: &V,
    bound: &Bound,
    effect: &Effect,
    args: &[u16; 4],
) -> bool
    ensures { IsTrue result ↔ OverfillsBy spec.now args.now bound.now (V.facts view.now) effect.now }
{
    effect.add
        && effect.predicate == bound.predicate
        && exceeds(view, bound, &key_of(bound, &fact_given(spec, effect, args)))
}

// The number of bounds, at most 8.
fn bound_count(spec: &Spec) -> u8
    ensures { result ≡ length spec.now.bounds }
{
    spec_is_fit(spec);
    spec.bounds().len() as u8
}
