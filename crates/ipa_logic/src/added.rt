//! The facts that an action adds, in order.
ghost use Rattle.std.specs.Prelude.{◌≡◌, ◌||◌, ℕ, Bool, Option};
ghost use Rattle.ipa_logic.specs.Touches.{gives, some_gives, adds};
ghost use Rattle.ipa_logic.specs.Views.{is_above, IsNextOf};
ghost use Rattle.ipa_logic.specs.declared.facts.Fact.{Fact as TheFact};

use crate::effects::fact_given;
use crate::facts::Fact;
use ipa_spec::{Action, Effect, Spec};

// The least fact of the predicate above `after` that the action adds.
pub(crate) fn next_added(
    spec: &Spec,
    action: Action,
    args: &[u16; 4],
    predicate: u8,
    after: Option<Fact>,
) -> Option<Fact>
    ensures { IsNextOf (adds spec.now action args.now) predicate after result }
{
    match action {
        Action::Op(number) => match spec.operations().get(number as usize) {
            Some(operation) => next_given(
                spec,
                operation.effects.as_slice(),
                args,
                predicate,
                after,
            ),
            None => None,
        },
        Action::Drop(number) => match spec.bounds().get(number as usize) {
            Some(bound) => next_given(spec, bound.removes.as_slice(), args, predicate, after),
            None => None,
        },
    }
}

// The least fact of the predicate above `after` that an add among the effects gives.
fn next_given(
    spec: &Spec,
    effects: &[Effect],
    args: &[u16; 4],
    predicate: u8,
    after: Option<Fact>,
) -> Option<Fact>
    ensures { IsNextOf (some_gives spec.now effects.now args.now) predicate after result }
{
    let mut least = None;
    for effect in effects {
        least = lesser(least, given_above(spec, effect, args, predicate, after));
    }
    least
}

// The fact that the effect gives, where it is an add on the predicate and the fact is above `after`.
fn given_above(
    spec: &Spec,
    effect: &Effect,
    args: &[u16; 4],
    predicate: u8,
    after: Option<Fact>,
) -> Option<Fact>
    ensures { IsNextOf (λ f. gives spec.now args.now f effect.now) predicate after result }
{
    let fact = fact_given(spec, effect, args);
    if effect.add && fact.predicate == predicate && is_above(after, &fact) {
        Some(fact)
    } else {
        None
    }
}

// The lesser of two facts, or the one that there is: where each is the next to pass a test, it is the next to pass either.
pub(crate) fn lesser(one: Option<Fact>, other: Option<Fact>) -> Option<Fact>
    ensures { (t u : TheFact → Bool) (p : ℕ) (after : Option TheFact) → IsNextOf t p after one → IsNextOf u p after other → IsNextOf (λ f. t f || u f) p after result }
{
    match (one, other) {
        (None, _) => other,
        (_, None) => one,
        (Some(first), Some(second)) => {
            if second.cmp(&first).is_lt() {
                other
            } else {
                one
            }
        }
    }
}

// Whether the fact comes after the given one, if one is given.
fn is_above(after: Option<Fact>, fact: &Fact) -> bool
    ensures { result ≡ is_above after fact.now }
{
    match after {
        None => true,
        Some(after) => after.cmp(fact).is_lt(),
    }
}
