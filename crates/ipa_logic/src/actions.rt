//! The actions of a specification: their effects and the sorts of their arguments.
ghost use Rattle.std.specs.Prelude.{◌≡◌, ◌↔◌, ◌<◌, IsTrue, length, slice_get, take};
ghost use Rattle.std.specs.Option.{option_copied};
ghost use Rattle.ipa_spec.specs.Actions.{IsAction, effects_of, sorts_of, sorts_of_vars, drop_effects, place_sorts};
ghost use Rattle.ipa_logic.specs.Acceptance.{drop_args};

use crate::effects::drop_effect;
use crate::facts::Fact;
use ipa_spec::{Action, Bound, Effect, List, Predicate, Spec, Var};

/// Whether the specification declares the action.
pub fn is_action(spec: &Spec, action: Action) -> bool
    ensures { IsTrue result ↔ IsAction spec.now action }
{
    match action {
        Action::Op(number) => (number as usize) < spec.operations().len(),
        Action::Drop(number) => (number as usize) < spec.bounds().len(),
    }
}

/// The effect of the action at a place, or `None` where it has no more. A drop first removes its own fact.
pub fn effect_at(spec: &Spec, action: Action, place: usize) -> Option<Effect>
    ensures { result ≡ slice_get (effects_of spec.now action) place }
{
    match action {
        Action::Op(number) => match spec.operations().get(number as usize) {
            Some(operation) => operation.effects.get(place).copied(),
            None => None,
        },
        Action::Drop(number) => match spec.bounds().get(number as usize) {
            Some(bound) => drop_effect_at(spec, bound, place),
            None => None,
        },
    }
}

fn drop_effect_at(spec: &Spec, bound: &Bound, place: usize) -> Option<Effect>
    ensures { result ≡ slice_get (drop_effects spec.now.predicates bound.now) place }
{
    if place == 0 {
        return Some(drop_effect(spec, bound));
    }
    bound.removes.get(place - 1).copied()
}

/// The sort of the argument of the action at a place, or `None` where it has no more. The arguments of a drop are the
/// elements of its fact.
pub fn argument_sort(spec: &Spec, action: Action, place: usize) -> Option<u8>
    ensures { result ≡ slice_get (sorts_of spec.now action) place }
{
    match action {
        Action::Op(number) => match spec.operations().get(number as usize) {
            Some(operation) => variable_sort(&operation.params, place),
            None => None,
        },
        Action::Drop(number) => match spec.bounds().get(number as usize) {
            Some(bound) => place_sort(spec, bound.predicate, place),
            None => None,
        },
    }
}

fn variable_sort(variables: &List<Var>, place: usize) -> Option<u8>
    ensures { result ≡ slice_get (sorts_of_vars variables.now) place }
{
    variables.get(place).map(|variable| variable.sort)
}

fn place_sort(spec: &Spec, predicate: u8, place: usize) -> Option<u8>
    ensures { result ≡ slice_get (place_sorts spec.now.predicates predicate) place }
{
    match spec.predicates().get(predicate as usize) {
        Some(predicate) => sort_within(predicate, place),
        None => None,
    }
}

fn sort_within(predicate: &Predicate, place: usize) -> Option<u8>
    ensures { result ≡ slice_get (take predicate.now.arity predicate.now.sorts) place }
{
    if place < predicate.arity as usize {
        predicate.sorts.get(place).copied()
    } else {
        None
    }
}

/// The arguments of the drop that removes the fact.
pub fn drop_args(fact: &Fact) -> [u16; 4]
    ensures { result ≡ drop_args fact.now }
{
    [fact.args[0], fact.args[1], fact.args[2], 0]
}
