//! What an action does to a fact.
ghost use Rattle.std.specs.Prelude.{◌≡◌, ◌<◌};
ghost use Rattle.ipa_spec.specs.Actions.{effects_of, drop_effect, drop_arg, arity_of};
ghost use Rattle.ipa_logic.specs.Touches.{matches_at, matches, given_at, fact_given, gives, takes, some_gives, some_takes, adds, touch_of};

use crate::facts::{Fact, Touch};
use crate::literals::{arity_of, element_of_constant, value_at};
use ipa_spec::{Action, Arg, Bound, Effect, Spec};

/// What the action with these arguments does to the fact. An add prevails over a remove of the same action.
pub fn effect_on(spec: &Spec, action: Action, args: &[u16; 4], fact: &Fact) -> Touch
    ensures { result ≡ touch_of spec.now action args.now fact.now }
{
    if adds(spec, action, args, fact) {
        Touch::Adds
    } else if matches_remove(spec, action, args, fact) {
        Touch::Removes
    } else {
        Touch::Nothing
    }
}

/// Whether one of the action's effects is an add that gives the fact.
pub fn adds(spec: &Spec, action: Action, args: &[u16; 4], fact: &Fact) -> bool
    ensures { result ≡ adds spec.now action args.now fact.now }
{
    match action {
        Action::Op(number) => match spec.operations().get(number as usize) {
            Some(operation) => some_gives(spec, operation.effects.as_slice(), args, fact),
            None => false,
        },
        Action::Drop(number) => match spec.bounds().get(number as usize) {
            Some(bound) => gives(spec, &drop_effect(spec, bound), args, fact)
                || some_gives(spec, bound.removes.as_slice(), args, fact),
            None => false,
        },
    }
}

// Whether one of the action's effects is a remove that matches the fact.
pub(crate) fn matches_remove(spec: &Spec, action: Action, args: &[u16; 4], fact: &Fact) -> bool
    ensures { result ≡ some_takes spec.now (effects_of spec.now action) args.now fact.now }
{
    match action {
        Action::Op(number) => match spec.operations().get(number as usize) {
            Some(operation) => some_takes(spec, operation.effects.as_slice(), args, fact),
            None => false,
        },
        Action::Drop(number) => match spec.bounds().get(number as usize) {
            Some(bound) => takes(spec, &drop_effect(spec, bound), args, fact)
                || some_takes(spec, bound.removes.as_slice(), args, fact),
            None => false,
        },
    }
}

/// The remove by which a drop takes away the fact that its bound counts.
pub fn drop_effect(spec: &Spec, bound: &Bound) -> Effect
    ensures { result ≡ drop_effect spec.now.predicates bound.now }
{
    let arity = arity_of(spec, bound.predicate);
    Effect {
        add: false,
        predicate: bound.predicate,
        args: [drop_arg(arity, 0), drop_arg(arity, 1), drop_arg(arity, 2)],
    }
}

fn drop_arg(arity: u8, place: u8) -> Arg
    ensures { result ≡ drop_arg arity place }
{
    if place < arity {
        Arg::Var(place)
    } else {
        Arg::Any
    }
}

fn some_gives(spec: &Spec, effects: &[Effect], args: &[u16; 4], fact: &Fact) -> bool
    ensures { result ≡ some_gives spec.now effects.now args.now fact.now }
{
    effects.iter().any(|effect| gives(spec, effect, args, fact))
}

fn gives(spec: &Spec, effect: &Effect, args: &[u16; 4], fact: &Fact) -> bool
    ensures { result ≡ gives spec.now args.now fact.now effect.now }
{
    effect.add && fact_given(spec, effect, args).cmp(fact).is_eq()
}

fn some_takes(spec: &Spec, effects: &[Effect], args: &[u16; 4], fact: &Fact) -> bool
    ensures { result ≡ some_takes spec.now effects.now args.now fact.now }
{
    effects.iter().any(|effect| takes(spec, effect, args, fact))
}

fn takes(spec: &Spec, effect: &Effect, args: &[u16; 4], fact: &Fact) -> bool
    ensures { result ≡ takes spec.now args.now fact.now effect.now }
{
    !effect.add && matches(spec, effect, args, fact)
}

/// The fact that an add gives.
pub fn fact_given(spec: &Spec, effect: &Effect, args: &[u16; 4]) -> Fact
    ensures { result ≡ fact_given spec.now args.now effect.now }
{
    Fact {
        predicate: effect.predicate,
        args: [
            given_at(spec, effect, args, 0),
            given_at(spec, effect, args, 1),
            given_at(spec, effect, args, 2),
        ],
    }
}

fn given_at(spec: &Spec, effect: &Effect, args: &[u16; 4], place: usize) -> u16
    requires { place < 3 }
    ensures { result ≡ given_at spec.now args.now effect.now place }
{
    match effect.args[place] {
        Arg::Var(variable) => value_at(args, variable),
        Arg::Const(constant) => element_of_constant(spec, constant),
        Arg::Any => 0,
    }
}

/// Whether the effect matches the fact.
pub fn matches(spec: &Spec, effect: &Effect, args: &[u16; 4], fact: &Fact) -> bool
    ensures { result ≡ matches spec.now args.now effect.now fact.now }
{
    effect.predicate == fact.predicate
        && matches_at(spec, effect, args, fact, 0)
        && matches_at(spec, effect, args, fact, 1)
        && matches_at(spec, effect, args, fact, 2)
}

fn matches_at(spec: &Spec, effect: &Effect, args: &[u16; 4], fact: &Fact, place: usize) -> bool
    requires { place < 3 }
    ensures { result ≡ matches_at spec.now args.now effect.now fact.now place }
{
    match effect.args[place] {
        Arg::Var(variable) => value_at(args, variable) == fact.args[place],
        Arg::Const(constant) => element_of_constant(spec, constant) == fact.args[place],
        Arg::Any => true,
    }
}
