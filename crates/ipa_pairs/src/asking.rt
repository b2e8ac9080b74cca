//! What is asked of a state so that it can stand after an action, or before a drop.
ghost use Rattle.std.specs.Prelude.{◌≡◌, not, if◌then◌else◌};
ghost use Rattle.ipa_logic.specs.Touches.{touches_need, touch_of};
ghost use Rattle.ipa_pairs.specs.Asked.{of_fact, decided, asked_for, asked_by_touch, asked_by_need, asked_before, asked_after};

use ipa_logic::{Fact, Touch, effect_on, fact_of, has_same_value, makes_false, makes_true};
use ipa_models::Demand;
use ipa_spec::{Action, Literal, Spec};

/// What is asked of a state.
#[derive(Clone, Copy)]
pub(crate) enum Asked {
    /// Nothing.
    Nothing,
    /// What no state has.
    Impossible,
    /// That a fact is true, or that it is not.
    OfFact(Demand),
}

/// What is asked so that the literal is true, or so that it is false.
pub(crate) fn asked_for(spec: &Spec, values: &[u16; 4], literal: &Literal, holds: bool) -> Asked
    ensures { result ≡ asked_for spec.now values.now literal.now holds }
{
    match literal {
        Literal::Holds(atom) => of_fact(fact_of(spec, atom, values), holds),
        Literal::Fails(atom) => of_fact(fact_of(spec, atom, values), !holds),
        Literal::Same(one, other) => decided_as(has_same_value(spec, values, *one, *other), holds),
        Literal::Differ(one, other) => decided_as(
            has_same_value(spec, values, *one, *other),
            !holds,
        ),
    }
}

/// What is asked of a fact in a state that the action can have left.
pub(crate) fn asked_by_touch(spec: &Spec, action: Action, args: &[u16; 4], fact: &Fact) -> Asked
    ensures { result ≡ asked_by_touch fact.now (touch_of spec.now action args.now fact.now) }
{
    match effect_on(spec, action, args, fact) {
        Touch::Adds => of_fact(*fact, true),
        Touch::Removes => of_fact(*fact, false),
        Touch::Nothing => Asked::Nothing,
    }
}

/// What a need asks of the state after its action.
pub(crate) fn asked_by_need(spec: &Spec, action: Action, args: &[u16; 4], need: &Literal) -> Asked
    ensures { result ≡ asked_by_need spec.now action args.now need.now }
{
    if touches_need(spec, action, args, need) {
        Asked::Nothing
    } else {
        asked_for(spec, args, need, true)
    }
}

/// What is asked before the action so that the literal is false after it.
pub(crate) fn asked_after(
    spec: &Spec,
    action: Action,
    args: &[u16; 4],
    values: &[u16; 4],
    literal: &Literal,
) -> Asked
    ensures { result ≡ asked_after spec.now action args.now values.now literal.now }
{
    match literal {
        Literal::Holds(atom) => asked_before(
            spec,
            action,
            args,
            fact_of(spec, atom, values),
            false,
        ),
        Literal::Fails(atom) => asked_before(spec, action, args, fact_of(spec, atom, values), true),
        Literal::Same(one, other) => decided(!has_same_value(spec, values, *one, *other)),
        Literal::Differ(one, other) => decided(has_same_value(spec, values, *one, *other)),
    }
}

// What is asked of the fact before the action so that it is true after it, or so that it is not.
fn asked_before(spec: &Spec, action: Action, args: &[u16; 4], fact: Fact, holds: bool) -> Asked
    ensures { result ≡ asked_before fact (touch_of spec.now action args.now fact) holds }
{
    match effect_on(spec, action, args, &fact) {
        Touch::Adds => decided(holds),
        Touch::Removes => decided(!holds),
        Touch::Nothing => of_fact(fact, holds),
    }
}

/// That the fact is true, or that it is not.
pub(crate) fn of_fact(fact: Fact, holds: bool) -> Asked
    ensures { result ≡ of_fact fact holds }
{
    Asked::OfFact(Demand { fact, holds })
}

// What holds whatever the facts are asks nothing, and what does not is impossible.
fn decided(holds: bool) -> Asked
    ensures { result ≡ decided holds }
{
    if holds {
        Asked::Nothing
    } else {
        Asked::Impossible
    }
}

// What is asked where something that is decided has to be true, or has to be false.
fn decided_as(is: bool, holds: bool) -> Asked
    ensures { result ≡ decided (if holds then is else not is) }
{
    decided(if holds { is } else { !is })
}

// Whether the effects of the action touch the fact of one of its needs.
fn touches_need(spec: &Spec, action: Action, args: &[u16; 4], need: &Literal) -> bool
    ensures { result ≡ touches_need spec.now action args.now need.now }
{
    makes_true(spec, action, args, args, need) || makes_false(spec, action, args, args, need)
}
