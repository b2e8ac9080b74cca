//! The plain application of an action to a state.
ghost use Rattle.std.specs.Prelude.{◌≡◌, ◌&&◌, ◌||◌, not, OnOk, OnErr, IfOk};
ghost use Rattle.std.specs.Ordering.{is_eq};
ghost use Rattle.ipa_spec.specs.Actions.{effects_of};
ghost use Rattle.ipa_logic.specs.Facts.{has, fact_cmp, IsRising};
ghost use Rattle.ipa_logic.specs.Touches.{gives, some_gives, some_takes, IsAfter};

use crate::effects::{fact_given, matches_remove};
use crate::facts::Fact;
use crate::state::State;
use ipa_spec::{Action, Effect, Spec};
use std::alloc::{AllocError, Global};

/// The state after the action with these arguments: with the facts that it adds, and without those that it removes.
pub fn apply_plain(
    alloc: Global,
    spec: &Spec,
    action: Action,
    args: &[u16; 4],
    state: &State,
) -> Result<State, AllocError>
    ensures { IfOk result (λ after. IsAfter spec.now action args.now state.now after) }
{
    let mut after = without_removed(alloc, spec, action, args, state)?;
    match action {
        Action::Op(number) => match spec.operations().get(number as usize) {
            Some(operation) => insert_given(&mut after, spec, operation.effects.as_slice(), args)?,
            None => (),
        },
        Action::Drop(number) => match spec.bounds().get(number as usize) {
            Some(bound) => insert_given(&mut after, spec, bound.removes.as_slice(), args)?,
            None => (),
        },
    }
    Ok(after)
}

// The state without the facts that a remove of the action matches.
fn without_removed(
    alloc: Global,
    spec: &Spec,
    action: Action,
    args: &[u16; 4],
    state: &State,
) -> Result<State, AllocError>
    ensures { IfOk result (λ left. (f : Fact) → has left f ≡ (has state.now f && not (some_takes spec.now (effects_of spec.now action) args.now f))) }
{
    let mut left = State::new(alloc);
    for fact in state.facts.iter() {
        keep_unless_removed(&mut left, spec, action, args, fact)?;
    }
    Ok(left)
}

// Makes the fact true, unless a remove of the action matches it.
fn keep_unless_removed(
    left: &mut State,
    spec: &Spec,
    action: Action,
    args: &[u16; 4],
    fact: &Fact,
) -> Result<(), AllocError>
    ensures { OnOk result ((f : Fact) → has left.new f ≡ ((is_eq (fact_cmp fact.now f) && not (some_takes spec.now (effects_of spec.now action) args.now f)) || has left.old f)) }
{
    if matches_remove(spec, action, args, fact) {
        return Ok(());
    }
    left.insert(*fact)?;
    Ok(())
}

// Makes the facts true that the adds among the effects give.
fn insert_given(
    state: &mut State,
    spec: &Spec,
    effects: &[Effect],
    args: &[u16; 4],
) -> Result<(), AllocError>
    ensures { OnOk result ((f : Fact) → has state.new f ≡ (some_gives spec.now effects.now args.now f || has state.old f)) }
{
    for effect in effects {
        insert_if_add(state, spec, effect, args)?;
    }
    Ok(())
}

// Makes the fact true that the effect gives, where it is an add.
fn insert_if_add(
    state: &mut State,
    spec: &Spec,
    effect: &Effect,
    args: &[u16; 4],
) -> Result<(), AllocError>
    ensures { OnOk result ((f : Fact) → has state.new f ≡ (gives spec.now args.now f effect.now || has state.old f)) }
{
    if !effect.add {
        return Ok(());
    }
    state.insert(fact_given(spec, effect, args))?;
    Ok(())
}
