//! From what is asked to demands, and from demands to the first state.
ghost use Rattle.std.specs.Prelude.{◌≡◌, ◌++◌, Bool, map, IfOk, MatchOption};
ghost use Rattle.ipa_spec.specs.Actions.{needs_of};
ghost use Rattle.ipa_logic.specs.Touches.{touch_of};
ghost use Rattle.ipa_logic.specs.declared.facts.Fact.{Fact as TheFact};
ghost use Rattle.ipa_pairs.specs.Asked.{AnswersEach, IsGathered, asked_by_touch, asked_by_need, asked_after, asks_of_literal, asks_of_drop};

use crate::asking::{Asked, asked_after, asked_by_need, asked_by_touch, asked_for, of_fact};
use ipa_logic::{Fact, drop_effect, fact_given, needs_of};
use ipa_models::Demand;
use ipa_spec::{Action, Bound, List, Literal, Spec};
use std::alloc::{AllocError, Global};

// What is asked of the facts that the action touches.
fn asks_of_facts(
    alloc: Global,
    spec: &Spec,
    facts: &[Fact],
    action: Action,
    args: &[u16; 4],
) -> Result<Vec<Asked>, AllocError>
    ensures { IfOk result (λ asks. asks.items ≡ map (λ f. asked_by_touch f (touch_of spec.now action args.now f)) facts.now) }
{
    facts
        .iter()
        .map(|fact| asked_by_touch(spec, action, args, fact))
        .collect(alloc)
}

// What is asked by the needs of the action.
fn asks_of_needs(
    alloc: Global,
    spec: &Spec,
    action: Action,
    args: &[u16; 4],
) -> Result<Vec<Asked>, AllocError>
    ensures { IfOk result (λ asks. asks.items ≡ map (asked_by_need spec.now action args.now) (needs_of spec.now action)) }
{
    needs_of(spec, action)
        .iter()
        .map(|need| asked_by_need(spec, action, args, need))
        .collect(alloc)
}

/// All that is asked of a state that the action can have left, in which the literal is as it is
/// wanted, if anything is wanted of it.
pub(crate) fn asks_of_fitting(
    alloc: Global,
    spec: &Spec,
    facts: &[Fact],
    action: Action,
    args: &[u16; 4],
    values: &[u16; 4],
    literal: &Literal,
    wanted: Option<bool>,
) -> Result<Vec<Asked>, AllocError>
    ensures { IfOk result (λ asks. asks.items ≡
        (map (λ f. asked_by_touch f (touch_of spec.now action args.now f)) facts.now ++ map (asked_by_need spec.now action args.now) (needs_of spec.now action))
        ++ asks_of_literal spec.now values.now literal.now wanted) }
{
    let mut asks = asks_of_facts(alloc, spec, facts, action, args)?;
    let mut needs = asks_of_needs(alloc, spec, action, args)?;
    asks.append(&mut needs)?;
    if let Some(holds) = wanted {
        asks.push(asked_for(spec, values, literal, holds))?;
    }
    Ok(asks)
}

/// All that is asked of a state in which the drop with these arguments breaks the instance.
pub(crate) fn asks_of_drop(
    alloc: Global,
    spec: &Spec,
    bound: &Bound,
    number: u8,
    args: &[u16; 4],
    values: &[u16; 4],
    literals: &[Literal],
) -> Result<Vec<Asked>, AllocError>
    ensures { IfOk result (λ asks. asks.items ≡
        asks_of_drop spec.now number bound.now args.now values.now literals.now) }
{
    let mut asks = vec![in alloc;
        of_fact(fact_given(spec, &drop_effect(spec, bound), args), true),
    ]?;
    let mut others = asks_of_literals(alloc, spec, Action::Drop(number), args, values, literals)?;
    asks.append(&mut others)?;
    Ok(asks)
}

// What is asked so that each literal is false after the action.
fn asks_of_literals(
    alloc: Global,
    spec: &Spec,
    action: Action,
    args: &[u16; 4],
    values: &[u16; 4],
    literals: &[Literal],
) -> Result<Vec<Asked>, AllocError>
    ensures { IfOk result (λ asks. asks.items ≡ map (asked_after spec.now action args.now values.now) literals.now) }
{
    literals
        .iter()
        .map(|literal| asked_after(spec, action, args, values, literal))
        .collect(alloc)
}

/// The demands of all that is asked, and `None` where something is impossible.
pub(crate) fn demands_of(alloc: Global, asks: &[Asked]) -> Result<Option<List<Demand>>, AllocError>
    ensures { IfOk result (λ found. MatchOption found
        ((t : TheFact → Bool) → AnswersEach t asks.now → ⊥)
        (λ demands. IsGathered asks.now demands)) }
{
    let mut demands = List::new(alloc);
    for asked in asks {
        match asked {
            Asked::Nothing => {}
            Asked::Impossible => return Ok(None),
            Asked::OfFact(demand) => demands.push(*demand)?,
        }
    }
    Ok(Some(demands))
}
