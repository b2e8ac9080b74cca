//! The first example of a triple on one pattern.
ghost use Rattle.std.specs.Prelude.{◌≡◌, ◌↔◌, ◌+◌, ◌&&◌, ◌≤◌, not, length, slice_get, Some, IfOk, IsTrue, MatchOption};
ghost use Rattle.std.specs.List.{list_any};
ghost use Rattle.ipa_logic.specs.Touches.{makes_true};
ghost use Rattle.ipa_logic.specs.Conflicts.{can_be_falsified};
ghost use Rattle.ipa_ground.specs.Enumeration.{IsListed};
ghost use Rattle.ipa_ground.specs.Places.{AreSmall};
ghost use Rattle.ipa_reduction.specs.Cases.{constant_counts, triple_sorts, ConflictOn};
ghost use Rattle.ipa_pairs.specs.Analyses.{triple_of};
ghost use Rattle.ipa_pairs.specs.Examples.{IsFirstExampleOn};
ghost use Rattle.ipa_pairs.specs.Openness.{IsOpen, case_of, IsOverCase, can_be_lost, wanted_of, HasNoStates, AreFirstStates};
ghost use Rattle.ipa_pairs.specs.Grounded.{AreOf};
ghost use Rattle.ipa_pairs.specs.Patterned.{IsPatternOf, classes_of};

use crate::analysis::Conflict;
use crate::arguments::{args_from, sort_count};
use crate::fitting::first_fitting;
use crate::groundings::{Grounding, place_of};
use crate::hiding::hidden_facts;
use ipa_ground::Pattern;
use ipa_logic::{
    State, Universe, can_be_falsified, falsifies_some, is_undecided, loses, makes_true,
    makes_winner_true,
};
use ipa_models::Models;
use ipa_reduction::laws::patterns_of_triples_fit;
use ipa_spec::laws::spec_is_fit;
use ipa_spec::{Action, Clause, List, Literal, Spec};
use std::alloc::{AllocError, Global};

/// Two actions with their arguments, and the values of a clause's variables, over a pattern's universe.
#[derive(Clone, Copy)]
pub(crate) struct Case {
    pub left: Action,
    pub right: Action,
    pub universe: Universe,
    pub left_args: [u16; 4],
    pub right_args: [u16; 4],
    pub values: [u16; 4],
}

/// A state after left, and one after right.
#[derive(Drop)]
pub(crate) struct States {
    pub after_left: State,
    pub after_right: State,
}

/// The first example of the triple on the pattern, and `None` where it is not in conflict there.
pub(crate) fn conflict_on<'a>(
    alloc: Global,
    spec: &'a Spec,
    grounded: &mut List<Grounding<'a>>,
    left: Action,
    right: Action,
    number: u8,
    clause: &Clause,
    pattern: &Pattern,
) -> Result<Option<Conflict>, AllocError>
    requires declared { slice_get spec.now.clauses number ≡ Some clause.now }
    requires pattern { IsPatternOf (constant_counts spec.now) (triple_sorts spec.now left right clause.now) pattern.now }
    requires of { AreOf spec.now grounded.old }
    ensures of { AreOf spec.now grounded.new }
    ensures found { IfOk result (λ found. MatchOption found
        (ConflictOn spec.now left right clause.now (classes_of pattern.now) → ⊥)
        (λ e. IsFirstExampleOn spec.now clause.now (classes_of pattern.now) e × (triple_of e ≡ record { left = left; right = right; clause = number }))) }
{
    spec_is_fit(spec);
    let case = case_of(spec, left, right, number, clause, pattern);
    if !is_open(spec, &case, clause.literals.as_slice()) {
        return Ok(None);
    }
    let at = place_of(alloc, spec, grounded, case.universe)?;
    let Some(grounding) = grounded.get(at) else {
        unreachable!()
    };
    let models = &grounding.models;
    for (place, literal) in clause.literals.as_slice().iter().enumerate() {
        if let Some(states) = losing_states(alloc, spec, models, &case, clause, literal)? {
            let hidden = hidden_facts(alloc, spec, &case, clause.literals.as_slice())?;
            return Ok(Some(Conflict {
                left,
                right,
                clause: number,
                universe: case.universe,
                left_args: case.left_args,
                right_args: case.right_args,
                values: case.values,
                after_left: states.after_left,
                after_right: states.after_right,
                lost: place as u8,
                hidden,
            }));
        }
    }
    Ok(None)
}

// The arguments and values that the classes of the pattern are.
fn case_of(
    spec: &Spec,
    left: Action,
    right: Action,
    number: u8,
    clause: &Clause,
    pattern: &Pattern,
) -> Case
    requires declared { slice_get spec.now.clauses number ≡ Some clause.now }
    requires pattern { IsPatternOf (constant_counts spec.now) (triple_sorts spec.now left right clause.now) pattern.now }
    ensures value { result ≡ case_of spec.now left right clause.now (classes_of pattern.now) }
    ensures over { IsOverCase spec.now clause.now result }
    ensures small { AreSmall result.universe.sizes }
{
    spec_is_fit(spec);
    patterns_of_triples_fit();
    let of_left = sort_count(spec, left);
    let of_right = sort_count(spec, right);
    Case {
        left,
        right,
        universe: pattern.universe,
        left_args: args_from(pattern, 0, of_left),
        right_args: args_from(pattern, of_left, of_right),
        values: args_from(pattern, of_left + of_right, clause.vars.len() as u8),
    }
}

// Whether the tests that look at no state leave the case open.
fn is_open(spec: &Spec, case: &Case, literals: &[Literal]) -> bool
    ensures { IsTrue result ↔ IsOpen spec.now case.now literals.now }
{
    falsifies_some(spec, case.left, &case.left_args, &case.values, literals)
        && falsifies_some(spec, case.right, &case.right_args, &case.values, literals)
        && !makes_winner_true(spec, case.left, &case.left_args, &case.values, literals)
        && !makes_winner_true(spec, case.right, &case.right_args, &case.values, literals)
        && is_undecided(spec, &case.values, literals)
        && some_can_be_lost(spec, case, literals)
}

fn some_can_be_lost(spec: &Spec, case: &Case, literals: &[Literal]) -> bool
    ensures { result ≡ list_any (can_be_lost spec.now case.now) literals.now }
{
    literals
        .iter()
        .any(|literal| can_be_lost(spec, case, literal))
}

// Whether right leaves the literal, and some action can make it false.
fn can_be_lost(spec: &Spec, case: &Case, literal: &Literal) -> bool
    ensures { result ≡ can_be_lost spec.now case.now literal.now }
{
    !makes_true(spec, case.right, &case.right_args, &case.values, literal)
        && can_be_falsified(spec, literal)
}

// What is wanted of the lost literal after right: where it loses, that it is false.
fn wanted_of(spec: &Spec, literal: &Literal) -> Option<bool>
    ensures { result ≡ wanted_of spec.now literal.now }
{
    if loses(spec, literal) {
        Some(false)
    } else {
        None
    }
}

// The first states in which the literal is lost, and `None` where there are none.
fn losing_states(
    alloc: Global,
    spec: &Spec,
    models: &Models,
    case: &Case,
    clause: &Clause,
    literal: &Literal,
) -> Result<Option<States>, AllocError>
    requires models { models.now ≡ record { spec = spec.now; universe = case.now.universe.sizes } }
    requires declared { IsListed spec.now.clauses clause.now }
    requires literal { IsListed clause.now.literals literal.now }
    requires case { IsOverCase spec.now clause.now case.now }
    ensures { IfOk result (λ found. MatchOption found
        (HasNoStates spec.now case.now literal.now)
        (AreFirstStates spec.now case.now clause.now.literals literal.now)) }
{
    if !can_be_lost(spec, case, literal) {
        return Ok(None);
    }
    let Some(after_left) = first_fitting(
        alloc,
        spec,
        models,
        case.left,
        &case.left_args,
        clause,
        &case.values,
        literal,
        Some(true),
    )?
    else {
        return Ok(None);
    };
    let wanted = wanted_of(spec, literal);
    let Some(after_right) = first_fitting(
        alloc,
        spec,
        models,
        case.right,
        &case.right_args,
        clause,
        &case.values,
        literal,
        wanted,
    )?
    else {
        return Ok(None);
    };
    Ok(Some(States {
        after_left,
        after_right,
    }))
}
