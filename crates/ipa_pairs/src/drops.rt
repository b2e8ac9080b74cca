//! The search for a state in which a drop breaks a clause.
//!
//! A drop none of whose effects can make a literal of the clause false breaks none. Of another, the
//! patterns of the dropped fact's places and the clause's variables are gone through in order. Where
//! the drop makes a literal of the instance false on a pattern, what the drop asks of a state is that
//! it holds the fact, and that each literal of the instance is false after the drop.
ghost use Rattle.std.specs.Prelude.{◌≡◌, ◌<◌, length, slice_get, Some, IfOk, MatchOption};
ghost use Rattle.ipa_logic.specs.Acceptance.{DropBreaks};
ghost use Rattle.ipa_ground.specs.Places.{AreSmall};
ghost use Rattle.ipa_reduction.specs.Cases.{constant_counts, drop_sorts, DropBreaksOn};
ghost use Rattle.ipa_pairs.specs.Examples.{IsReportedDrop, IsFirstDropExampleOn};
ghost use Rattle.ipa_pairs.specs.Grounded.{AreOf};
ghost use Rattle.ipa_pairs.specs.Openness.{drop_case_of, IsOverDropCase};
ghost use Rattle.ipa_pairs.specs.Patterned.{IsPatternOf, classes_of};

use crate::analysis::UnsafeDrop;
use crate::arguments::{args_from, sort_count};
use crate::constants::constant_counts;
use crate::gathering::{asks_of_drop, demands_of};
use crate::groundings::{Grounding, place_of};
use crate::sorts::drop_sorts;
use ipa_ground::{Pattern, Patterns};
use ipa_logic::{Universe, can_break, falsifies_some};
use ipa_reduction::laws::{
    breaking_drops_falsify, patterns_of_drops_fit, unsafe_drops_are_on_patterns,
};
use ipa_spec::laws::spec_is_fit;
use ipa_spec::{Action, Bound, Clause, List, Spec};
use std::alloc::{AllocError, Global};

/// A drop with its arguments, and the values of a clause's variables, over a pattern's universe.
#[derive(Clone, Copy)]
pub(crate) struct DropCase {
    pub universe: Universe,
    pub args: [u16; 4],
    pub values: [u16; 4],
}

/// The reported example of a drop and a clause, and `None` where the drop cannot break it.
pub(crate) fn find_unsafe_drop<'a>(
    alloc: Global,
    spec: &'a Spec,
    grounded: &mut List<Grounding<'a>>,
    bound: u8,
    number: u8,
) -> Result<Option<UnsafeDrop>, AllocError>
    requires bound { bound < length spec.now.bounds }
    requires clause { number < length spec.now.clauses }
    requires of { AreOf spec.now grounded.old }
    ensures of { AreOf spec.now grounded.new }
    ensures found { IfOk result (λ found. MatchOption found
        (DropBreaks spec.now bound number → ⊥)
        (λ e. IsReportedDrop spec.now e × ((e.bound ≡ bound) × (e.clause ≡ number)))) }
{
    spec_is_fit(spec);
    let Some(declared) = spec.bounds().get(bound as usize) else {
        unreachable!()
    };
    let Some(clause) = spec.clauses().get(number as usize) else {
        unreachable!()
    };
    breaking_drops_falsify();
    if !can_break(spec, Action::Drop(bound), clause) {
        return Ok(None);
    }
    patterns_of_drops_fit();
    unsafe_drops_are_on_patterns();
    let sorts = drop_sorts(spec, bound, clause);
    let constants = constant_counts(spec);
    let mut patterns = Patterns::new(sorts.as_slice(), &constants);
    while let Some(pattern) = patterns.next() {
        match drop_break_on(
            alloc, spec, grounded, bound, declared, number, clause, &pattern,
        )? {
            None => {}
            Some(found) => return Ok(Some(found)),
        }
    }
    Ok(None)
}

// The first example of the drop and the clause on the pattern, and `None` where the drop does not
// break it there.
fn drop_break_on<'a>(
    alloc: Global,
    spec: &'a Spec,
    grounded: &mut List<Grounding<'a>>,
    bound: u8,
    declared: &Bound,
    number: u8,
    clause: &Clause,
    pattern: &Pattern,
) -> Result<Option<UnsafeDrop>, AllocError>
    requires bound { slice_get spec.now.bounds bound ≡ Some declared.now }
    requires clause { slice_get spec.now.clauses number ≡ Some clause.now }
    requires pattern { IsPatternOf (constant_counts spec.now) (drop_sorts spec.now bound clause.now) pattern.now }
    requires of { AreOf spec.now grounded.old }
    ensures of { AreOf spec.now grounded.new }
    ensures found { IfOk result (λ found. MatchOption found
        (DropBreaksOn spec.now bound declared.now clause.now (classes_of pattern.now) → ⊥)
        (λ e. IsFirstDropExampleOn spec.now declared.now clause.now (classes_of pattern.now) e × ((e.bound ≡ bound) × (e.clause ≡ number)))) }
{
    spec_is_fit(spec);
    let case = drop_case_of(spec, bound, number, clause, pattern);
    let literals = clause.literals.as_slice();
    breaking_drops_falsify();
    if !falsifies_some(
        spec,
        Action::Drop(bound),
        &case.args,
        &case.values,
        literals,
    ) {
        return Ok(None);
    }
    let asks = asks_of_drop(
        alloc,
        spec,
        declared,
        bound,
        &case.args,
        &case.values,
        literals,
    )?;
    let demands = match demands_of(alloc, asks.as_slice())? {
        None => return Ok(None),
        Some(demands) => demands,
    };
    let at = place_of(alloc, spec, grounded, case.universe)?;
    let Some(grounding) = grounded.get(at) else {
        unreachable!()
    };
    match grounding
        .models
        .first(alloc, clause, &case.values, demands.as_slice())?
    {
        None => Ok(None),
        Some(before) => Ok(Some(UnsafeDrop {
            bound,
            clause: number,
            universe: case.universe,
            args: case.args,
            values: case.values,
            before,
        })),
    }
}

// The arguments and values that the classes of the pattern are.
fn drop_case_of(spec: &Spec, bound: u8, number: u8, clause: &Clause, pattern: &Pattern) -> DropCase
    requires declared { slice_get spec.now.clauses number ≡ Some clause.now }
    requires pattern { IsPatternOf (constant_counts spec.now) (drop_sorts spec.now bound clause.now) pattern.now }
    ensures value { result ≡ drop_case_of spec.now bound clause.now (classes_of pattern.now) }
    ensures over { IsOverDropCase spec.now bound clause.now result }
    ensures small { AreSmall result.universe.sizes }
{
    spec_is_fit(spec);
    patterns_of_drops_fit();
    let of_drop = sort_count(spec, Action::Drop(bound));
    DropCase {
        universe: pattern.universe,
        args: args_from(pattern, 0, of_drop),
        values: args_from(pattern, of_drop, clause.vars.len() as u8),
    }
}
