//! A specification with the parts of an offer applied.
ghost use Rattle.std.specs.Prelude.{◌≡◌, IfOk, OnOk, MatchOption};
ghost use Rattle.ipa_spec.specs.Parts.{specification_of};
ghost use Rattle.ipa_spec.specs.Limits.{IsFaultless};
ghost use Rattle.ipa_repair.specs.Applying.{with_effect, flipped, with_flip, applied};

use crate::candidates::{Candidate, Offer};
use ipa_spec::{Bound, Clause, Constant, Effect, List, Name, Operation, Predicate, Rule, Spec};
use std::alloc::AllocError;

/// The specification with the offer's parts applied, one after the other. They fit it, so that each
/// operation has room for its new effects and no fault arises. Refused for want of memory alone.
pub fn apply(spec: &Spec, offer: &Offer) -> Result<Spec, AllocError>
    requires { IsFaultless (applied spec.now offer.now.parts) }
    ensures { IfOk result (λ next. next ≡ applied spec.now offer.now.parts) }
{
    match apply_if_faultless(spec, offer.parts.as_slice())? {
        Some(next) => Ok(next),
        None => unreachable!(),
    }
}

/// The same, and `None` where a fault arises, as when an operation has no room.
pub(crate) fn apply_if_faultless(
    spec: &Spec,
    parts: &[Candidate],
) -> Result<Option<Spec>, AllocError>
    ensures { IfOk result (λ found. MatchOption found (IsFaultless (applied spec.now parts.now) → ⊥)
        (λ next. (next ≡ applied spec.now parts.now) × IsFaultless (applied spec.now parts.now))) }
{
    let mut operations = operations_of(spec)?.into_vec();
    let mut predicates = predicates_of(spec)?.into_vec();
    for part in parts {
        match part {
            Candidate::Adds { op, effect } => add_effect(&mut operations, *op, *effect)?,
            Candidate::Flips { predicate } => flip(&mut predicates, *predicate),
        }
    }
    with_parts(spec, List::from_vec(operations), List::from_vec(predicates))
}

// The specification with these operations and predicates, where it has no fault.
fn with_parts(
    spec: &Spec,
    operations: List<Operation>,
    predicates: List<Predicate>,
) -> Result<Option<Spec>, AllocError>
    ensures { IfOk result (λ found. MatchOption found
        (IsFaultless (record spec.now { operations = operations; predicates = predicates }) → ⊥)
        (λ next. (next ≡ record spec.now { operations = operations; predicates = predicates })
        × IsFaultless (record spec.now { operations = operations; predicates = predicates }))) }
{
    let sorts = sorts_of(spec)?;
    let constants = constants_of(spec)?;
    let clauses = clauses_of(spec)?;
    let bounds = bounds_of(spec)?;
    Ok(specified(sorts, constants, predicates, clauses, operations, bounds))
}

// The specification of these parts, where they have no fault.
fn specified(
    sorts: List<Name>,
    constants: List<Constant>,
    predicates: List<Predicate>,
    clauses: List<Clause>,
    operations: List<Operation>,
    bounds: List<Bound>,
) -> Option<Spec>
    ensures { MatchOption result
        (IsFaultless (specification_of sorts constants predicates clauses operations bounds) → ⊥)
        (λ next. (next ≡ specification_of sorts constants predicates clauses operations bounds)
        × IsFaultless (specification_of sorts constants predicates clauses operations bounds)) }
{
    match Spec::new(sorts, constants, predicates, clauses, operations, bounds) {
        Ok(next) => Some(next),
        Err(_) => None,
    }
}

fn sorts_of(spec: &Spec) -> Result<List<Name>, AllocError>
    ensures { IfOk result (λ copy. copy ≡ spec.now.sorts) }
{
    spec.sorts().clone()
}

fn constants_of(spec: &Spec) -> Result<List<Constant>, AllocError>
    ensures { IfOk result (λ copy. copy ≡ spec.now.constants) }
{
    spec.constants().clone()
}

fn predicates_of(spec: &Spec) -> Result<List<Predicate>, AllocError>
    ensures { IfOk result (λ copy. copy ≡ spec.now.predicates) }
{
    spec.predicates().clone()
}

fn clauses_of(spec: &Spec) -> Result<List<Clause>, AllocError>
    ensures { IfOk result (λ copy. copy ≡ spec.now.clauses) }
{
    spec.clauses().clone()
}

fn operations_of(spec: &Spec) -> Result<List<Operation>, AllocError>
    ensures { IfOk result (λ copy. copy ≡ spec.now.operations) }
{
    spec.operations().clone()
}

fn bounds_of(spec: &Spec) -> Result<List<Bound>, AllocError>
    ensures { IfOk result (λ copy. copy ≡ spec.now.bounds) }
{
    spec.bounds().clone()
}

// Puts the effect at the end of those of the operation of this number.
fn add_effect(operations: &mut Vec<Operation>, number: u8, effect: Effect) -> Result<(), AllocError>
    ensures { OnOk result (operations.new.items ≡ with_effect operations.old.items number effect) }
{
    let place = number as usize;
    if place < operations.len() {
        operations[place].effects.push(effect)?;
    }
    Ok(())
}

// Flips the rule of the predicate of this number.
fn flip(predicates: &mut Vec<Predicate>, number: u8)
    ensures { predicates.new.items ≡ with_flip predicates.old.items number }
{
    let place = number as usize;
    if place < predicates.len() {
        predicates[place].rule = flipped(predicates[place].rule);
    }
}

fn flipped(rule: Rule) -> Rule
    ensures { result ≡ flipped rule }
{
    match rule {
        Rule::AddWins => Rule::RemoveWins,
        Rule::RemoveWins => Rule::AddWins,
    }
}
