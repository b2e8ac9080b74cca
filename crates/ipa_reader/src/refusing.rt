//! The refusals of a line that has a form, given what stands before it.
ghost use Rattle.std.specs.Prelude.{◌≡◌, ◌^◌, ◌<◌, ◌≤◌, IfOk};
ghost use Rattle.ipa_reader.specs.Refusals.{line_has, spec_fault_at, is_missing, request_count, setup_above, replicas_outside, setup_limit_at, refusal_at};

use crate::elements::{
    elements_have, elements_of, parameter_count, parameter_sorts, some_element_is_missing,
    some_wanted_is_missing,
};
use crate::order::is_out_of_order;
use crate::refusals::DocKind;
use crate::sessions::SessionWork;
use crate::standing::Standing;
use ipa_forms::Form;
use ipa_names::{
    Flaw, arity_named, limit_passed, places_of, sort_has, specification_line_has, use_has,
};
use ipa_spec::{List, Name, SpecFault};
use std::alloc::{AllocError, Global};

/// An `elem` line.
#[tactic(auto, unfolding(crate::specs::Refusals::line_has))]
fn element_line_has(
    alloc: Global,
    flaw: Flaw,
    standing: &Standing,
    sort: &Name,
    names: &List<Name>,
) -> Result<bool, AllocError>
    ensures { IfOk result (λ found. found ≡ line_has flaw standing.now (Form.Elem sort.now names.now)) }
{
    let before = elements_of(&standing.declared, &standing.arranged.elements, sort);
    let repeats = elements_have(alloc, flaw, before, names.as_slice())?;
    Ok(sort_has(flaw, &standing.declared, sort) || repeats)
}

/// Whether a line has a flaw.
#[tactic(auto, unfolding(crate::specs::Refusals::line_has))]
fn line_has(alloc: Global, flaw: Flaw, standing: &Standing, line: &Form) -> Result<bool, AllocError>
    ensures { IfOk result (λ found. found ≡ line_has flaw standing.now line.now) }
{
    match line {
        Form::Elem { sort, elements } => element_line_has(alloc, flaw, standing, sort, elements),
        Form::Base {
            predicate,
            elements,
        } => Ok(use_has(
            flaw,
            arity_named(&standing.declared, predicate),
            elements.len(),
        )),
        Form::Replicas { .. } => Ok(false),
        Form::Session { .. } => Ok(false),
        Form::Do {
            operation,
            elements,
        } => Ok(use_has(
            flaw,
            parameter_count(&standing.declared, operation),
            elements.len(),
        )),
        Form::Show { predicate, places } => Ok(use_has(
            flaw,
            arity_named(&standing.declared, predicate),
            places.len(),
        )),
        _ => specification_line_has(alloc, flaw, &standing.declared, line),
    }
}

/// The first of the seven faults at a line.
fn spec_fault_at(
    alloc: Global,
    standing: &Standing,
    line: &Form,
) -> Result<Option<SpecFault>, AllocError>
    ensures { IfOk result (λ fault. fault ≡ spec_fault_at standing.now line.now) }
{
    if line_has(alloc, Flaw::Arity, standing, line)? {
        return Ok(Some(SpecFault::Arity));
    }
    if line_has(alloc, Flaw::SortMismatch, standing, line)? {
        return Ok(Some(SpecFault::SortMismatch));
    }
    if line_has(alloc, Flaw::UnknownName, standing, line)? {
        return Ok(Some(SpecFault::UnknownName));
    }
    if line_has(alloc, Flaw::Duplicate, standing, line)? {
        return Ok(Some(SpecFault::Duplicate));
    }
    if line_has(alloc, Flaw::WildAdd, standing, line)? {
        return Ok(Some(SpecFault::WildAdd));
    }
    if line_has(alloc, Flaw::FreeVariable, standing, line)? {
        return Ok(Some(SpecFault::FreeVariable));
    }
    Ok(limit_passed(&standing.declared, line))
}

/// Whether an element is not declared in the sort of its place, or a session's replica is none.
fn is_missing(alloc: Global, standing: &Standing, line: &Form) -> Result<bool, AllocError>
    ensures { IfOk result (λ found. found ≡ is_missing standing.now line.now) }
{
    match line {
        Form::Base {
            predicate,
            elements,
        } => Ok(some_element_is_missing(
            standing,
            elements.as_slice(),
            places_of(&standing.declared, predicate),
        )),
        Form::Session { number } => Ok(*number == 0 || *number > standing.arranged.replicas),
        Form::Do {
            operation,
            elements,
        } => {
            let sorts = parameter_sorts(alloc, &standing.declared, operation)?;
            Ok(some_element_is_missing(standing, elements.as_slice(), &sorts))
        }
        Form::Show { predicate, places } => Ok(some_wanted_is_missing(
            standing,
            places.as_slice(),
            places_of(&standing.declared, predicate),
        )),
        _ => Ok(false),
    }
}

/// The limit, if the count is above the greatest allowed.
fn setup_above(which: u8, most: usize, count: usize) -> Option<DocKind>
    ensures { result ≡ setup_above which most count }
{
    if count > most {
        Some(DocKind::SetupLimit {
            which,
            found: count as u64,
        })
    } else {
        None
    }
}

/// Limit 15, if the number of replicas is outside of it.
fn replicas_outside(number: u32) -> Option<DocKind>
    ensures { result ≡ replicas_outside number }
{
    if 1 <= number && number <= 8 {
        None
    } else {
        Some(DocKind::SetupLimit {
            which: 15,
            found: number as u64,
        })
    }
}

/// The number of requests of all sessions.
fn request_count(sessions: &[SessionWork]) -> usize
    requires { request_count sessions.now < 2 ^ 64 }
    ensures { result ≡ request_count sessions.now }
{
    sessions.iter().map(|work| work.requests.len()).sum()
}

/// The first of the limits 14 to 17 that the line passes.
fn setup_limit_at(standing: &Standing, line: &Form) -> Option<DocKind>
    requires { request_count standing.now.arranged.sessions ≤ 16384 }
    ensures { result ≡ setup_limit_at standing.now line.now }
{
    match line {
        Form::Elem { sort, elements } => {
            let before = elements_of(&standing.declared, &standing.arranged.elements, sort);
            setup_above(14, 256, before.len() + elements.as_slice().len())
        }
        Form::Replicas { number } => replicas_outside(*number),
        Form::Session { .. } => setup_above(
            16,
            16,
            standing.arranged.sessions.as_slice().len() + 1,
        ),
        Form::Do { .. } => setup_above(
            17,
            16384,
            request_count(standing.arranged.sessions.as_slice()) + 1,
        ),
        Form::Show { .. } => setup_above(
            17,
            16384,
            request_count(standing.arranged.sessions.as_slice()) + 1,
        ),
        _ => None,
    }
}

/// The first refusal of a line that has a form.
pub(crate) fn refusal_at(
    alloc: Global,
    standing: &Standing,
    line: &Form,
) -> Result<Option<DocKind>, AllocError>
    requires { request_count standing.now.arranged.sessions ≤ 16384 }
    ensures { IfOk result (λ kind. kind ≡ refusal_at standing.now line.now) }
{
    if let Some(fault) = spec_fault_at(alloc, standing, line)? {
        return Ok(Some(DocKind::Spec(fault)));
    }
    if is_out_of_order(standing.place, line) {
        return Ok(Some(DocKind::Order));
    }
    if is_missing(alloc, standing, line)? {
        return Ok(Some(DocKind::UnknownElement));
    }
    Ok(setup_limit_at(standing, line))
}
