//! The elements of sorts, by names.
ghost use Rattle.std.specs.Prelude.{◌≡◌, ◌≤◌, ◌++◌, IfOk, length, map};
ghost use Rattle.std.specs.List.{list_any, zip};
ghost use Rattle.ipa_names.specs.Naming.{is_among, number_or_count};
ghost use Rattle.ipa_reader.specs.Arrangements.{elements_at, elements_of, element_number, parameter_sorts};
ghost use Rattle.ipa_reader.specs.Soundness.{IsWithinElements};
ghost use Rattle.ipa_reader.specs.Refusals.{elements_have, parameter_count, is_no_element, is_no_wanted};

use crate::names::Names;
use crate::standing::Standing;
use ipa_forms::Typed;
use ipa_names::{Declared, Flaw, number_in, operation_named, stands_twice};
use ipa_spec::{List, Name};
use std::alloc::{AllocError, Global};

/// The elements of a sort: none where it is not declared.
pub(crate) fn elements_of<'a>(
    declared: &Declared,
    elements: &'a List<Names>,
    sort: &Name,
) -> &'a [Name]
    ensures value { result.now ≡ elements_of declared.now elements.now sort.now }
    ensures within { IsWithinElements elements.now → length result.now ≤ 256 }
{
    match number_in(declared.sorts.as_slice(), sort) {
        Some(number) => elements_at(elements, number),
        None => &[],
    }
}

/// The elements of the sort of a number: none where no list stands for it.
pub(crate) fn elements_at(elements: &List<Names>, number: usize) -> &[Name]
    ensures { result.now ≡ elements_at elements.now number }
{
    match elements.get(number) {
        Some(names) => names.as_slice(),
        None => &[],
    }
}

/// The number of an element in the sort of a number, or the count of the elements where it is none.
fn element_number_at(elements: &List<Names>, number: usize, name: &Name) -> usize
    ensures { result ≡ number_or_count (elements_at elements.now number) name.now }
{
    match elements.get(number) {
        Some(names) => names.number_or_count(name),
        None => 0,
    }
}

/// The number of an element in its sort, or the count of the elements where it is none.
pub(crate) fn element_number(
    declared: &Declared,
    elements: &List<Names>,
    sort: &Name,
    name: &Name,
) -> usize
    ensures value { result ≡ element_number declared.now elements.now sort.now name.now }
    ensures within { IsWithinElements elements.now → result ≤ 256 }
{
    match number_in(declared.sorts.as_slice(), sort) {
        Some(number) => element_number_at(elements, number, name),
        None => 0,
    }
}

/// The names, and then the others.
fn joined(alloc: Global, names: &[Name], others: &[Name]) -> Result<Vec<Name>, AllocError>
    ensures { IfOk result (λ all. all.items ≡ names.now ++ others.now) }
{
    let mut all = Vec::from_slice(alloc, names)?;
    all.extend_from_slice(others)?;
    Ok(all)
}

/// Elements of which none may stand twice in their sort.
pub(crate) fn elements_have(
    alloc: Global,
    flaw: Flaw,
    before: &[Name],
    names: &[Name],
) -> Result<bool, AllocError>
    ensures { IfOk result (λ found. found ≡ elements_have flaw before.now names.now) }
{
    match flaw {
        Flaw::Duplicate => {
            let all = joined(alloc, before, names)?;
            stands_twice(alloc, &all)
        }
        _ => Ok(false),
    }
}

/// The number of parameters of a declared operation.
pub(crate) fn parameter_count(declared: &Declared, operation: &Name) -> Option<usize>
    ensures { result ≡ parameter_count declared.now operation.now }
{
    match operation_named(declared, operation) {
        Some(operation) => Some(operation.params.len()),
        None => None,
    }
}

/// The names of the sorts of variables.
fn sorts_of(alloc: Global, vars: &[Typed]) -> Result<Vec<Name>, AllocError>
    ensures { IfOk result (λ sorts. sorts.items ≡ map (λ v. v.sort) vars.now) }
{
    vars.iter().map(|variable| variable.sort).collect(alloc)
}

/// The names of the sorts of an operation's parameters: none where it is not declared.
pub(crate) fn parameter_sorts(
    alloc: Global,
    declared: &Declared,
    operation: &Name,
) -> Result<Vec<Name>, AllocError>
    ensures { IfOk result (λ sorts. sorts.items ≡ parameter_sorts declared.now operation.now) }
{
    match operation_named(declared, operation) {
        Some(operation) => sorts_of(alloc, operation.params.as_slice()),
        None => Ok(Vec::new(alloc)),
    }
}

/// Whether a name is an element of the sort of a number.
fn has_element(elements: &List<Names>, number: usize, name: &Name) -> bool
    ensures { result ≡ is_among (elements_at elements.now number) name.now }
{
    match elements.get(number) {
        Some(names) => names.has(name),
        None => false,
    }
}

/// A name that is no element of the sort.
fn is_no_element(standing: &Standing, name: &Name, sort: &Name) -> bool
    ensures { result ≡ is_no_element standing.now (name.now, sort.now) }
{
    match number_in(standing.declared.sorts.as_slice(), sort) {
        Some(number) => !has_element(&standing.arranged.elements, number, name),
        None => true,
    }
}

/// Whether one of the names is no element of the sort of its place.
pub(crate) fn some_element_is_missing(standing: &Standing, names: &[Name], sorts: &[Name]) -> bool
    ensures { result ≡ list_any (is_no_element standing.now) (zip names.now sorts.now) }
{
    names
        .iter()
        .zip(sorts.iter())
        .any(|(name, sort)| is_no_element(standing, name, sort))
}

/// A wanted element that is no element of the sort.
fn is_no_wanted(standing: &Standing, wanted: &Option<Name>, sort: &Name) -> bool
    ensures { result ≡ is_no_wanted standing.now (wanted.now, sort.now) }
{
    match wanted {
        Some(name) => is_no_element(standing, name, sort),
        None => false,
    }
}

/// Whether one of the wanted elements is no element of the sort of its place.
pub(crate) fn some_wanted_is_missing(
    standing: &Standing,
    places: &[Option<Name>],
    sorts: &[Name],
) -> bool
    ensures { result ≡ list_any (is_no_wanted standing.now) (zip places.now sorts.now) }
{
    places
        .iter()
        .zip(sorts.iter())
        .any(|(wanted, sort)| is_no_wanted(standing, wanted, sort))
}
