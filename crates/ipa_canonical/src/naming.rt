//! From numbers to names.
ghost use Rattle.std.specs.Prelude.{◌≡◌, IfOk, map, take, slice_index_or};
ghost use Rattle.ipa_spec.specs.Actions.{arity_of};
ghost use Rattle.ipa_canonical.specs.Canonical.{constant_name, names_at, names_of, predicate_name};

use ipa_spec::{List, Name, Predicate, Spec, Var};
use std::alloc::{AllocError, Global};

/// The name of a number, and another where there is none.
pub(crate) fn name_at(names: &[Name], number: u8, own: Name) -> Name
    ensures { result ≡ slice_index_or names.now number own }
{
    match names.get(number as usize) {
        Some(name) => *name,
        None => own,
    }
}

/// The first of these items, or all of them where there are fewer.
pub(crate) fn first_of<T>(items: &[T], count: u8) -> &[T]
    ensures { result.now ≡ take count items.now }
{
    let count = count as usize;
    if count < items.len() {
        &items[..count]
    } else {
        items
    }
}

/// The names of these numbers.
pub(crate) fn names_at(
    alloc: Global,
    names: &[Name],
    own: Name,
    numbers: &[u8],
) -> Result<Vec<Name>, AllocError>
    ensures { IfOk result (λ all. all.items ≡ names_at names.now own numbers.now) }
{
    numbers
        .iter()
        .map(|number| name_at(names, *number, own))
        .collect(alloc)
}

/// The names of variables.
pub(crate) fn names_of(alloc: Global, vars: &[Var]) -> Result<Vec<Name>, AllocError>
    ensures { IfOk result (λ names. names.items ≡ names_of vars.now) }
{
    vars.iter().map(|var| var.name).collect(alloc)
}

/// The name of a predicate, and another where there is none.
pub(crate) fn predicate_name(spec: &Spec, own: Name, number: u8) -> Name
    ensures { result ≡ predicate_name spec.now own number }
{
    match spec.predicates().get(number as usize) {
        Some(predicate) => predicate.name,
        None => own,
    }
}

/// The name of a constant, and another where there is none.
pub(crate) fn constant_name(spec: &Spec, own: Name, number: u8) -> Name
    ensures { result ≡ constant_name spec.now own number }
{
    match spec.constants().get(number as usize) {
        Some(constant) => constant.name,
        None => own,
    }
}

/// The number of places of a predicate, and 0 where there is none.
pub(crate) fn arity_of(predicates: &List<Predicate>, number: u8) -> u8
    ensures { result ≡ arity_of predicates.now number }
{
    match predicates.get(number as usize) {
        Some(predicate) => predicate.arity,
        None => 0,
    }
}
