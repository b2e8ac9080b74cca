//! What names mean where they are used.
ghost use Rattle.std.specs.Prelude.{◌≡◌, IfOk};
ghost use Rattle.std.specs.Option.{option_copied};
ghost use Rattle.ipa_names.specs.Naming.{last_of};
ghost use Rattle.ipa_names.specs.Scopes.{with_constants, predicate_named, operation_named, places_of, operation_scope, typed_by_places, bound_variables, bound_scope};

use crate::declared::{BoundLines, Declared, OperationLines, PredicateLine};
use crate::naming::same_name;
use ipa_forms::Typed;
use ipa_spec::Name;
use std::alloc::{AllocError, Global};

/// The declared predicate of this name.
pub(crate) fn predicate_named<'a>(declared: &'a Declared, name: &Name) -> Option<&'a PredicateLine>
    ensures { option_copied result ≡ predicate_named declared.now name.now }
{
    declared
        .predicates
        .as_slice()
        .iter()
        .find(|predicate| same_name(&predicate.name, name))
}

/// The declared operation of this name.
pub fn operation_named<'a>(declared: &'a Declared, name: &Name) -> Option<&'a OperationLines>
    ensures { option_copied result ≡ operation_named declared.now name.now }
{
    declared
        .operations
        .as_slice()
        .iter()
        .find(|operation| same_name(&operation.name, name))
}

/// The names of the sorts of a predicate's places: none where it is not declared.
pub fn places_of<'a>(declared: &'a Declared, predicate: &Name) -> &'a [Name]
    ensures { result.now ≡ places_of declared.now predicate.now }
{
    match predicate_named(declared, predicate) {
        Some(predicate) => predicate.sorts.as_slice(),
        None => &[],
    }
}

/// The operation declared last.
pub(crate) fn last_operation(declared: &Declared) -> Option<&OperationLines>
    ensures { option_copied result ≡ last_of declared.now.operations }
{
    declared.operations.as_slice().last()
}

/// The bound declared last.
pub(crate) fn last_bound(declared: &Declared) -> Option<&BoundLines>
    ensures { option_copied result ≡ last_of declared.now.bounds }
{
    declared.bounds.as_slice().last()
}

/// The parameters of the operation declared last: none where there is none.
pub(crate) fn operation_scope(declared: &Declared) -> &[Typed]
    ensures { result.now ≡ operation_scope declared.now }
{
    match last_operation(declared) {
        Some(operation) => operation.params.as_slice(),
        None => &[],
    }
}

/// What a name may mean in a literal or an effect: the variables of its list, and then the constants.
pub(crate) fn with_constants(
    alloc: Global,
    declared: &Declared,
    vars: &[Typed],
) -> Result<Vec<Typed>, AllocError>
    ensures { IfOk result (λ scope. scope.items ≡ with_constants declared.now vars.now) }
{
    let mut scope = Vec::from_slice(alloc, vars)?;
    scope.extend_from_slice(declared.constants.as_slice())?;
    Ok(scope)
}

/// Variables, each of the sort of its place.
fn typed_by_places(alloc: Global, vars: &[Name], places: &[Name]) -> Result<Vec<Typed>, AllocError>
    ensures { IfOk result (λ scope. scope.items ≡ typed_by_places vars.now places.now) }
{
    vars.iter()
        .zip(places.iter())
        .map(|(name, sort)| Typed {
            name: *name,
            sort: *sort,
        })
        .collect(alloc)
}

/// The variables of a bound, each of the sort of its place.
pub(crate) fn bound_variables(
    alloc: Global,
    declared: &Declared,
    bound: &BoundLines,
) -> Result<Vec<Typed>, AllocError>
    ensures { IfOk result (λ scope. scope.items ≡ bound_variables declared.now bound.now) }
{
    typed_by_places(
        alloc,
        bound.vars.as_slice(),
        places_of(declared, &bound.predicate),
    )
}

/// The variables of the bound declared last: none where there is none.
pub(crate) fn bound_scope(alloc: Global, declared: &Declared) -> Result<Vec<Typed>, AllocError>
    ensures { IfOk result (λ scope. scope.items ≡ bound_scope declared.now) }
{
    match last_bound(declared) {
        Some(bound) => bound_variables(alloc, declared, bound),
        None => Ok(Vec::new(alloc)),
    }
}
