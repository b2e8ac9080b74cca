//! What can be wrong with a line that has a form, given what the lines before it declare.
ghost use Rattle.std.specs.Prelude.{◌≡◌, IfOk, map};
ghost use Rattle.std.specs.List.{list_any, zip};
ghost use Rattle.ipa_names.specs.Flaws.{use_has, sort_has, list_has, variables_have, is_elsewhere, place_has, variable_has, arity_named, atom_has, comparison_has, literal_has, argument_place_has, wild_has, argument_has, effect_has, counted_has, bound_has};

use crate::declared::{Declared, EffectLine};
use crate::naming::{is_among, same_name, stands_twice};
use crate::scopes::{places_of, predicate_named};
use crate::variables::Variables;
use ipa_forms::{AtomForm, LiteralForm, Typed};
use ipa_spec::{List, Name};
use std::alloc::{AllocError, Global};

/// The first six of the seven faults of a specification.
#[derive(Clone, Copy, PartialEq, Eq)]
pub enum Flaw {
    /// A use with another number of arguments than is declared.
    Arity,
    /// A variable of one sort in a place of another.
    SortMismatch,
    /// A name that is not declared.
    UnknownName,
    /// A name that stands twice.
    Duplicate,
    /// A `*` in what is added.
    WildAdd,
    /// A variable that is not declared.
    FreeVariable,
}

/// A use of a predicate or an operation with so many arguments, where the declared one takes so many.
pub fn use_has(flaw: Flaw, taken: Option<usize>, given: usize) -> bool
    ensures { result ≡ use_has flaw taken given }
{
    match (flaw, taken) {
        (Flaw::Arity, Some(taken)) => taken != given,
        (Flaw::UnknownName, None) => true,
        _ => false,
    }
}

/// The use of a sort.
pub fn sort_has(flaw: Flaw, declared: &Declared, sort: &Name) -> bool
    ensures { result ≡ sort_has flaw declared.now sort.now }
{
    match flaw {
        Flaw::UnknownName => !is_among(declared.sorts.as_slice(), sort),
        _ => false,
    }
}

/// Names of which none may stand twice.
pub(crate) fn list_has(alloc: Global, flaw: Flaw, names: &[Name]) -> Result<bool, AllocError>
    ensures { IfOk result (λ found. found ≡ list_has flaw names.now) }
{
    match flaw {
        Flaw::Duplicate => stands_twice(alloc, names),
        _ => Ok(false),
    }
}

/// A variable that is declared with another sort.
fn is_elsewhere(scope: &Variables, sort: &Name, name: &Name) -> bool
    ensures { result ≡ is_elsewhere scope.now sort.now name.now }
{
    match scope.sort_of(name) {
        Some(own) => !same_name(&own, sort),
        None => false,
    }
}

/// A variable in a place of a sort.
fn place_has(flaw: Flaw, scope: &Variables, name: &Name, sort: &Name) -> bool
    ensures { result ≡ place_has flaw scope.now (name.now, sort.now) }
{
    match flaw {
        Flaw::SortMismatch => is_elsewhere(scope, sort, name),
        _ => false,
    }
}

/// The use of a variable.
fn variable_has(flaw: Flaw, scope: &Variables, name: &Name) -> bool
    ensures { result ≡ variable_has flaw scope.now name.now }
{
    match flaw {
        Flaw::FreeVariable => scope.sort_of(name).is_none(),
        _ => false,
    }
}

/// The number of places of a declared predicate.
pub fn arity_named(declared: &Declared, predicate: &Name) -> Option<usize>
    ensures { result ≡ arity_named declared.now predicate.now }
{
    match predicate_named(declared, predicate) {
        Some(predicate) => Some(predicate.sorts.len()),
        None => None,
    }
}

/// Variables in places of sorts.
fn some_place_has(flaw: Flaw, scope: &Variables, names: &[Name], sorts: &[Name]) -> bool
    ensures { result ≡ list_any (place_has flaw scope.now) (zip names.now sorts.now) }
{
    names
        .iter()
        .zip(sorts.iter())
        .any(|(name, sort)| place_has(flaw, scope, name, sort))
}

/// Uses of variables.
fn some_variable_has(flaw: Flaw, scope: &Variables, names: &[Name]) -> bool
    ensures { result ≡ list_any (variable_has flaw scope.now) names.now }
{
    names.iter().any(|name| variable_has(flaw, scope, name))
}

/// An atom.
fn atom_has(flaw: Flaw, declared: &Declared, scope: &Variables, atom: &AtomForm) -> bool
    ensures { result ≡ atom_has flaw declared.now scope.now atom.now }
{
    use_has(
        flaw,
        arity_named(declared, &atom.predicate),
        atom.args.len(),
    ) || some_place_has(
        flaw,
        scope,
        atom.args.as_slice(),
        places_of(declared, &atom.predicate),
    ) || some_variable_has(flaw, scope, atom.args.as_slice())
}

/// Two compared variables.
fn comparison_has(flaw: Flaw, scope: &Variables, one: &Name, other: &Name) -> bool
    ensures { result ≡ comparison_has flaw scope.now one.now other.now }
{
    match flaw {
        Flaw::SortMismatch => match scope.sort_of(one) {
            Some(sort) => is_elsewhere(scope, &sort, other),
            None => false,
        },
        _ => variable_has(flaw, scope, one) || variable_has(flaw, scope, other),
    }
}

/// A literal of a clause, or a need.
pub(crate) fn literal_has(
    flaw: Flaw,
    declared: &Declared,
    scope: &Variables,
    literal: &LiteralForm,
) -> bool
    ensures { result ≡ literal_has flaw declared.now scope.now literal.now }
{
    match literal {
        LiteralForm::Holds(atom) => atom_has(flaw, declared, scope, atom),
        LiteralForm::Fails(atom) => atom_has(flaw, declared, scope, atom),
        LiteralForm::Same(one, other) => comparison_has(flaw, scope, one, other),
        LiteralForm::Differ(one, other) => comparison_has(flaw, scope, one, other),
    }
}

/// One of the literals of a clause.
pub(crate) fn some_literal_has(
    flaw: Flaw,
    declared: &Declared,
    scope: &Variables,
    literals: &[LiteralForm],
) -> bool
    ensures { result ≡ list_any (literal_has flaw declared.now scope.now) literals.now }
{
    literals
        .iter()
        .any(|literal| literal_has(flaw, declared, scope, literal))
}

/// An argument in a place of a sort.
fn argument_place_has(flaw: Flaw, scope: &Variables, argument: &Option<Name>, sort: &Name) -> bool
    ensures { result ≡ argument_place_has flaw scope.now (argument.now, sort.now) }
{
    match argument {
        Some(name) => place_has(flaw, scope, name, sort),
        None => false,
    }
}

/// Arguments in places of sorts.
fn some_argument_place_has(
    flaw: Flaw,
    scope: &Variables,
    arguments: &[Option<Name>],
    sorts: &[Name],
) -> bool
    ensures { result ≡ list_any (argument_place_has flaw scope.now) (zip arguments.now sorts.now) }
{
    arguments.iter().zip(sorts.iter()).any(|(argument, sort)| argument_place_has(
        flaw, scope, argument, sort,
    ))
}

/// An argument of an effect.
fn argument_has(flaw: Flaw, scope: &Variables, add: bool, argument: &Option<Name>) -> bool
    ensures { result ≡ argument_has flaw scope.now add argument.now }
{
    match argument {
        Some(name) => variable_has(flaw, scope, name),
        None => add && flaw == Flaw::WildAdd,
    }
}

/// Arguments of an effect.
fn some_argument_has(flaw: Flaw, scope: &Variables, add: bool, arguments: &[Option<Name>]) -> bool
    ensures { result ≡ list_any (argument_has flaw scope.now add) arguments.now }
{
    arguments
        .iter()
        .any(|argument| argument_has(flaw, scope, add, argument))
}

/// An effect, or a further remove of a bound.
pub(crate) fn effect_has(
    flaw: Flaw,
    declared: &Declared,
    scope: &Variables,
    add: bool,
    predicate: &Name,
    args: &List<Option<Name>>,
) -> bool
    ensures { result ≡ effect_has flaw declared.now scope.now (record { add = add; predicate = predicate.now; args = args.now }) }
{
    use_has(flaw, arity_named(declared, predicate), args.len())
        || some_argument_place_has(flaw, scope, args.as_slice(), places_of(declared, predicate))
        || some_argument_has(flaw, scope, add, args.as_slice())
}

/// The counted variable of a bound.
fn counted_has(flaw: Flaw, vars: &[Name], counted: &Name) -> bool
    ensures { result ≡ counted_has flaw vars.now counted.now }
{
    match flaw {
        Flaw::FreeVariable => !is_among(vars, counted),
        _ => false,
    }
}

/// What a bound says of its predicate and its variables.
pub(crate) fn bound_has(
    alloc: Global,
    flaw: Flaw,
    declared: &Declared,
    predicate: &Name,
    vars: &[Name],
    counted: &Name,
) -> Result<bool, AllocError>
    ensures { IfOk result (λ found. found ≡ bound_has flaw declared.now predicate.now vars.now counted.now) }
{
    let repeats = list_has(alloc, flaw, vars)?;
    Ok(
        use_has(flaw, arity_named(declared, predicate), vars.len())
            || repeats
            || counted_has(flaw, vars, counted),
    )
}

/// The names of variables.
fn names_of(alloc: Global, vars: &[Typed]) -> Result<Vec<Name>, AllocError>
    ensures { IfOk result (λ names. names.items ≡ map (λ v. v.name) vars.now) }
{
    vars.iter().map(|variable| variable.name).collect(alloc)
}

/// The sorts of variables.
fn some_variable_sort_has(flaw: Flaw, declared: &Declared, vars: &[Typed]) -> bool
    ensures { result ≡ list_any (λ v. sort_has flaw declared.now v.sort) vars.now }
{
    vars.iter()
        .any(|variable| sort_has(flaw, declared, &variable.sort))
}

/// A list of variables with sorts.
pub(crate) fn variables_have(
    alloc: Global,
    flaw: Flaw,
    declared: &Declared,
    vars: &[Typed],
) -> Result<bool, AllocError>
    ensures { IfOk result (λ found. found ≡ variables_have flaw declared.now vars.now) }
{
    let names = names_of(alloc, vars)?;
    let repeats = list_has(alloc, flaw, &names)?;
    Ok(some_variable_sort_has(flaw, declared, vars) || repeats)
}

/// The sorts of a predicate's places.
pub(crate) fn some_sort_has(flaw: Flaw, declared: &Declared, sorts: &[Name]) -> bool
    ensures { result ≡ list_any (sort_has flaw declared.now) sorts.now }
{
    sorts.iter().any(|sort| sort_has(flaw, declared, sort))
}
