//! Faults of what stands in the places of atoms and effects.
ghost use Rattle.std.specs.Prelude.{◌≡◌, ◌<◌, ◌==◌, false, not, take, slice_get, slice_index, slice_index_or};
ghost use Rattle.ipa_spec.specs.Faults.{variable_has, constant_number_has, term_has, term_free, term_unknown, unused_has, atom_place_has, comparison_has, arg_has, is_any, is_first_variable, effect_place_has, some_place};
ghost use Rattle.std.specs.Option.{option_map_or};
ghost use Rattle.ipa_spec.specs.Actions.{sorts_of_vars};
ghost use Rattle.ipa_spec.specs.Constants.{sort_of_constant, sort_of_term};
ghost use Rattle.ipa_spec.specs.Variables.{sorts_of_variables};

use crate::clauses::Atom;
use crate::constants::Term;
use crate::faults::FaultKind;
use crate::faults::variables::Variables;
use crate::operations::{Arg, Effect};
use crate::predicates::Predicate;
use crate::specification::Specification;

// A variable in a place of a sort.
fn variable_has(kind: FaultKind, variables: &Variables, wanted: u8, variable: u8) -> bool
    ensures { result ≡ variable_has kind (sorts_of_variables variables.now) wanted variable }
{
    let found = variables.sort(variable);
    match kind {
        FaultKind::SortMismatch => found.is_some_and(|sort| sort != wanted),
        FaultKind::FreeVariable => found.is_none(),
        _ => false,
    }
}

// The sort of a constant, where it is declared.
fn sort_of_constant(parts: &Specification, constant: u8) -> Option<u8>
    ensures { result ≡ sort_of_constant parts.now constant }
{
    parts
        .constants
        .get(constant as usize)
        .map(|constant| constant.sort)
}

// A constant in a place of a sort.
fn constant_number_has(kind: FaultKind, parts: &Specification, wanted: u8, constant: u8) -> bool
    ensures { result ≡ constant_number_has kind parts.now wanted constant }
{
    let found = sort_of_constant(parts, constant);
    match kind {
        FaultKind::SortMismatch => found.is_some_and(|sort| sort != wanted),
        FaultKind::UnknownName => found.is_none(),
        _ => false,
    }
}

// A term in a place of a sort.
fn term_has(
    kind: FaultKind,
    parts: &Specification,
    variables: &Variables,
    wanted: u8,
    term: Term,
) -> bool
    ensures { result ≡ term_has kind parts.now (sorts_of_variables variables.now) wanted term }
{
    match term {
        Term::Var(variable) => variable_has(kind, variables, wanted, variable),
        Term::Const(constant) => constant_number_has(kind, parts, wanted, constant),
    }
}

// A place past the arity, where `is_empty` says whether it holds nothing.
fn unused_has(kind: FaultKind, is_empty: bool) -> bool
    ensures { result ≡ unused_has kind is_empty }
{
    match kind {
        FaultKind::Arity => !is_empty,
        _ => false,
    }
}

// Whether the term is the first variable, which stands past the arity of an atom's predicate.
fn is_first_variable(term: Term) -> bool
    ensures { result ≡ is_first_variable term }
{
    match term {
        Term::Var(variable) => variable == 0,
        Term::Const(_constant) => false,
    }
}

// A place of an atom.
fn atom_place_has(
    kind: FaultKind,
    parts: &Specification,
    variables: &Variables,
    predicate: &Predicate,
    atom: &Atom,
    place: usize,
) -> bool
    requires { place < 3 }
    ensures { result ≡ atom_place_has kind parts.now (sorts_of_variables variables.now)
        predicate.now atom.now place }
{
    let term = atom.args[place];
    if place < predicate.arity as usize {
        term_has(kind, parts, variables, predicate.sorts[place], term)
    } else {
        unused_has(kind, is_first_variable(term))
    }
}

// The places of an atom.
pub(super) fn atom_places_have(
    kind: FaultKind,
    parts: &Specification,
    variables: &Variables,
    predicate: &Predicate,
    atom: &Atom,
) -> bool
    ensures { result ≡ some_place (atom_place_has kind parts.now (sorts_of_variables variables.now)
        predicate.now atom.now) }
{
    atom_place_has(kind, parts, variables, predicate, atom, 0)
        || atom_place_has(kind, parts, variables, predicate, atom, 1)
        || atom_place_has(kind, parts, variables, predicate, atom, 2)
}

// The sort of a term, where it is declared.
fn sort_of_term(parts: &Specification, variables: &Variables, term: Term) -> Option<u8>
    ensures { result ≡ sort_of_term parts.now (sorts_of_variables variables.now) term }
{
    match term {
        Term::Var(variable) => variables.sort(variable),
        Term::Const(constant) => sort_of_constant(parts, constant),
    }
}

// Whether the term is a variable that is not in the list.
fn is_free(variables: &Variables, term: Term) -> bool
    ensures { result ≡ term_free (sorts_of_variables variables.now) term }
{
    match term {
        Term::Var(variable) => variables.sort(variable).is_none(),
        Term::Const(_constant) => false,
    }
}

// Whether the term is a constant that is not declared.
fn is_unknown(parts: &Specification, term: Term) -> bool
    ensures { result ≡ term_unknown parts.now term }
{
    match term {
        Term::Var(_variable) => false,
        Term::Const(constant) => sort_of_constant(parts, constant).is_none(),
    }
}

// Two compared terms.
pub(super) fn comparison_has(
    kind: FaultKind,
    parts: &Specification,
    variables: &Variables,
    one: Term,
    other: Term,
) -> bool
    ensures { result ≡ comparison_has kind parts.now (sorts_of_variables variables.now) one other }
{
    match kind {
        FaultKind::SortMismatch => differ(
            sort_of_term(parts, variables, one),
            sort_of_term(parts, variables, other),
        ),
        FaultKind::UnknownName => is_unknown(parts, one) || is_unknown(parts, other),
        FaultKind::FreeVariable => is_free(variables, one) || is_free(variables, other),
        _ => false,
    }
}

// Whether both are there and differ.
fn differ(first: Option<u8>, second: Option<u8>) -> bool
    ensures { result
        ≡ option_map_or (λ one. option_map_or (λ two. not (one == two)) second false) first false }
{
    match (first, second) {
        (Some(one), Some(two)) => one != two,
        _ => false,
    }
}

// A used place of an effect.
fn arg_has(
    kind: FaultKind,
    parts: &Specification,
    variables: &Variables,
    add: bool,
    wanted: u8,
    arg: Arg,
) -> bool
    ensures { result
        ≡ arg_has kind parts.now (sorts_of_variables variables.now) add wanted arg }
{
    match arg {
        Arg::Var(variable) => variable_has(kind, variables, wanted, variable),
        Arg::Const(constant) => constant_number_has(kind, parts, wanted, constant),
        Arg::Any => add && kind == FaultKind::WildAdd,
    }
}

fn is_any(arg: Arg) -> bool
    ensures { result ≡ is_any arg }
{
    matches!(arg, Arg::Any)
}

// A place of an effect.
fn effect_place_has(
    kind: FaultKind,
    parts: &Specification,
    variables: &Variables,
    predicate: &Predicate,
    effect: &Effect,
    place: usize,
) -> bool
    requires { place < 3 }
    ensures { result ≡ effect_place_has kind parts.now (sorts_of_variables variables.now)
        predicate.now effect.now place }
{
    let arg = effect.args[place];
    if place < predicate.arity as usize {
        arg_has(
            kind,
            parts,
            variables,
            effect.add,
            predicate.sorts[place],
            arg,
        )
    } else {
        unused_has(kind, is_any(arg))
    }
}

// The places of an effect.
pub(super) fn effect_places_have(
    kind: FaultKind,
    parts: &Specification,
    variables: &Variables,
    predicate: &Predicate,
    effect: &Effect,
) -> bool
    ensures { result ≡ some_place (effect_place_has kind parts.now (sorts_of_variables variables.now)
        predicate.now effect.now) }
{
    effect_place_has(kind, parts, variables, predicate, effect, 0)
        || effect_place_has(kind, parts, variables, predicate, effect, 1)
        || effect_place_has(kind, parts, variables, predicate, effect, 2)
}
