//! Truth of literals and instances in a viewed state.
ghost use Rattle.std.specs.Prelude.{◌≡◌, ◌==◌, ◌<◌, nat_lt, length, filter, take, slice_get, slice_index, slice_index_or, if◌then◌else◌};
ghost use Rattle.std.specs.List.{list_any};
ghost use Rattle.std.specs.Option.{option_map_or};
ghost use Rattle.ipa_spec.specs.Actions.{arity_of};
ghost use Rattle.ipa_spec.specs.Constants.{constants_of, element_of_constant};
ghost use Rattle.ipa_spec.specs.Faults.{term_at};
ghost use Rattle.ipa_logic.specs.Facts.{has};
ghost use Rattle.ipa_logic.specs.Truth.{value_at, element_of, element_at, fact_of, same_value, literal_true, instance_true};

use crate::facts::Fact;
use crate::view::View;
use ipa_spec::{Atom, Clause, Constant, Literal, Spec, Term};

/// Whether the literal is true in the viewed state, under the values of its variables.
pub fn holds_literal<V: View>(spec: &Spec, view: &V, literal: &Literal, values: &[u16; 4]) -> bool
    ensures { result ≡ literal_true spec.now (has (V.facts view.now)) values.now literal.now }
{
    match literal {
        Literal::Holds(atom) => view.holds(&fact_of(spec, atom, values)),
        Literal::Fails(atom) => !view.holds(&fact_of(spec, atom, values)),
        Literal::Same(one, other) => has_same_value(spec, values, *one, *other),
        Literal::Differ(one, other) => !has_same_value(spec, values, *one, *other),
    }
}

/// Whether the instance of the clause with these values is true in the viewed state.
pub fn holds_instance<V: View>(spec: &Spec, view: &V, clause: &Clause, values: &[u16; 4]) -> bool
    ensures { result ≡ instance_true spec.now (has (V.facts view.now)) values.now clause.now }
{
    clause
        .literals
        .as_slice()
        .iter()
        .any(|literal| holds_literal(spec, view, literal, values))
}

/// The fact that the atom stands for under the values.
pub fn fact_of(spec: &Spec, atom: &Atom, values: &[u16; 4]) -> Fact
    ensures { result ≡ fact_of spec.now values.now atom.now }
{
    let arity = arity_of(spec, atom.predicate);
    Fact {
        predicate: atom.predicate,
        args: [
            element_at(spec, arity, values, atom, 0),
            element_at(spec, arity, values, atom, 1),
            element_at(spec, arity, values, atom, 2),
        ],
    }
}

/// The number of places of a predicate, 0 where it is not declared.
pub fn arity_of(spec: &Spec, predicate: u8) -> u8
    ensures { result ≡ arity_of spec.now.predicates predicate }
{
    match spec.predicates().get(predicate as usize) {
        Some(predicate) => predicate.arity,
        None => 0,
    }
}

/// The value at a place, 0 where there is no such place.
pub fn value_at(values: &[u16; 4], place: u8) -> u16
    ensures { result ≡ value_at values.now place }
{
    match values.get(place as usize) {
        Some(element) => *element,
        None => 0,
    }
}

/// The element that a term stands for: the value of a variable, or a constant's own element.
pub fn element_of(spec: &Spec, values: &[u16; 4], term: Term) -> u16
    ensures { result ≡ element_of spec.now values.now term }
{
    match term {
        Term::Var(variable) => value_at(values, variable),
        Term::Const(constant) => element_of_constant(spec, constant),
    }
}

/// The element that a constant stands for: the number of its sort's constants declared before it.
pub fn element_of_constant(spec: &Spec, constant: u8) -> u16
    ensures { result ≡ element_of_constant spec.now constant }
{
    match spec.constants().get(constant as usize) {
        Some(found) => constants_before(spec.constants().as_slice(), constant, found.sort),
        None => 0,
    }
}

// How many of the constants before this one are of the sort.
fn constants_before(constants: &[Constant], constant: u8, sort: u8) -> u16
    requires { constant < length constants.now }
    ensures { result ≡ length (constants_of (take constant constants.now) sort) }
{
    constants[..constant as usize]
        .iter()
        .filter(|earlier| earlier.sort == sort)
        .count() as u16
}

// The element in a place of an atom's fact.
fn element_at(spec: &Spec, arity: u8, values: &[u16; 4], atom: &Atom, place: usize) -> u16
    requires { place < 3 }
    ensures { result ≡ (if nat_lt place arity then element_of spec.now values.now (term_at atom.now place) else 0) }
{
    let term = atom.args[place];
    if place < arity as usize {
        element_of(spec, values, term)
    } else {
        0
    }
}

/// Whether two terms stand for the same element.
pub fn has_same_value(spec: &Spec, values: &[u16; 4], one: Term, other: Term) -> bool
    ensures { result ≡ same_value spec.now values.now one other }
{
    element_of(spec, values, one) == element_of(spec, values, other)
}
