//! Faults of literals and effects.
ghost use Rattle.std.specs.Prelude.{◌≡◌};
ghost use Rattle.std.specs.List.{list_any};
ghost use Rattle.ipa_spec.specs.Faults.{undeclared_has, atom_has, literal_has, effect_has};
ghost use Rattle.ipa_spec.specs.Variables.{sorts_of_variables};

use crate::clauses::{Atom, Literal};
use crate::faults::FaultKind;
use crate::faults::places::{atom_places_have, comparison_has, effect_places_have};
use crate::faults::variables::Variables;
use crate::lists::List;
use crate::operations::Effect;
use crate::specification::Specification;

// A predicate number without a declaration.
pub(super) fn undeclared_has(kind: FaultKind) -> bool
    ensures { result ≡ undeclared_has kind }
{
    kind == FaultKind::UnknownName
}

fn atom_has(kind: FaultKind, parts: &Specification, variables: &Variables, atom: &Atom) -> bool
    ensures { result ≡ atom_has kind parts.now (sorts_of_variables variables.now) atom.now }
{
    match parts.predicates.get(atom.predicate as usize) {
        Some(predicate) => atom_places_have(kind, parts, variables, predicate, atom),
        None => undeclared_has(kind),
    }
}

fn literal_has(
    kind: FaultKind,
    parts: &Specification,
    variables: &Variables,
    literal: &Literal,
) -> bool
    ensures { result
        ≡ literal_has kind parts.now (sorts_of_variables variables.now) literal.now }
{
    match literal {
        Literal::Holds(atom) => atom_has(kind, parts, variables, atom),
        Literal::Fails(atom) => atom_has(kind, parts, variables, atom),
        Literal::Same(one, other) => comparison_has(kind, parts, variables, *one, *other),
        Literal::Differ(one, other) => comparison_has(kind, parts, variables, *one, *other),
    }
}

// One of the literals of a clause, or of the needs of an operation.
pub(super) fn some_literal_has(
    kind: FaultKind,
    parts: &Specification,
    variables: &Variables,
    literals: &List<Literal>,
) -> bool
    ensures { result
        ≡ list_any (literal_has kind parts.now (sorts_of_variables variables.now))
        literals.now }
{
    literals
        .as_slice()
        .iter()
        .any(|literal| literal_has(kind, parts, variables, literal))
}

fn effect_has(
    kind: FaultKind,
    parts: &Specification,
    variables: &Variables,
    effect: &Effect,
) -> bool
    ensures { result
        ≡ effect_has kind parts.now (sorts_of_variables variables.now) effect.now }
{
    match parts.predicates.get(effect.predicate as usize) {
        Some(predicate) => effect_places_have(kind, parts, variables, predicate, effect),
        None => undeclared_has(kind),
    }
}

// One of the effects of an operation, or of the further removes of a bound.
pub(super) fn some_effect_has(
    kind: FaultKind,
    parts: &Specification,
    variables: &Variables,
    effects: &List<Effect>,
) -> bool
    ensures { result
        ≡ list_any (effect_has kind parts.now (sorts_of_variables variables.now)) effects.now }
{
    effects
        .as_slice()
        .iter()
        .any(|effect| effect_has(kind, parts, variables, effect))
}
