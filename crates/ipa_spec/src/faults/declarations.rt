//! Faults of constants, predicates, lists of variables, clauses and operations.
ghost use Rattle.std.specs.Prelude.{◌≡◌, ◌==◌, ◌&&◌, ℕ, true, not, nat_lt, nat_le, length, drop, slice_get};
ghost use Rattle.std.specs.List.{list_any};
ghost use Rattle.std.specs.Option.{option_map_or};
ghost use Rattle.ipa_spec.specs.Faults.{place_without_sort, constant_has, predicate_has, variables_have, clause_has, operation_has};

use crate::clauses::Clause;
use crate::constants::Constant;
use crate::faults::FaultKind;
use crate::faults::literals::{some_effect_has, some_literal_has};
use crate::faults::names::has_repeat;
use crate::faults::ranges::later_items;
use crate::faults::variables::Variables;
use crate::lists::List;
use crate::names::Name;
use crate::operations::Operation;
use crate::predicates::{Predicate, Var};
use crate::specification::Specification;

// Whether a place past the arity holds something.
fn holds_past_arity(predicate: &Predicate) -> bool
    ensures { result
        ≡ list_any (λ sort. not (sort == 0)) (drop predicate.now.arity predicate.now.sorts) }
{
    later_items(&predicate.sorts, predicate.arity)
        .iter()
        .any(|sort| *sort != 0)
}

// Whether the predicate has this place, and its sort is not declared.
fn is_place_without_sort(sorts: &List<Name>, predicate: &Predicate, place: usize) -> bool
    ensures { result ≡ place_without_sort sorts.now predicate.now place }
{
    place < predicate.arity as usize && is_no_sort(sorts, predicate.sorts.get(place).copied())
}

// Whether no such sort is declared.
fn is_no_sort(sorts: &List<Name>, sort: Option<u8>) -> bool
    ensures { result ≡ option_map_or (λ sort. nat_le (length sorts.now) sort) sort true }
{
    match sort {
        Some(sort) => sorts.len() <= sort as usize,
        None => true,
    }
}

// A declared constant.
fn constant_has(kind: FaultKind, parts: &Specification, constant: &Constant) -> bool
    ensures { result ≡ constant_has kind parts.now constant.now }
{
    match kind {
        FaultKind::UnknownName => parts.sorts.len() <= constant.sort as usize,
        _ => false,
    }
}

// A declared predicate.
fn predicate_has(kind: FaultKind, parts: &Specification, predicate: &Predicate) -> bool
    ensures { result ≡ predicate_has kind parts.now predicate.now }
{
    match kind {
        FaultKind::Arity => holds_past_arity(predicate),
        FaultKind::UnknownName => {
            is_place_without_sort(&parts.sorts, predicate, 0)
                || is_place_without_sort(&parts.sorts, predicate, 1)
                || is_place_without_sort(&parts.sorts, predicate, 2)
        }
        _ => false,
    }
}

// Whether the sort of a variable is not declared.
fn some_sort_is_unknown(sorts: &List<Name>, vars: &List<Var>) -> bool
    ensures { result ≡ list_any (λ v. nat_le (length sorts.now) v.sort) vars.now }
{
    vars.as_slice()
        .iter()
        .any(|var| sorts.len() <= var.sort as usize)
}

// A list of variables.
fn variables_have(kind: FaultKind, parts: &Specification, vars: &List<Var>) -> bool
    ensures { result ≡ variables_have kind parts.now vars.now }
{
    match kind {
        FaultKind::UnknownName => some_sort_is_unknown(&parts.sorts, vars),
        FaultKind::Duplicate => has_repeat(vars.as_slice()),
        _ => false,
    }
}

fn clause_has(kind: FaultKind, parts: &Specification, clause: &Clause) -> bool
    ensures { result ≡ clause_has kind parts.now clause.now }
{
    variables_have(kind, parts, &clause.vars)
        || some_literal_has(
            kind,
            parts,
            &Variables::Listed(&clause.vars),
            &clause.literals,
        )
}

fn operation_has(kind: FaultKind, parts: &Specification, operation: &Operation) -> bool
    ensures { result ≡ operation_has kind parts.now operation.now }
{
    let variables = Variables::Listed(&operation.params);
    variables_have(kind, parts, &operation.params)
        || some_literal_has(kind, parts, &variables, &operation.needs)
        || some_effect_has(kind, parts, &variables, &operation.effects)
}

pub(super) fn some_constant_has(kind: FaultKind, parts: &Specification) -> bool
    ensures { result ≡ list_any (constant_has kind parts.now) parts.now.constants }
{
    parts
        .constants
        .as_slice()
        .iter()
        .any(|constant| constant_has(kind, parts, constant))
}

pub(super) fn some_predicate_has(kind: FaultKind, parts: &Specification) -> bool
    ensures { result ≡ list_any (predicate_has kind parts.now) parts.now.predicates }
{
    parts
        .predicates
        .as_slice()
        .iter()
        .any(|predicate| predicate_has(kind, parts, predicate))
}

pub(super) fn some_clause_has(kind: FaultKind, parts: &Specification) -> bool
    ensures { result ≡ list_any (clause_has kind parts.now) parts.now.clauses }
{
    parts
        .clauses
        .as_slice()
        .iter()
        .any(|clause| clause_has(kind, parts, clause))
}

pub(super) fn some_operation_has(kind: FaultKind, parts: &Specification) -> bool
    ensures { result ≡ list_any (operation_has kind parts.now) parts.now.operations }
{
    parts
        .operations
        .as_slice()
        .iter()
        .any(|operation| operation_has(kind, parts, operation))
}
