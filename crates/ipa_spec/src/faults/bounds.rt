//! Faults of bounds.
ghost use Rattle.std.specs.Prelude.{◌≡◌, not, drop, slice_index_or, slice_get};
ghost use Rattle.std.specs.List.{list_any};
ghost use Rattle.std.specs.Option.{option_map_or, option_copied};
ghost use Rattle.ipa_spec.specs.Faults.{same_name, bound_places_have, bound_adds, bound_has, undeclared_has};

use crate::bounds::Bound;
use crate::faults::FaultKind;
use crate::faults::literals::{some_effect_has, undeclared_has};
use crate::faults::names::{has_repeat, same_name};
use crate::faults::ranges::{first_items, later_items};
use crate::faults::variables::Variables;
use crate::names::Name;
use crate::predicates::Predicate;
use crate::specification::Specification;

// Whether a place past the arity has another name than the first place.
fn holds_past_arity(bound: &Bound, predicate: &Predicate) -> bool
    ensures { result
        ≡ list_any (λ name. not (same_name (slice_index_or bound.now.vars 0 name) name))
        (drop predicate.now.arity bound.now.vars) }
{
    some_name_differs(&bound.vars[0], later_items(&bound.vars, predicate.arity))
}

// Whether one of the names differs from the first.
fn some_name_differs(first: &Name, names: &[Name]) -> bool
    ensures { result ≡ list_any (λ name. not (same_name first.now name)) names.now }
{
    names.iter().any(|name| !same_name(first, name))
}

// The variables of a bound and the place that it counts.
fn bound_places_have(kind: FaultKind, bound: &Bound, predicate: &Predicate) -> bool
    ensures { result ≡ bound_places_have kind bound.now predicate.now }
{
    match kind {
        FaultKind::Arity => holds_past_arity(bound, predicate),
        FaultKind::Duplicate => has_repeat(first_items(&bound.vars, predicate.arity)),
        FaultKind::FreeVariable => predicate.arity <= bound.counted,
        _ => false,
    }
}

// Whether one of the further effects adds.
fn some_effect_adds(bound: &Bound) -> bool
    ensures { result ≡ list_any (λ e. e.add) bound.now.removes }
{
    bound.removes.as_slice().iter().any(|effect| effect.add)
}

// The further effects of a bound, which are to remove.
fn bound_adds(kind: FaultKind, bound: &Bound) -> bool
    ensures { result ≡ bound_adds kind bound.now }
{
    match kind {
        FaultKind::WildAdd => some_effect_adds(bound),
        _ => false,
    }
}

// What the bound says of its predicate, where that is declared.
fn subject_has(kind: FaultKind, bound: &Bound, predicate: Option<&Predicate>) -> bool
    ensures { result
        ≡ option_map_or (bound_places_have kind bound.now) (option_copied predicate.entry)
        (undeclared_has kind) }
{
    match predicate {
        Some(predicate) => bound_places_have(kind, bound, predicate),
        None => undeclared_has(kind),
    }
}

fn bound_has(kind: FaultKind, parts: &Specification, bound: &Bound) -> bool
    ensures { result ≡ bound_has kind parts.now bound.now }
{
    let predicate = parts.predicates.get(bound.predicate as usize);
    subject_has(kind, bound, predicate)
        || bound_adds(kind, bound)
        || some_effect_has(kind, parts, &Variables::Places(predicate), &bound.removes)
}

pub(super) fn some_bound_has(kind: FaultKind, parts: &Specification) -> bool
    ensures { result ≡ list_any (bound_has kind parts.now) parts.now.bounds }
{
    parts
        .bounds
        .as_slice()
        .iter()
        .any(|bound| bound_has(kind, parts, bound))
}
