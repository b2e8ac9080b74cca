//! The limits on counts and numbers, and the first fault.
ghost use Rattle.std.specs.Prelude.{◌≡◌, ◌&&◌, [], ◌∷◌, not, nat_lt, nat_le, length, map, find};
ghost use Rattle.std.specs.Option.{option_map};
ghost use Rattle.ipa_spec.specs.Constants.{constant_count};
ghost use Rattle.ipa_spec.specs.Limits.{above, size_outside, constant_counts, first_there, first_limit, fault_if, fault_of};

use crate::bounds::Bound;
use crate::clauses::Clause;
use crate::faults::kinds::specification_has;
use crate::faults::{FaultKind, SpecFault};
use crate::lists::List;
use crate::operations::Operation;
use crate::predicates::Predicate;
use crate::specification::Specification;

// The limit is passed by what was found.
fn passed(which: u8, found: Option<usize>) -> Option<SpecFault>
    ensures { result ≡ option_map (λ found. SpecFault.Limit which found) found }
{
    match found {
        Some(found) => Some(SpecFault::Limit {
            which,
            found: found as u64,
        }),
        None => None,
    }
}

// The limit on one count.
fn count_above(which: u8, most: usize, count: usize) -> Option<SpecFault>
    ensures { result ≡ above which most (count ∷ []) }
{
    passed(which, if count > most { Some(count) } else { None })
}

// The first number of the places of a predicate that is above 3.
fn first_arity_above(predicates: &List<Predicate>) -> Option<usize>
    ensures { result ≡ find (λ count. nat_lt 3 count) (map (λ p. p.arity) predicates.now) }
{
    predicates
        .as_slice()
        .iter()
        .map(|predicate| predicate.arity as usize)
        .find(|count| *count > 3)
}

// The first number of the literals of a clause that is above 6.
fn first_literals_above(clauses: &List<Clause>) -> Option<usize>
    ensures { result ≡ find (λ count. nat_lt 6 count) (map (λ c. length c.literals) clauses.now) }
{
    clauses
        .as_slice()
        .iter()
        .map(|clause| clause.literals.len())
        .find(|count| *count > 6)
}

// The first number of the variables of a clause that is above 4.
fn first_variables_above(clauses: &List<Clause>) -> Option<usize>
    ensures { result ≡ find (λ count. nat_lt 4 count) (map (λ c. length c.vars) clauses.now) }
{
    clauses
        .as_slice()
        .iter()
        .map(|clause| clause.vars.len())
        .find(|count| *count > 4)
}

// The first number of the parameters of an operation that is above 4.
fn first_parameters_above(operations: &List<Operation>) -> Option<usize>
    ensures { result ≡ find (λ count. nat_lt 4 count) (map (λ o. length o.params) operations.now) }
{
    operations
        .as_slice()
        .iter()
        .map(|operation| operation.params.len())
        .find(|count| *count > 4)
}

// The first number of the effects of an operation that is above 12.
fn first_effects_above(operations: &List<Operation>) -> Option<usize>
    ensures { result
        ≡ find (λ count. nat_lt 12 count) (map (λ o. length o.effects) operations.now) }
{
    operations
        .as_slice()
        .iter()
        .map(|operation| operation.effects.len())
        .find(|count| *count > 12)
}

// The first number of the needs of an operation that is above 6.
fn first_needs_above(operations: &List<Operation>) -> Option<usize>
    ensures { result ≡ find (λ count. nat_lt 6 count) (map (λ o. length o.needs) operations.now) }
{
    operations
        .as_slice()
        .iter()
        .map(|operation| operation.needs.len())
        .find(|count| *count > 6)
}

// The first number of the further removes of a bound that is above 4.
fn first_removes_above(bounds: &List<Bound>) -> Option<usize>
    ensures { result ≡ find (λ count. nat_lt 4 count) (map (λ b. length b.removes) bounds.now) }
{
    bounds
        .as_slice()
        .iter()
        .map(|bound| bound.removes.len())
        .find(|count| *count > 4)
}

// The first size of a bound that is 0 or above 65535.
fn first_size_outside(bounds: &List<Bound>) -> Option<usize>
    ensures { result
        ≡ find (λ size. not (nat_le 1 size && nat_le size 65535)) (map (λ b. b.most) bounds.now) }
{
    bounds
        .as_slice()
        .iter()
        .map(|bound| bound.most as usize)
        .find(|size| !(1 <= *size && *size <= 65535))
}

// How many constants a sort has.
fn constant_count(parts: &Specification, sort: usize) -> usize
    ensures { result ≡ constant_count parts.now sort }
{
    parts
        .constants
        .as_slice()
        .iter()
        .filter(|constant| constant.sort as usize == sort)
        .count()
}

// The first number of the constants of a sort that is above 4.
fn first_constants_above(parts: &Specification) -> Option<usize>
    ensures { result ≡ find (λ count. nat_lt 4 count) (constant_counts parts.now) }
{
    (0..parts.sorts.len())
        .map(|sort| constant_count(parts, sort))
        .find(|count| *count > 4)
}

// The first of the faults that is there.
fn first_there(faults: &[Option<SpecFault>]) -> Option<SpecFault>
    ensures { result ≡ first_there faults.now }
{
    for fault in faults {
        if fault.is_some() {
            return *fault;
        }
    }
    None
}

// The least limit that is passed.
#[tactic(auto, unfolding(crate::specs::Limits::first_limit))]
fn first_limit(parts: &Specification) -> Option<SpecFault>
    ensures { result ≡ first_limit parts.now }
{
    first_there(&[
        count_above(1, 8, parts.sorts.len()),
        count_above(2, 32, parts.predicates.len()),
        passed(3, first_arity_above(&parts.predicates)),
        count_above(4, 32, parts.clauses.len()),
        passed(5, first_literals_above(&parts.clauses)),
        passed(6, first_variables_above(&parts.clauses)),
        count_above(7, 32, parts.operations.len()),
        passed(8, first_parameters_above(&parts.operations)),
        passed(9, first_effects_above(&parts.operations)),
        passed(10, first_needs_above(&parts.operations)),
        count_above(11, 8, parts.bounds.len()),
        passed(12, first_size_outside(&parts.bounds)),
        passed(13, first_removes_above(&parts.bounds)),
        passed(19, first_constants_above(parts)),
    ])
}

// The fault, where it was found.
fn fault_if(found: bool, fault: SpecFault) -> Option<SpecFault>
    ensures { result ≡ fault_if found fault }
{
    if found { Some(fault) } else { None }
}

// The first fault.
#[tactic(auto, unfolding(crate::specs::Limits::fault_of))]
pub(crate) fn fault_of(parts: &Specification) -> Option<SpecFault>
    ensures { result ≡ fault_of parts.now }
{
    first_there(&[
        fault_if(specification_has(FaultKind::Arity, parts), SpecFault::Arity),
        fault_if(
            specification_has(FaultKind::SortMismatch, parts),
            SpecFault::SortMismatch,
        ),
        fault_if(
            specification_has(FaultKind::UnknownName, parts),
            SpecFault::UnknownName,
        ),
        fault_if(
            specification_has(FaultKind::Duplicate, parts),
            SpecFault::Duplicate,
        ),
        fault_if(
            specification_has(FaultKind::WildAdd, parts),
            SpecFault::WildAdd,
        ),
        fault_if(
            specification_has(FaultKind::FreeVariable, parts),
            SpecFault::FreeVariable,
        ),
        first_limit(parts),
    ])
}
