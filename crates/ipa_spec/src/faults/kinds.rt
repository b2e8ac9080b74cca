//! Whether a specification has a fault of a kind.
ghost use Rattle.std.specs.Prelude.{◌≡◌};
ghost use Rattle.ipa_spec.specs.Faults.{names_have, specification_has};

use crate::faults::FaultKind;
use crate::faults::bounds::some_bound_has;
use crate::faults::declarations::{
    some_clause_has, some_constant_has, some_operation_has, some_predicate_has,
};
use crate::faults::names::has_repeat;
use crate::specification::Specification;

// A name that stands twice in its kind.
fn names_have(kind: FaultKind, parts: &Specification) -> bool
    ensures { result ≡ names_have kind parts.now }
{
    match kind {
        FaultKind::Duplicate => {
            has_repeat(parts.sorts.as_slice())
                || has_repeat(parts.constants.as_slice())
                || has_repeat(parts.predicates.as_slice())
                || has_repeat(parts.clauses.as_slice())
                || has_repeat(parts.operations.as_slice())
                || has_repeat(parts.bounds.as_slice())
        }
        _ => false,
    }
}

// Whether some part has a fault of this kind.
#[tactic(auto, unfolding(crate::specs::Faults::specification_has))]
pub(super) fn specification_has(kind: FaultKind, parts: &Specification) -> bool
    ensures { result ≡ specification_has kind parts.now }
{
    names_have(kind, parts)
        || some_constant_has(kind, parts)
        || some_predicate_has(kind, parts)
        || some_clause_has(kind, parts)
        || some_operation_has(kind, parts)
        || some_bound_has(kind, parts)
}
