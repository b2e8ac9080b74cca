//! The specification: parts without a fault.
ghost use Rattle.std.specs.Prelude.{◌≡◌, None, Some, IfOk, IfErr};
ghost use Rattle.ipa_spec.specs.Parts.{specification_of};
ghost use Rattle.ipa_spec.specs.Limits.{fault_of, IsFaultless};

use crate::bounds::Bound;
use crate::clauses::Clause;
use crate::constants::Constant;
use crate::faults::SpecFault;
use crate::faults::limits::fault_of;
use crate::lists::List;
use crate::names::Name;
use crate::operations::Operation;
use crate::predicates::Predicate;
use crate::specification::Specification;
use std::alloc::AllocError;
use std::marker::Model;

/// A specification without a fault, by its type.
#[derive(Debug, Drop)]
pub struct Spec {
    parts: Specification,
}

impl Model for Spec {
    ghost use Rattle.ipa_spec.specs.declared.specification.Specification.{Specification};
    ghost use Rattle.ipa_spec.specs.Limits.{IsFaultless};

    ghost Value = { Specification };

    ghost view = { λ a. a.parts };

    ghost invariant = { λ a. IsFaultless a.parts };
}

impl Spec {
    /// The specification of these parts, or their first fault. It takes no memory, and the parts of
    /// a refused specification are given up.
    pub fn new(
        sorts: List<Name>,
        constants: List<Constant>,
        predicates: List<Predicate>,
        clauses: List<Clause>,
        operations: List<Operation>,
        bounds: List<Bound>,
    ) -> Result<Spec, SpecFault>
        ensures ok { IfOk result
            (λ spec. spec ≡ specification_of sorts constants predicates clauses operations bounds) }
        ensures faultless { IfOk result
            (λ _. fault_of (specification_of sorts constants predicates clauses operations bounds) ≡ None) }
        ensures refused { IfErr result (λ fault.
            fault_of (specification_of sorts constants predicates clauses operations bounds) ≡ Some fault) }
    {
        let parts = Specification {
            sorts,
            constants,
            predicates,
            clauses,
            operations,
            bounds,
        };
        match fault_of(&parts) {
            None => Ok(Spec { parts }),
            Some(fault) => Err(fault),
        }
    }

    // The parts, which have no fault by the type.
    pub(crate) fn faultless_parts(&self) -> &Specification
        ensures value { result.now ≡ self.now }
        ensures faultless { IsFaultless self.now }
    {
        &self.parts
    }

    /// The sorts of elements.
    pub fn sorts(&self) -> &List<Name>
        ensures { result.now ≡ self.now.sorts }
    {
        &self.parts.sorts
    }

    /// The constants, in declared order over all sorts.
    pub fn constants(&self) -> &List<Constant>
        ensures { result.now ≡ self.now.constants }
    {
        &self.parts.constants
    }

    /// The predicates.
    pub fn predicates(&self) -> &List<Predicate>
        ensures { result.now ≡ self.now.predicates }
    {
        &self.parts.predicates
    }

    /// The clauses, which are to hold in every state.
    pub fn clauses(&self) -> &List<Clause>
        ensures { result.now ≡ self.now.clauses }
    {
        &self.parts.clauses
    }

    /// The operations that replicas accept.
    pub fn operations(&self) -> &List<Operation>
        ensures { result.now ≡ self.now.operations }
    {
        &self.parts.operations
    }

    /// The bounds on sizes of groups.
    pub fn bounds(&self) -> &List<Bound>
        ensures { result.now ≡ self.now.bounds }
    {
        &self.parts.bounds
    }

    /// A copy, or want of memory.
    pub fn copy(&self) -> Result<Spec, AllocError>
        ensures { IfOk result (λ copy. copy ≡ self.now) }
    {
        let parts = copied(&self.parts)?;
        Ok(Spec { parts })
    }
}

impl Clone for Spec {
    ghost is_clone = { λ spec copy. copy ≡ spec };

    fn clone(&self) -> Result<Spec, AllocError> {
        self.copy()
    }
}

// A copy of the parts.
fn copied(parts: &Specification) -> Result<Specification, AllocError>
    ensures { IfOk result (λ copy. copy ≡ parts.now) }
{
    parts.clone()
}
