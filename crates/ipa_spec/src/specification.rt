//! The parts of a specification, in declared order, and the faults that they may have.
use crate::bounds::Bound;
use crate::clauses::Clause;
use crate::constants::Constant;
use crate::lists::List;
use crate::names::Name;
use crate::operations::Operation;
use crate::predicates::Predicate;

/// The declared parts of a specification. Numbers of sorts, constants, predicates, clauses, operations and
/// bounds are places in these lists, counted from 0.
#[derive(Clone, Debug, Drop)]
pub struct Specification {
    /// The sorts of elements.
    pub sorts: List<Name>,
    /// The constants of these sorts.
    pub constants: List<Constant>,
    /// The predicates over these sorts.
    pub predicates: List<Predicate>,
    /// The clauses that are to hold in every state.
    pub clauses: List<Clause>,
    /// The operations that replicas accept.
    pub operations: List<Operation>,
    /// The bounds on sizes of groups.
    pub bounds: List<Bound>,
}
