//! What can be wrong with the parts of a specification.
mod bounds;
mod declarations;
mod kinds;
pub(crate) mod limits;
mod literals;
mod names;
mod places;
mod ranges;
mod variables;

/// The first fault of the parts of a specification, in this order.
#[derive(Clone, Copy, Debug, PartialEq, Eq)]
pub enum SpecFault {
    /// A place past a predicate's arity holds something.
    Arity,
    /// A variable stands in a place of another sort, or is compared with one of another sort.
    SortMismatch,
    /// A sort or a predicate is not declared.
    UnknownName,
    /// A name is declared twice in its kind, or a variable twice in its list.
    Duplicate,
    /// An add has a `*`, or a bound's further effect adds.
    WildAdd,
    /// An argument is no variable of its list, or a bound counts a place that its predicate lacks.
    FreeVariable,
    /// A count or number passes the limit of number `which`, which is the least such.
    Limit {
        /// The number of the limit, from 1 to 13, or 19.
        which: u8,
        /// The count or number that was found.
        found: u64,
    },
}

/// The kinds of fault that are no limit.
#[derive(Clone, Copy, Debug, PartialEq, Eq)]
pub enum FaultKind {
    /// As `SpecFault::Arity`.
    Arity,
    /// As `SpecFault::SortMismatch`.
    SortMismatch,
    /// As `SpecFault::UnknownName`.
    UnknownName,
    /// As `SpecFault::Duplicate`.
    Duplicate,
    /// As `SpecFault::WildAdd`.
    WildAdd,
    /// As `SpecFault::FreeVariable`.
    FreeVariable,
}
