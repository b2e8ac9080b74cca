//! Predicates with the rule by which concurrent effects on their facts are resolved, and variables.
use crate::names::Name;

/// Which of two concurrent effects on one fact prevails.
#[derive(Clone, Copy, Debug, PartialEq, Eq)]
pub enum Rule {
    /// An add prevails over a concurrent remove.
    AddWins,
    /// A remove prevails over a concurrent add.
    RemoveWins,
}

/// A predicate: its facts have one element in each of its places.
#[derive(Clone, Copy, Debug, PartialEq, Eq)]
pub struct Predicate {
    /// The predicate's name.
    pub name: Name,
    /// The number of places, from 0 to 3.
    pub arity: u8,
    /// The number of the sort of each place, and 0 past the arity.
    pub sorts: [u8; 3],
    /// How concurrent effects on its facts are resolved.
    pub rule: Rule,
}

/// A variable of a clause or a parameter of an operation.
#[derive(Clone, Copy, Debug, PartialEq, Eq)]
pub struct Var {
    /// The variable's name.
    pub name: Name,
    /// The number of its sort.
    pub sort: u8,
}
