//! Constants, and the terms that stand in literals.
use crate::names::Name;

/// A fixed element of a sort: the one whose number is that of the sort's constants declared before it.
#[derive(Clone, Copy, Debug, PartialEq, Eq)]
pub struct Constant {
    /// The constant's name.
    pub name: Name,
    /// The number of its sort.
    pub sort: u8,
}

/// What stands in a place of an atom, or on a side of an equality.
#[derive(Clone, Copy, Debug, PartialEq, Eq)]
pub enum Term {
    /// The variable of this number.
    Var(u8),
    /// The constant of this number, in declared order over all sorts.
    Const(u8),
}
