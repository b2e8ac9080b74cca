//! Facts, universes, and what is said of states.

/// A fact: a predicate with elements in its places. Facts are ordered by predicate, and then by
/// element from the first place.
#[derive(Clone, Copy, PartialEq, Eq, PartialOrd, Ord)]
pub struct Fact {
    /// The number of the predicate.
    pub predicate: u8,
    /// The number of the element in each place, and 0 past the arity.
    pub args: [u16; 3],
}

/// How young a true fact is: the size of the transaction that added it, and its origin. Ages are ordered by size,
/// and then by origin; a fact that no transaction touches has the age 0, 0.
#[derive(Clone, Copy, PartialEq, Eq, PartialOrd, Ord)]
pub struct Age {
    /// One more than the number of transactions that were known where the fact was added.
    pub size: u64,
    /// The origin of the transaction that added it.
    pub origin: u8,
}

/// The number of elements of each sort. The elements of a sort are the numbers below it.
#[derive(Clone, Copy, PartialEq, Eq)]
pub struct Universe {
    /// The size of each sort, and 0 for sorts that are not declared.
    pub sizes: [u16; 8],
}

/// An instance of a clause that is not true.
#[derive(Clone, Copy, PartialEq, Eq)]
pub struct Broken {
    /// The number of the clause.
    pub clause: u8,
    /// The values of its variables, and 0 past them.
    pub values: [u16; 4],
}

/// What an action does to a fact.
#[derive(Clone, Copy, PartialEq, Eq)]
pub enum Touch {
    /// It adds the fact.
    Adds,
    /// It removes the fact.
    Removes,
    /// It leaves the fact as it is.
    Nothing,
}

/// What a session asks of a replica.
#[derive(Clone, Copy, PartialEq, Eq)]
pub enum Request {
    /// To do an operation.
    Do {
        /// The number of the operation.
        op: u8,
        /// Its arguments, and 0 past them.
        args: [u16; 4],
    },
    /// To show the true facts of a predicate.
    Show {
        /// The number of the predicate.
        predicate: u8,
        /// The element wanted in each place, or `None` for every element and past the arity.
        places: [Option<u16>; 3],
    },
}
