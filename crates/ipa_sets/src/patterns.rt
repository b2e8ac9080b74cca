//! What removes match.

/// A predicate, with elements in some places and any in the others. Past the arity it is any.
#[derive(Clone, Copy, PartialEq, Eq, PartialOrd, Ord, Hash)]
pub struct Pattern {
    /// The number of the predicate.
    pub predicate: u8,
    /// The element in each place, or `None` for any.
    pub places: [Option<u16>; 3],
}
