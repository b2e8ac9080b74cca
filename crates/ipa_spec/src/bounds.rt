//! Bounds on the sizes of groups of facts.
use crate::lists::List;
use crate::names::Name;
use crate::operations::Effect;

/// Which fact of a group that is over its bound a drop removes.
#[derive(Clone, Copy, Debug, PartialEq, Eq)]
pub enum Pick {
    /// The greatest fact.
    Greatest,
    /// The fact that was added last, by the ages of facts, and of several the greatest one.
    Youngest,
}

/// A bound: of the facts of a predicate that agree in all places but the counted one,
/// at most `most` are to be true.
#[derive(Clone, Debug, Drop)]
pub struct Bound {
    /// The bound's name.
    pub name: Name,
    /// The number of the predicate whose facts it counts.
    pub predicate: u8,
    /// The name of the variable in each place, and the name in the first place past the arity.
    pub vars: [Name; 3],
    /// The counted place, from 0.
    pub counted: u8,
    /// The size of a group that is allowed, from 1 to 65535.
    pub most: u16,
    /// What a drop removes beside its fact, at most 4 effects over the variables.
    pub removes: List<Effect>,
    /// Which fact of a group that is over the bound a drop removes.
    pub pick: Pick,
}
