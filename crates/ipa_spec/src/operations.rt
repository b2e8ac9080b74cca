//! Operations with their needs and effects, and the actions of a specification.
use crate::clauses::Literal;
use crate::lists::List;
use crate::names::Name;
use crate::predicates::Var;

/// What stands in a place of an effect.
#[derive(Clone, Copy, Debug, PartialEq, Eq)]
pub enum Arg {
    /// The parameter of this number.
    Var(u8),
    /// The constant of this number.
    Const(u8),
    /// Every element: `*`.
    Any,
}

/// An effect: it adds a fact, or removes the facts that it matches.
#[derive(Clone, Copy, Debug, PartialEq, Eq)]
pub struct Effect {
    /// Whether the effect adds. It removes where this is false.
    pub add: bool,
    /// The number of the predicate.
    pub predicate: u8,
    /// What stands in each place, and `Any` past the predicate's arity.
    pub args: [Arg; 3],
}

/// An operation: what it needs of the state in which it is accepted, and what it does to a state.
#[derive(Clone, Debug, Drop)]
pub struct Operation {
    /// The operation's name.
    pub name: Name,
    /// Its parameters, at most 4.
    pub params: List<Var>,
    /// What it needs, at most 6 literals over its parameters.
    pub needs: List<Literal>,
    /// What it does, at most 12 effects.
    pub effects: List<Effect>,
}

/// What a transaction does: an operation, or the drop of a fact that a bound counts.
#[derive(Clone, Copy, Debug, PartialEq, Eq)]
pub enum Action {
    /// The operation of this number.
    Op(u8),
    /// The drop of the bound of this number.
    Drop(u8),
}
