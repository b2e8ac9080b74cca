//! Clauses: disjunctions of literals, which hold for all values of their variables.
use crate::constants::Term;
use crate::lists::List;
use crate::names::Name;
use crate::predicates::Var;

/// A predicate with variables and constants in its places.
#[derive(Clone, Copy, Debug, PartialEq, Eq)]
pub struct Atom {
    /// The number of the predicate.
    pub predicate: u8,
    /// What stands in each place, and `Term::Var(0)` past the predicate's arity.
    pub args: [Term; 3],
}

/// A condition on the values of variables and on the facts of a state.
#[derive(Clone, Copy, Debug, PartialEq, Eq)]
pub enum Literal {
    /// The fact is true.
    Holds(Atom),
    /// The fact is false.
    Fails(Atom),
    /// The two terms stand for the same element.
    Same(Term, Term),
    /// The two terms stand for different elements.
    Differ(Term, Term),
}

/// A clause: for all values of its variables one of its literals is true.
#[derive(Clone, Debug, Drop)]
pub struct Clause {
    /// The clause's name.
    pub name: Name,
    /// Its variables, at most 4.
    pub vars: List<Var>,
    /// Its literals, at most 6.
    pub literals: List<Literal>,
}
