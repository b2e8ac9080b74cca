//! What shows that a formula has no satisfying assignment: a list of clauses, each of which follows
//! from the formula and the earlier ones in a way that is easy to check.

use crate::cnf::Lit;
use crate::list::List;

/// A step of a refutation: a clause that follows from the formula and the earlier steps.
#[derive(Clone, Drop)]
pub struct Step {
    /// The literals of the clause.
    pub lits: List<Lit>,
}

/// What comes of a search that shows its answer.
#[derive(Clone, Drop)]
pub enum Solved {
    /// An assignment that satisfies the formula.
    Model(Vec<bool>),
    /// There is none, and these steps show it.
    Refuted(List<Step>),
}
