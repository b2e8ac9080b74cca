//! Propositional satisfiability: which assignment of truth values makes each clause of a formula
//! true?
//!
//! A formula ([`Cnf`]) is a list of clauses over the variables `0..vars`. A clause is a list of
//! literals ([`Lit`]), each a variable or its opposite, and is true where one of its literals is.
//! [`solve`] answers an assignment that makes each clause true, and None exactly where there is
//! none. [`least`] answers the first such assignment in lexicographic order from variable 0, false
//! before true. Neither claims anything of time, and want of memory is the one error.
//!
//! ```text
//! let mut cnf = Cnf::new(alloc, 2);
//! cnf.add_clause(&[Lit { var: 0, positive: true }, Lit { var: 1, positive: true }])?;
//! cnf.add_clause(&[Lit { var: 0, positive: false }, Lit { var: 1, positive: true }])?;
//! least(alloc, &cnf)?        // Some([false, true])
//! ```
//!
//! [`solve_shown`] answers an assignment, or a refutation where there is none: a list of clauses
//! ([`Step`]), each of which follows by unit propagation from the formula and the earlier ones, and
//! the last of which is empty. [`check_steps`] tells whether a list is a refutation, and [`is_satisfied`]
//! whether an assignment satisfies a formula. What has a refutation is satisfied by no assignment
//! ([`laws::refutations_are_sound`]).
//!
//! Inside, `trail` holds the literals that are taken to be true, `look` and `visit` read one clause
//! under them, `watches` says which clauses to look at after a step, `propagate` takes what
//! follows, `explain` and `learn` make a clause of each conflict, `growing` keeps them behind the
//! given ones, and `search` decides;
//! `assignment` looks at a finished assignment. `check` stands on `trail` and `look` alone.
#![tactic(auto)]

mod answer;
mod assignment;
mod check;
mod cnf;
mod explain;
mod growing;
pub mod laws;
mod learn;
mod list;
mod look;
mod propagate;
mod refutation;
mod search;
mod trail;
mod visit;
mod watches;

pub use answer::{least, solve, solve_shown};
pub use assignment::is_satisfied;
pub use check::check_steps;
pub use cnf::{Cnf, Lit};
pub use list::List;
pub use refutation::{Solved, Step};
