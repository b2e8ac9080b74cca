//! What the analysis of small universes stands on: patterns, facts in order, and clauses as a formula.
//!
//! A pattern is a way of making variables of one sort equal to each other and to the constants of the sort: each
//! variable takes a class of its sort that is in use, or the next new one. The classes of the constants come first and
//! are in use from the start, and the pattern's universe has just the constants and the other classes as elements.
//! `Patterns` gives each pattern once, in lexicographic order, and for all elements of the variables, in whatever
//! universe, exactly one pattern has the same equalities, also with the constants. The facts over a universe have numbers by their order, and `ground_clauses` makes a formula
//! over them that an assignment satisfies exactly where its true facts keep all clauses over the universe. `laws`
//! has what holds of patterns and of the enumeration of facts. Patterns and numbers take no memory.
//!
//! ```
//! let mut patterns = Patterns::new(&[0, 0, 1], &[1, 0, 0, 0, 0, 0, 0, 0]);
//! while let Some(pattern) = patterns.next() {
//!     let formula = ground_clauses(alloc, &spec, &pattern.universe)?;
//! }
//! ```
#![tactic(auto)]

mod counting;
mod cursor;
mod disjunction;
mod grounding;
pub mod laws;
mod numbering;
mod patterns;

pub use grounding::{ground_clauses, ground_clauses_into};
pub use numbering::{fact_count, fact_number};
pub use patterns::{Pattern, Patterns};
