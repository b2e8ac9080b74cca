//! What has been seen of the transactions of 16 origins.
//!
//! A `Dot` names a transaction by its origin and its number there, from 1. A `Cut` has a count for each origin
//! and stands for the first so many of its transactions. A cut covers a dot whose number is at most the count of
//! its origin, and one cut is below another where each of its counts is at most the other's. Joining takes the
//! greater counts, raising adds the next transaction of one origin. The contracts say so on counts, and `laws`
//! has what follows: below is a partial order, the joined cut is the least above both, and what a cut covers,
//! each cut above it covers. Nothing here takes memory.
//!
//! ```
//! let seen = Cut::empty().raised(Dot { origin: 3, number: 1 });
//! let both = seen.joined(&other);
//! both.covers(Dot { origin: 3, number: 1 })
//! ```
#![tactic(auto)]

mod cut;
mod dot;
pub mod laws;

pub use cut::Cut;
pub use dot::Dot;
