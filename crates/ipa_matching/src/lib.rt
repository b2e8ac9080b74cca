//! Facts that match places: those of a predicate that have the elements wanted in its places.
//!
//! A place that wants an element fits that one alone, and a place that wants none fits every element. `is_match`
//! says whether a fact matches, and `next_match` is the least true fact above another that does, asked of a view.
//! It looks at few facts that do not match, and takes no memory.
//!
//! ```
//! let places = [Some(3), None, None];
//! let mut last = None;
//! while let Some(fact) = next_match(&state, predicate, &places, last) {
//!     last = Some(fact);
//! }
//! ```
#![tactic(auto)]

mod leaps;
mod matches;

pub use leaps::next_match;
pub use matches::is_match;
