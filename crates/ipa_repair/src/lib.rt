//! Offers that clear pairs of conflicting actions, and the greedy repair of a specification.
//!
//! A `Candidate` is a single change: one more effect of an operation, or the other rule of a predicate.
//! An `Offer` is one change or two that clear a pair of conflicting actions. `offers` lists those of a
//! pair, `apply` applies one, and `repair` applies offers, one after the other, each of which leaves
//! fewer conflicting pairs, until nothing conflicts or no offer does that.
#![tactic(auto)]

mod applying;
mod candidates;
mod changing;
mod choices;
mod clashes;
mod clearing;
mod counting;
mod greedy;
mod laws;
mod listing;
mod offering;
mod pairs;
mod reporting;
mod steps;
mod trying;

pub use applying::apply;
pub use candidates::{Candidate, Offer};
pub use greedy::repair;
pub use laws::{conflicts_are_local, one_repair};
pub use offering::offers;
pub use steps::{RepairStep, Repaired};
