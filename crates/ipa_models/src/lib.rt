//! Which states over a small universe keep all clauses of a specification, and which of them is first.
//!
//! `Models::new` grounds the clauses over the universe once. `Models::first` answers the first state
//! that keeps them and meets some demands, each of which says of a fact whether it has to be true.
#![tactic(auto)]

mod answer;
mod demands;
mod enumeration;
mod models;
mod question;

pub use demands::Demand;
pub use models::Models;
