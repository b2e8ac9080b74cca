//! That patterns are enough: the patterns of a triple of two actions and a clause, and of a drop and a clause.
//!
//! Whether two actions conflict on a clause is a question over all universes and states. It comes
//! down to the patterns of their variables, over whose few classes everything can be tried: both
//! states are restricted to the constants and to the elements that the variables name, and these are
//! renamed to the classes of the pattern that has their equalities. The crate has laws alone: each stands on a
//! function that does nothing.
#![tactic(auto)]

pub mod laws;
