//! What no clause says of the analysis: that it succeeds with ample memory, by one thread and by several.
//!
//! The specifications and what is found of them are worked out by hand.
#![tactic(auto)]

#[cfg(test)]
mod building;
#[cfg(test)]
mod specifications;
#[cfg(test)]
mod verdicts;
