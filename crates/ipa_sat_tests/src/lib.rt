//! The solver's tests by its public calls, and the plain program that they compare it with: it tries
//! every assignment, in order.
#![tactic(auto)]

mod formulas;
pub mod plain;
#[cfg(test)]
mod tests;
