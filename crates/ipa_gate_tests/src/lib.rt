//! Logs by examples: the offers of a race for the last place of a cup, and a log that is full.
#![tactic(auto)]

pub mod race;
#[cfg(test)]
mod tests;
