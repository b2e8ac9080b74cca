//! The tests of schedules, by public calls alone.
#![tactic(auto)]

#[cfg(test)]
mod losing;
#[cfg(test)]
mod race;
#[cfg(test)]
mod tests;
