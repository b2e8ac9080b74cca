//! The tests of the weathers, and of what arrives under them, by public calls alone.
#![tactic(auto)]

#[cfg(test)]
mod frames;
#[cfg(test)]
mod tests;
