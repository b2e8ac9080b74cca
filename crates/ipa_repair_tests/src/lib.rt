//! What no clause says of offers and repairs: that their calls succeed with ample memory, and what they come to for
//! applications that were worked out by hand.
#![tactic(auto)]

#[cfg(test)]
mod repairs;
