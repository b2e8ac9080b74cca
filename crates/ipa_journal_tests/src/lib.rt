//! What no clause says of journals: that their calls and commands succeed with ample memory, and how the texts look.
//!
//! All values are worked out by hand.
#![tactic(auto)]

#[cfg(test)]
mod audited;
#[cfg(test)]
mod rewritten;
#[cfg(test)]
mod tables;
