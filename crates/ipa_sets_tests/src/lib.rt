//! Sets of facts and the index by examples: what no clause says of them, worked out by hand or by the plain state.
#![tactic(auto)]

#[cfg(test)]
mod closed_cuts;
#[cfg(test)]
mod joint_removal;
