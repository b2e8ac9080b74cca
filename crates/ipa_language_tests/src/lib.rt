//! What no clause says of the document language: that its calls succeed with ample memory, and how texts look.
//!
//! All values are worked out by hand. Calls that a document of each form makes have no test of their own.
#![tactic(auto)]

#[cfg(test)]
mod canonical_texts;
#[cfg(test)]
mod forms;
#[cfg(test)]
mod refusals;
#[cfg(test)]
mod reports;
#[cfg(test)]
mod setups;
#[cfg(test)]
mod tables;
#[cfg(test)]
mod words;
