//! The bounds that an action overfills: those which the group of a fact that it adds exceeds.
//!
//! Where a state is within the bounds, a later one can exceed them only in the group of a fact that was added since. So
//! it is enough to count the groups of the facts that the actions in between add, however many facts there are:
//! `spares` tells whether an action has overfilled no bound of the viewed state, and `calm_grows`, a law, that a closed
//! cut of a history is within the bounds where a lower one is and each transaction between the two spares them.
//! `first_over_after` is the first bound exceeded after an action, from a state within the bounds. Nothing here takes
//! memory.
//!
//! ```
//! if spares(&spec, &state, tx.action, &tx.args) { .. }
//! ```
#![tactic(auto)]

mod after;
mod overfilled;

pub use after::first_over_after;
pub use overfilled::spares;
