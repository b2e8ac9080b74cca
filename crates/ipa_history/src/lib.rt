#![tactic(auto)]
//! Histories of transactions, the states at their cuts, and which transactions are legal.
//!
//! A `Tx` is one action made at a cut: what its origin had seen. A `History` is a list of them in an order in which
//! each stands after those that it has seen, by its type. A fact's value at a cut is that of the base where no
//! transaction of the cut touches it, and else that of the maximal effects, by the rule of its predicate. A
//! transaction is legal where its own cut allows it, and where the state with it added keeps the clauses; a history
//! is, where each of its transactions is. The calls here are the plain, slow programs of these definitions:
//! `state_at_plain` tries each fact that can be true, `legal_plain` answers the first `Reason` against a
//! transaction, and `answer_plain` what a request is answered at a cut.
//!
//! ```
//! let state = state_at_plain(alloc, &spec, &base, &history, &cut)?;
//! match legal_plain(alloc, &spec, &universe, &base, &history, &tx) {
//!     Ok(()) => history.push(tx)?,
//!     Err(fault) => ..,
//! }
//! ```

mod ages;
mod answers;
mod closed;
mod drops;
mod history;
mod legality;
mod outcomes;
mod reasons;
mod states;
mod values;

pub use ages::{age_of_tx, greater_age};
pub use answers::{Answer, answer_plain, facts_shown};
pub use history::{History, Tx};
pub use legality::{LegalFault, legal_plain};
pub use outcomes::{Fate, Outcome, SimEnd};
pub use reasons::Reason;
pub use states::state_at_plain;
