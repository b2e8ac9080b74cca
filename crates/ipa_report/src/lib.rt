//! What is printed of an analysis, of a repair, and of a document that is refused.
//!
//! `report` is the text of an analysis: for each conflict the two actions, the clause that they break, the states
//! and the lost literal of its first example; for each drop that can break a clause its example; and at the end
//! their numbers. `repair_text` is the text of a repair: its steps, and what they lead to. `refusal` is the line for
//! a document without a reading, and `too_wide` the line for a triple that has too many patterns. `summary` is the
//! text of a run of a generated document: how much was done in it. Each is answered whole, as bytes, or not at all for
//! want of memory.
//!
//! ```
//! match analyse(rt, alloc, &spec) {
//!     Ok(analysis) => report(alloc, &spec, &analysis)?,
//!     Err(PairFault::TooWide { left, right, clause, count }) => too_wide(alloc, &spec, left, right, clause, count)?,
//!     Err(PairFault::NoMemory) => ..,
//! }
//! ```
#![tactic(auto)]

mod actions;
mod elements;
mod facts;
mod refusals;
mod repaired_laws;
mod repairs;
mod reports;
mod summaries;
mod widths;

pub use elements::Element;
pub use refusals::refusal;
pub use repaired_laws::{repaired_is_printable, repaired_reads_back};
pub use repairs::repair_text;
pub use reports::report;
pub use summaries::summary;
pub use widths::too_wide;
