//! Audits: whether a journal is the record of a lawful run, and where it is not.
//!
//! A journal is judged line by line: each transaction by a log of those before it, each outcome by its place, its cut
//! and the answer that its request has there, and the final facts by the state where all transactions are known.
//! [`audit`] answers `Legal` exactly where the journal's end is lawful for the sessions' requests and its outcomes stand
//! in order, and else the first bad line with its fault. [`law_one_answer`] says why a line can be wrong at all: a
//! request has one answer at a cut. [`law_one_reason`] says that a transaction is refused for one reason.
//!
//! ```
//! match audit(alloc, setting, &setup, &journal)? {
//!     Verdict::Legal { transactions } => ..,
//!     Verdict::Bad { line, fault } => ..,
//! }
//! ```
#![tactic(auto)]

mod answers;
mod auditing;
mod cuts;
mod entries;
mod finals;
mod laws;
mod missing;
mod order;
mod outcomes;
mod verdict;

pub use auditing::audit;
pub use laws::{law_bad_is_unlawful, law_one_answer, law_one_reason};
pub use verdict::{AuditFault, Verdict};
