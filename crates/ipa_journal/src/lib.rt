//! The journal of a run, both ways: its transactions, what its sessions were answered, and its final facts.
//!
//! A journal is written as lines of words, numbers and names in parentheses: [`write_journal`] writes the end of a
//! run, and [`write_content`] what was read, always in version 2. [`read_journal`] reads versions 1 and 2, and
//! answers the first line that stands against the order of lines or lacks the form that its place asks for. A
//! journal follows a document in one input; [`journal_start`] tells where it begins.
//!
//! ```
//! let text = write_journal(alloc, &spec, &setup, &entries, &outcomes, &last)?;
//! let start = journal_start(alloc, input)?;
//! let journal = read_journal(alloc, &spec, &setup, &input[start.at as usize..], start.line)?;
//! ```
#![tactic(auto)]

mod answers;
mod elements;
mod facts;
mod journal;
mod journal_laws;
mod keywords;
mod lookups;
mod naming;
mod order;
mod parts;
mod pieces;
mod reading;
mod standing;
mod starts;
mod transactions;
mod writing;

pub use answers::OutHead;
pub use journal::{Journal, JournalFault, OutLine, TxLine};
pub use journal_laws::one_journal;
pub use keywords::Keyword;
pub use parts::Part;
pub use pieces::Piece;
pub use reading::read_journal;
pub use standing::{Place, Standing, Version};
pub use starts::{JournalStart, journal_start};
pub use transactions::Done;
pub use writing::{write_content, write_journal, write_reason};
