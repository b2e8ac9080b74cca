//! What the commands of the program have in common.
//!
//! A command reads its input whole, comes to an `Answer`, which is a `Status` and a text, and writes the text. It may be
//! stopped on the way: by a case of its verdict that applies, by a fault of the source, or by want of memory (`Stop`).
//! So its steps are joined by `?`, in the order of the verdict's cases: `read_input`, `document_of`, `accepted_of`, then
//! what the command has of its own, and `write_answer` at the end. What each step may answer is a fact of
//! `specs/Steps.antt` over the cases of `specs/Verdicts.antt`, and the clauses of the whole call, `AnswersInput`, follow
//! from them by `specs/AnswerLaws.antt`, once for all commands. That an input has one verdict follows from the laws of
//! `first_cases_are_one` by `specs/VerdictLaws.antt`.
//!
//! ```
//! let bytes = read_input(alloc, source, LONGEST_DOCUMENT)?;
//! let document = document_of(alloc, &bytes)?;
//! let accepted = accepted_of(rt, alloc, &document.spec)?;
//! ```
#![tactic(auto)]

mod answers;
mod edges;
mod judging;
mod status;
mod verdict_laws;

pub use answers::{Answer, Stop, text_answer};
pub use edges::{read_input, write_answer, write_text};
pub use judging::{LONGEST_DOCUMENT, accepted_of, document_of, refuse_width};
pub use status::Status;
pub use verdict_laws::first_cases_are_one;
