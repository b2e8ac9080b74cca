//! The commands on a document: `check` and `repair`.
//!
//! Each reads a document from a source, and writes to a sink what it says of it. Its answer is the verdict on the bytes
//! that the source held (`specs/Checks.antt`, `specs/Repairs.antt`), and each fault that it answers in place of it has
//! its cause: that is `AnswersInput`, the contract of all commands that read an input. An input has one verdict of
//! `check` (`one_verdict`), and one of `repair` (`one_repair_verdict`).
//!
//! ```
//! let status = check_command(rt, alloc, &mut source, &mut sink);
//! ```
#![tactic(auto)]

mod checking;
mod repairing;
mod verdict_laws;

pub use checking::check_command;
pub use repairing::repair_command;
pub use verdict_laws::{one_repair_verdict, one_verdict};
