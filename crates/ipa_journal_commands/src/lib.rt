//! The commands on a document and the journal behind it: `audit` and `migrate`.
//!
//! An input is a document up to the first line whose first word is `journal`, and a journal from there on. `audit` says
//! whether the journal is the record of a lawful run of the document, or which of its lines is the first that is bad.
//! `migrate` writes what the journal says in the latest version, and analyses nothing. Each is the verdict on the bytes
//! that the source held (`specs/Audits.antt`, `specs/Migrations.antt`), and each fault that is answered in place of it
//! has its cause: that is `AnswersInput`, the contract of all commands that read an input. An input has one verdict of
//! `audit` (`one_audit_verdict`) and one of `migrate` (`one_migration`).
//!
//! ```
//! let status = audit_command(rt, alloc, &mut source, &mut sink);
//! let status = migrate_command(alloc, &mut source, &mut sink);
//! ```
#![tactic(auto)]

mod auditing;
mod journals;
mod migrating;
mod texts;
mod verdict_laws;

pub use auditing::audit_command;
pub use migrating::migrate_command;
pub use verdict_laws::{one_audit_verdict, one_migration};
