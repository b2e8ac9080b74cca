//! The canonical text of a specification. Each part has one line, in declared order and laid out in
//! one way: sorts, constants, predicates, clauses, operations with their needs and effects, and
//! bounds with their further removes. Read again, each line has the form that it was written for.
//!
//! The text of a document's specification is read back as that specification, with its constants as the only elements, or,
//! exactly where a clause is broken there without facts, is refused for that instance.
//!
//! ```
//! let text = print_spec(alloc, &document.spec)?; // of a document that was read
//! read_document(alloc, &text) // has the same specification, or that refusal
//! ```
#![tactic(auto)]

mod canonical;
mod canonical_laws;
mod effects;
mod naming;
mod parts;
mod rereading;

pub use canonical::{print_spec, write_spec};
pub use canonical_laws::canonical_lines;
pub use effects::write_effect;
pub use rereading::{
    declares_itself, document_read_back, fit_to_print, is_read_back, none_refused, reads_as_itself,
};
