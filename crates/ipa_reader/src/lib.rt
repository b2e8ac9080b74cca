//! The document language. The forms of all lines, in order, are a document: a specification and its
//! setup, by names that are numbered in the order of their declaration. A document with a fault is
//! refused at its lowest line, by the least kind there; only want of memory is refused besides.
//!
//! ```
//! match read_document(alloc, bytes) {
//!     Ok(document) => ..,
//!     Err(DocFault::At { line, kind }) => ..,
//!     Err(DocFault::NoMemory) => ..,
//! }
//! ```
#![tactic(auto)]

mod arranging;
mod base;
mod document;
mod document_laws;
mod document_lines;
mod element_lists;
mod elements;
mod line_forms;
mod names;
mod order;
mod reader;
mod refusals;
mod refusing;
mod sessions;
mod standing;

pub use document::{Document, Setup};
pub use document_laws::{
    document_faultless, document_fits, kept_by_type, one_reading, standing_is_sound,
};
pub use element_lists::element_index;
pub use names::Names;
pub use order::Place;
pub use reader::read_document;
pub use refusals::{DocFault, DocKind};
pub use sessions::SessionWork;
pub use standing::{Arranged, Standing};
