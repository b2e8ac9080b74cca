//! The forms of a document's lines. A line is cut into words, and it has at most one form:
//! `read_form` finds it, and `write_form` prints its canonical line, which is read as that form
//! again. A form says what a line says, by names, before any name is looked up. Names and lists are
//! printed here for all texts of the project that are laid out as canonical lines are.
//!
//! ```
//! let tokens = cut_line(alloc, line)?;
//! if let Some(form) = read_form(alloc, line, tokens.as_slice())? {
//!     write_form(&mut page, &form)?;
//! }
//! ```
#![tactic(auto)]

mod form_laws;
mod forms;
mod keywords;
mod printing;
mod reading;

pub use form_laws::{one_form, reads_back};
pub use forms::{AtomForm, Form, LiteralForm, Typed};
pub use printing::parts::{Printed, write_applied, write_joined, write_list, write_name};
pub use printing::write_form;
pub use reading::lists::{Member, read_list};
pub use reading::words::{Words, take_name, take_number, take_text};
pub use reading::{is_existential, read_form};
