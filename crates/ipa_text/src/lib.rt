//! From bytes to lines and tokens, and from texts and numbers to a printed page.
//!
//! [`Lines`] gives the lines of a text that are neither blank nor comments, each with its number and its span.
//! [`cut_line`] cuts a line into tokens, which are spans of it: words, numbers and punctuation, with spaces and
//! tabs between them. [`read_number`] reads a decimal number, and a [`Page`] collects what is printed.
//!
//! A line is cut into the only tokens that it has, or refused at its first byte that starts none. The lines are
//! all those with content, in order, with the numbers that an editor shows. A number is read exactly where its
//! digits have the one spelling that a page prints. A page holds what was printed and nothing else, also after
//! memory ran out.
//!
//! ```
//! for line in Lines::new(bytes) {
//!     let tokens = cut_line(alloc, &bytes[line.start as usize..line.end as usize])?;
//! }
//! ```
#![tactic(auto)]

mod classes;
mod cutting;
mod decimals;
mod laws;
mod numbering;
mod printing;
mod tokens;
mod words;

pub use cutting::cut_line;
pub use decimals::read_number;
pub use laws::{every_line, one_cut, one_spelling, written_line, written_text};
pub use numbering::{Line, Lines, last_line};
pub use printing::Page;
pub use tokens::{CutFault, Token, TokenKind};
