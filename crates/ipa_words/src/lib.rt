//! The words behind the program's name, and the command that they name.
//!
//! [`command_of`] reads them: it answers the one [`Command`] that the words name in the table of commands, and `None`
//! exactly where they match no row of it. [`USAGE`] is the line for such words.
//!
//! ```
//! match command_of(&words) {
//!     Some(Command::Simulate { number, kind }) => ..,
//!     None => page.text(USAGE)?,
//!     ..
//! }
//! ```
#![tactic(auto)]

mod commands;
pub mod laws;

pub use commands::{Command, USAGE, command_of};
