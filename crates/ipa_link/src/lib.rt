//! The way of entries between logs.
//!
//! A [`Sender`] knows what a peer is known to have, and gives the first entries of a log that it may lack, a batch at
//! a time. [`deliver`] gives a log one frame that came: what the frame carries is offered to the log, and what it tells
//! of its sender is handed back; [`deliver_admitted`] does the same where that is known to be legal. [`pour`] gives a
//! log all frames that stand one after the other, up to the first bytes that are none. Whatever the bytes are, the log
//! stays a log: it takes what is legal, and nothing else changes it. [`laws`] has that a pour stops in one way.
//!
//! ```
//! for tx in sender.batch(&log)?.as_slice() {
//!     let bytes = write_frame(alloc, &Frame::Carry(*tx))?;
//!     deliver(&mut other, &bytes);
//! }
//! sender.heard(&other.clock());
//! ```
#![tactic(auto)]

mod delivery;
pub mod laws;
mod pouring;
mod sender;

pub use delivery::{Delivered, deliver, deliver_admitted};
pub use pouring::{Poured, Stop, pour};
pub use sender::Sender;
