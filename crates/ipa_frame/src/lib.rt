//! Frames: what replicas send to each other, as bytes.
//!
//! A frame carries one transaction, or tells what a replica has. [`write_frame`] gives its bytes and
//! [`read_frame`] reads the frame at the front of some bytes, whatever follows it. Bytes at whose front no frame
//! stands are refused: as short where more bytes may still make them a frame, and else by the first of kind,
//! length and fields that no frame has.
//!
//! ```
//! let bytes = write_frame(alloc, &Frame::Have(cut))?;
//! let (frame, size) = read_frame(&bytes)?;
//! ```
#![tactic(auto)]

mod frame;
pub mod laws;
mod reading;
mod writing;

pub use frame::{Frame, FrameFault};
pub use reading::read_frame;
pub use writing::write_frame;
