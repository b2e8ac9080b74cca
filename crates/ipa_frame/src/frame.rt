//! Frames, and why bytes are refused.

use ipa_clock::Cut;
use ipa_history::Tx;
use thiserror::Error;

/// What one replica sends to another.
#[derive(Clone, Copy)]
pub enum Frame {
    /// A transaction.
    Carry(Tx),
    /// What the sender has.
    Have(Cut),
}

/// Why no frame stands at the front of some bytes.
#[derive(Clone, Copy, Debug, PartialEq, Eq, Error)]
pub enum FrameFault {
    /// The bytes end within a frame.
    #[error("the bytes end within a frame")]
    Short,
    /// The first byte is of no kind.
    #[error("the first byte is of no kind")]
    BadKind,
    /// No frame of the kind has the length.
    #[error("no frame of the kind has the length")]
    BadLength,
    /// A field is out of its range.
    #[error("a field is out of its range")]
    BadField,
}
