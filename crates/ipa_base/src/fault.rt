//! What goes wrong at the edge: the faults of sources and sinks, and the ends of reading and writing.
ghost use Rattle.std.specs.Prelude.{◌≡◌};

use std::alloc::AllocError;
use thiserror::Error;

/// A source or a sink could not do one call. Its count of faults says so too.
#[derive(Clone, Copy, Debug, PartialEq, Eq)]
pub struct Failed;

/// Why `read_all` gave no bytes.
#[derive(Clone, Copy, Debug, PartialEq, Eq, Error)]
pub enum ReadEnd {
    /// The source failed.
    #[error("the source failed")]
    ReadFault,
    /// More bytes came than the limit allows.
    #[error("more bytes came than the limit allows")]
    TooLong,
    /// There was no memory for the bytes.
    #[error("no memory for the bytes")]
    NoMemory,
}

impl From<Failed> for ReadEnd {
    ghost use Rattle.ipa_base.specs.declared.fault.ReadEnd.TheVariants.{ReadFault};

    ghost from_gives = { λ _ end. end ≡ ReadFault };

    fn from(_: Failed) -> ReadEnd {
        ReadEnd::ReadFault
    }
}

impl From<AllocError> for ReadEnd {
    ghost use Rattle.ipa_base.specs.declared.fault.ReadEnd.TheVariants.{NoMemory};

    ghost from_gives = { λ _ end. end ≡ NoMemory };

    fn from(_: AllocError) -> ReadEnd {
        ReadEnd::NoMemory
    }
}

/// A sink failed before all bytes had gone out.
#[derive(Clone, Copy, Debug, PartialEq, Eq)]
pub struct WriteFault;
