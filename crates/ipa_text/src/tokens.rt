//! What a line is cut into.

ghost use Rattle.ipa_text.specs.declared.tokens.CutFault.TheVariants.{NoMemory};
ghost use Rattle.std.specs.Prelude.{◌≡◌};

use std::alloc::AllocFailed;
use thiserror::Error;

/// The kinds of tokens.
#[derive(Clone, Copy, Debug, PartialEq, Eq)]
pub enum TokenKind {
    /// A letter and at most 23 more letters, digits or underscores.
    Word,
    /// Decimal digits, at most 4294967295, with no needless leading zero.
    Number,
    /// `(`
    Open,
    /// `)`
    Close,
    /// `,`
    Comma,
    /// `:`
    Colon,
    /// `*`
    Star,
    /// `=`
    Equal,
    /// `!=`
    Unequal,
}

/// A token, as a span of its line: its bytes are those from `start` up to `end`, counted from 0.
#[derive(Clone, Copy, Debug, PartialEq, Eq)]
pub struct Token {
    pub start: u32,
    pub end: u32,
    pub kind: TokenKind,
}

/// Why a line was not cut.
#[derive(Clone, Copy, Debug, PartialEq, Eq, Error)]
pub enum CutFault {
    /// The first byte of the line that starts no token, counted from 0.
    #[error("byte {at} of the line starts no token")]
    BadByte { at: u32 },
    /// Memory ran out.
    #[error("out of memory")]
    NoMemory,
}

impl<T: Drop> From<AllocFailed<T>> for CutFault {
    ghost from_gives = { λ _ fault. fault ≡ NoMemory };

    fn from(_failed: AllocFailed<T>) -> CutFault {
        CutFault::NoMemory
    }
}
