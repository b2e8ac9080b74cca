//! What a log answers.
use ipa_clock::Dot;
use ipa_history::{Reason, Tx};
use std::alloc::AllocError;

/// How an offered transaction was taken.
#[derive(Clone, Copy, Debug, PartialEq, Eq)]
pub enum Taken {
    /// It was appended.
    New,
    /// It was an entry already.
    Known,
}

/// Why an offered transaction is refused: the first of these that holds.
#[derive(Clone, Copy)]
pub enum OfferFault {
    /// An origin or a count of the cut is no session's, the number is 0 or not one above the cut's own count, the
    /// action is not declared, or its arguments are too few, too many or no elements.
    Shape,
    /// Another transaction stands under its dot.
    Differs {
        /// The entry.
        here: Tx,
        /// The offered one.
        there: Tx,
    },
    /// Its cut needs more transactions of an origin, the least such one, than the log has.
    Gap {
        /// The origin.
        origin: u8,
        /// How many the log has.
        have: u32,
        /// How many the cut has.
        need: u32,
    },
    /// A member of its cut, the first in log order, has a cut that is not below this cut.
    OpenCut {
        /// The dot of the member.
        member: Dot,
    },
    /// The log has 65536 entries.
    Full,
    /// It is not legal at its cut.
    Illegal(Reason),
    /// Memory is wanting.
    NoMemory,
}

/// A transaction that was seen and that a log does not have.
#[derive(Clone, Copy)]
pub struct Diverged {
    /// Its dot.
    pub dot: Dot,
    /// The transaction that was seen.
    pub mine: Tx,
    /// The entry of the log under this dot, if there is one.
    pub theirs: Option<Tx>,
}

/// Why a log does not answer its news.
#[derive(Clone, Copy)]
pub enum PullFault {
    /// What was seen is not part of the log.
    Diverged(Diverged),
    /// Memory is wanting.
    NoMemory,
}

impl From<AllocError> for OfferFault {
    ghost use Rattle.std.specs.Prelude.{◌≡◌};
    ghost use Rattle.ipa_gate.specs.declared.answers.OfferFault.TheVariants.{NoMemory};

    ghost from_gives = { λ _ fault. fault ≡ NoMemory };

    fn from(_: AllocError) -> OfferFault {
        OfferFault::NoMemory
    }
}

impl From<AllocError> for PullFault {
    ghost use Rattle.std.specs.Prelude.{◌≡◌};
    ghost use Rattle.ipa_gate.specs.declared.answers.PullFault.TheVariants.{NoMemory};

    ghost from_gives = { λ _ fault. fault ≡ NoMemory };

    fn from(_: AllocError) -> PullFault {
        PullFault::NoMemory
    }
}

impl From<Diverged> for PullFault {
    ghost use Rattle.std.specs.Prelude.{◌≡◌};
    ghost use Rattle.ipa_gate.specs.declared.answers.PullFault.TheVariants.{Diverged as Parted};

    ghost from_gives = { λ d fault. fault ≡ Parted d };

    fn from(diverged: Diverged) -> PullFault {
        PullFault::Diverged(diverged)
    }
}
