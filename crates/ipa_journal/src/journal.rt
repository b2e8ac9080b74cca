//! What a journal says, and why it has no reading.
ghost use Rattle.std.specs.Prelude.{◌≡◌};
ghost use Rattle.ipa_journal.specs.declared.journal.JournalFault.TheVariants.{NoMemory};

use ipa_clock::Cut;
use ipa_history::{Answer, Tx};
use ipa_logic::State;
use ipa_spec::List;
use std::alloc::AllocError;

/// A transaction, and the number of the line on which it stands.
#[derive(Clone, Copy)]
pub struct TxLine {
    /// The number of its line in the whole input, from 1.
    pub line: u32,
    /// The transaction.
    pub tx: Tx,
}

/// What a request was answered, and the number of the line on which it stands.
#[derive(Drop)]
pub struct OutLine {
    /// The number of its line in the whole input, from 1.
    pub line: u32,
    /// The number of the session, from 0.
    pub session: u8,
    /// The place of the request among those of its session, from 0.
    pub place: u32,
    /// What the session had seen.
    pub cut: Cut,
    /// What the request was answered.
    pub answer: Answer,
}

/// What a journal says.
#[derive(Drop)]
pub struct Journal {
    /// The transactions, in the order of their lines.
    pub transactions: List<TxLine>,
    /// What the requests were answered, in the order of their lines.
    pub outcomes: List<OutLine>,
    /// The final facts.
    pub last: State,
    /// The number of the line of the final facts.
    pub last_line: u32,
}

/// Why no journal was read.
#[derive(Clone, Copy, Debug, PartialEq, Eq)]
pub enum JournalFault {
    /// The first line that stands against the order of lines or lacks the form of its place; where the input ends
    /// too early, the number behind that of its last line.
    At {
        /// The line's number in the whole input, from 1.
        line: u32,
    },
    /// Memory ran out.
    NoMemory,
}

impl From<AllocError> for JournalFault {
    ghost from_gives = { λ _ fault. fault ≡ NoMemory };

    fn from(_error: AllocError) -> JournalFault {
        JournalFault::NoMemory
    }
}
