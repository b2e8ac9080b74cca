//! What is read of a journal so far, and in which place its next line stands.
ghost use Rattle.std.specs.Prelude.{◌≡◌};
ghost use Rattle.ipa_journal.specs.Order.{start};

use crate::journal::{OutLine, TxLine};
use ipa_logic::State;
use ipa_spec::List;
use std::alloc::Global;

/// The version of a journal.
#[derive(Clone, Copy)]
pub enum Version {
    One,
    Two,
}

/// Where the next line stands.
#[derive(Clone, Copy)]
pub enum Place {
    /// It is to be `journal`.
    Head,
    /// It is to be `sessions`.
    Sessions(Version),
    /// It is to be `bounds`.
    Bounds,
    /// It is to be `tx`, `out` or `final`.
    Entries,
    /// It is to be `out` or `final`.
    Outcomes,
    /// It is to be `end`.
    End,
    /// There is to be none.
    Done,
}

/// What is read so far.
#[derive(Drop)]
pub struct Standing {
    /// Where the next line stands.
    pub place: Place,
    /// The transactions, in the order of their lines.
    pub transactions: List<TxLine>,
    /// What the requests were answered, in the order of their lines.
    pub outcomes: List<OutLine>,
    /// The final facts.
    pub last: State,
    /// The number of the line of the final facts, and 0 before it.
    pub last_line: u32,
}

/// Nothing is read.
pub(crate) fn start(alloc: Global) -> Standing
    ensures { result ≡ start }
{
    Standing {
        place: Place::Head,
        transactions: List::new(alloc),
        outcomes: List::new(alloc),
        last: State::new(alloc),
        last_line: 0,
    }
}
