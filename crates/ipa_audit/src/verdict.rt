//! What an audit finds.
use ipa_gate::OfferFault;

/// Why a line of a journal is bad.
#[derive(Clone, Copy)]
pub enum AuditFault {
    /// A log of the lines before it refuses the transaction.
    Offer(OfferFault),
    /// A log of the lines before it has the transaction.
    Repeated,
    /// The outcome is out of order, reads no closed cut within the bounds that is past the session's outcome before, or
    /// is not what the request is answered there; or it is a commit of no entry.
    Outcome,
    /// A request has no outcome, or an operation's entry is named by no commit.
    Missing,
    /// The final facts are not those that are true where all transactions are known.
    Final,
}

/// What an audit finds of a journal.
#[derive(Clone, Copy)]
pub enum Verdict {
    /// It is the record of a lawful run.
    Legal {
        /// The number of its transactions.
        transactions: u32,
    },
    /// It is not.
    Bad {
        /// The number of its first bad line.
        line: u32,
        /// Why that line is bad.
        fault: AuditFault,
    },
}
