//! The transactions of a journal: each is offered to a log of those before it.
ghost use Rattle.std.specs.Prelude.{◌≡◌, [], ◌∷◌, ◌++◌, IfOk, OnOk, MatchOption};
ghost use Rattle.ipa_gate.specs.Logs.{IsLog};
ghost use Rattle.ipa_gate.specs.Offers.{IsAdmitted};
ghost use Rattle.ipa_audit.specs.Journals.{txs_of};
ghost use Rattle.ipa_audit.specs.BadLines.{IsTxFault, AreTaken, IsFirstBadTx};
ghost use Rattle.ipa_audit.specs.Steps.{IsAppended, AreAppended};

use crate::verdict::AuditFault;
use ipa_gate::{Log, OfferFault, Taken};
use ipa_history::Tx;
use ipa_journal::TxLine;
use std::alloc::AllocError;

/// A bad line, by its number, and why it is bad.
#[derive(Clone, Copy)]
pub(crate) struct BadLine {
    pub(crate) line: u32,
    pub(crate) fault: AuditFault,
}

// Offers each transaction to the log, which has no entry, until one is not taken as new. That is the bad line.
pub(crate) fn take_all(log: &mut Log, lines: &[TxLine]) -> Result<Option<BadLine>, AllocError>
    requires { log.old.entries ≡ [] }
    ensures bad { IfOk result (λ bad. MatchOption bad (AreAppended log.old.setting lines.now log.new.entries)
        (λ b. IsFirstBadTx log.old.setting lines.now b.line b.fault)) }
    ensures setting { log.new.setting ≡ log.old.setting }
{
    for entry in lines {
        if let Some(fault) = take(log, entry.tx)? {
            return Ok(Some(BadLine {
                line: entry.line,
                fault,
            }));
        }
    }
    Ok(None)
}

// Offers the transaction to the log. Answers why it is not taken as new, if it is not.
fn take(log: &mut Log, tx: Tx) -> Result<Option<AuditFault>, AllocError>
    ensures fault { IfOk result (λ fault. MatchOption fault
        (IsAppended log.old.setting log.old.entries tx log.new.entries)
        (IsTxFault log.old.setting log.old.entries tx)) }
    ensures setting { log.new.setting ≡ log.old.setting }
{
    match log.offer(tx) {
        Ok(Taken::New) => Ok(None),
        Ok(Taken::Known) => Ok(Some(AuditFault::Repeated)),
        Err(OfferFault::NoMemory) => Err(AllocError),
        Err(fault) => Ok(Some(AuditFault::Offer(fault))),
    }
}
