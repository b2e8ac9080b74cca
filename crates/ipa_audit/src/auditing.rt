//! The audit of a journal.
ghost use Rattle.std.specs.Prelude.{◌≡◌, ◌≤◌, IfOk, length};
ghost use Rattle.ipa_sets.specs.Indexes.{IsIndexOf};
ghost use Rattle.ipa_audit.specs.Journals.{requests_of, txs_of};
ghost use Rattle.ipa_audit.specs.BadLines.{AreTaken};
ghost use Rattle.ipa_audit.specs.GoodLines.{AreGood};
ghost use Rattle.ipa_audit.specs.Steps.{AreAsked};
ghost use Rattle.ipa_audit.specs.Verdicts.{IsVerdict};

use crate::entries::take_all;
use crate::finals::is_final;
use crate::missing::is_complete;
use crate::outcomes::first_bad;
use crate::verdict::{AuditFault, Verdict};
use ipa_gate::{Log, Setting};
use ipa_journal::Journal;
use ipa_reader::Setup;
use ipa_sets::Index;
use std::alloc::{AllocError, Global};

/// Whether the journal is the record of a lawful run of the setup's sessions, or else its first bad line and why it is
/// bad. The setting has as many sessions as the setup, and the sessions' requests fit it.
pub fn audit(
    alloc: Global,
    setting: Setting,
    setup: &Setup,
    journal: &Journal,
) -> Result<Verdict, AllocError>
    requires sessions { setting.sessions ≡ length setup.now.sessions }
    requires asked { AreAsked setting setup.now.sessions }
    ensures { IfOk result (IsVerdict setting (requests_of setup.now.sessions) journal.now) }
{
    let mut log = Log::new(alloc, setting);
    if let Some(bad) = take_all(&mut log, journal.transactions.as_slice())? {
        return Ok(Verdict::Bad {
            line: bad.line,
            fault: bad.fault,
        });
    }
    audit_rest(alloc, &log, setup, journal)
}

// The same where the log has taken all transactions.
fn audit_rest(
    alloc: Global,
    log: &Log,
    setup: &Setup,
    journal: &Journal,
) -> Result<Verdict, AllocError>
    requires sessions { log.now.setting.sessions ≡ length setup.now.sessions }
    requires asked { AreAsked log.now.setting setup.now.sessions }
    requires taken { AreTaken log.now.setting journal.now.transactions }
    requires entries { log.now.entries ≡ txs_of journal.now.transactions }
    ensures { IfOk result (IsVerdict log.now.setting (requests_of setup.now.sessions) journal.now) }
{
    let _entries = log.entries();
    let _accepted = log.setting().accepted();
    let index = log.index();
    let outs = journal.outcomes.as_slice();
    let sessions = setup.sessions.as_slice();
    if let Some(line) = first_bad(alloc, log.setting(), sessions, index, outs)? {
        return Ok(Verdict::Bad {
            line,
            fault: AuditFault::Outcome,
        });
    }
    audit_end(alloc, log, index, setup, journal)
}

// The same where all outcomes are good too.
fn audit_end(
    alloc: Global,
    log: &Log,
    index: &Index,
    setup: &Setup,
    journal: &Journal,
) -> Result<Verdict, AllocError>
    requires sessions { log.now.setting.sessions ≡ length setup.now.sessions }
    requires taken { AreTaken log.now.setting journal.now.transactions }
    requires entries { log.now.entries ≡ txs_of journal.now.transactions }
    requires indexed { IsIndexOf log.now.setting.spec index.now }
    requires same { index.now.entries ≡ log.now.entries }
    requires good { AreGood log.now.setting (requests_of setup.now.sessions) log.now.entries journal.now.outcomes }
    ensures { IfOk result (IsVerdict log.now.setting (requests_of setup.now.sessions) journal.now) }
{
    let setting = log.setting();
    let entries = log.entries();
    let _accepted = setting.accepted();
    let line = journal.last_line;
    let sessions = setup.sessions.as_slice();
    if !is_complete(
        alloc,
        sessions,
        entries.as_slice(),
        journal.outcomes.as_slice(),
    )? {
        let fault = AuditFault::Missing;
        return Ok(Verdict::Bad { line, fault });
    }
    if !is_final(
        alloc,
        setting.accepted().spec(),
        setting.universe(),
        setting.base(),
        index,
        &journal.last,
    )? {
        let fault = AuditFault::Final;
        return Ok(Verdict::Bad { line, fault });
    }
    Ok(Verdict::Legal {
        transactions: entries.len(),
    })
}
