//! The command `audit`.
ghost use Rattle.std.specs.Prelude.{◌≡◌, ◌^◌, ◌<◌, ◌≤◌, length, IfOk};
ghost use Rattle.ipa_reader.specs.Fitting.{IsFitting};
ghost use Rattle.ipa_audit.specs.Journals.{requests_of};
ghost use Rattle.ipa_audit.specs.Verdicts.{IsVerdict};
ghost use Rattle.ipa_journal_commands.specs.AuditTexts.{verdict_text};
ghost use Rattle.ipa_settings.specs.DocumentSettings.{setting_of};
ghost use Rattle.ipa_journal_commands.specs.Audits.{AuditVerdict, IsAudited, IsAuditOf, IsDocumentAudited, verdict_status};
ghost use Rattle.ipa_journal_commands.specs.Journals.{AfterJournal, longest_journal};
ghost use Rattle.ipa_command.specs.Statuses.{is_of_input};
ghost use Rattle.ipa_command.specs.Steps.{Ends, IsAnswered, IsJudgement};
ghost use Rattle.ipa_command.specs.Answers.{AnswersInput};

use crate::journals::{LONGEST_JOURNAL, journal_of, start_of};
use crate::texts::audited;
use ipa_audit::{Verdict, audit};
use ipa_base::{Sink, Source};
use ipa_command::{Answer, Status, Stop, accepted_of, document_of, read_input, write_answer};
use ipa_journal::{Journal, JournalStart};
use ipa_pairs::Accepted;
use ipa_reader::{Document, document_fits};
use ipa_settings::setting_of;
use std::alloc::{AllocError, Global};
use std::thread::Threads;

/// The status of an audit: `Done`, or `Rejected` where a line is bad.
fn status_of(verdict: &Verdict) -> Status
    ensures { result ≡ verdict_status verdict.now }
{
    match verdict {
        Verdict::Legal { .. } => Status::Done,
        Verdict::Bad { .. } => Status::Rejected,
    }
}

/// What the audit of the document's journal finds.
fn verdict_of(
    alloc: Global,
    document: &Document,
    accepted: Accepted,
    journal: &Journal,
) -> Result<Verdict, AllocError>
    requires fits { IsFitting document.now.spec document.now.setup.universe.sizes document.now.setup.elements document.now.setup.base document.now.setup.sessions }
    requires same { accepted ≡ document.now.spec }
    ensures { IfOk result (IsVerdict (setting_of document.now) (requests_of document.now.setup.sessions) journal.now) }
{
    let setting = setting_of(document, accepted)?;
    audit(alloc, setting, &document.setup, journal)
}

/// The answer that the audit is.
fn answer_with(alloc: Global, document: &Document, verdict: &Verdict) -> Result<Answer, AllocError>
    ensures status { IfOk result (λ answer. answer.status ≡ verdict_status verdict.now) }
    ensures text { IfOk result (λ answer. answer.text.items ≡ verdict_text document.now.spec document.now.setup.elements verdict.now) }
{
    Ok(Answer {
        status: status_of(verdict),
        text: audited(alloc, &document.spec, &document.setup.elements, verdict)?,
    })
}

/// What `audit` says of the journal behind a document whose specification is accepted.
fn judge_journal(
    alloc: Global,
    bytes: &[u8],
    start: JournalStart,
    document: &Document,
    accepted: Accepted,
) -> Result<Answer, Stop>
    requires short { length bytes.now < 2 ^ 31 }
    requires at { start.at ≤ length bytes.now }
    requires line { start.line < 2 ^ 31 }
    requires fits { IsFitting document.now.spec document.now.setup.universe.sizes document.now.setup.elements document.now.setup.base document.now.setup.sessions }
    requires same { accepted ≡ document.now.spec }
    ensures { Ends ⊥ (IsJudgement is_of_input (AfterJournal document.now start bytes.now (IsAuditOf document.now))) result }
{
    let journal = journal_of(alloc, document, bytes, start)?;
    let verdict = verdict_of(alloc, document, accepted, &journal)?;
    Ok(answer_with(alloc, document, &verdict)?)
}

/// What `audit` says of a document that was read, and of what stands behind it.
fn judge_document<R: Threads + Sync>(
    rt: &R,
    alloc: Global,
    bytes: &[u8],
    start: JournalStart,
    document: &Document,
) -> Result<Answer, Stop>
    requires short { length bytes.now < 2 ^ 31 }
    requires at { start.at ≤ length bytes.now }
    requires line { start.line < 2 ^ 31 }
    requires fits { IsFitting document.now.spec document.now.setup.universe.sizes document.now.setup.elements document.now.setup.base document.now.setup.sessions }
    ensures { Ends ⊥ (IsJudgement is_of_input (IsDocumentAudited bytes.now start document.now)) result }
{
    let accepted = accepted_of(rt, alloc, &document.spec)?;
    judge_journal(alloc, bytes, start, document, accepted)
}

/// What `audit` says of an input that is not too long.
fn judge<R: Threads + Sync>(rt: &R, alloc: Global, bytes: &[u8]) -> Result<Answer, Stop>
    requires { length bytes.now ≤ longest_journal }
    ensures { Ends ⊥ (IsJudgement is_of_input (IsAudited bytes.now)) result }
{
    document_fits();
    let start = start_of(alloc, bytes)?;
    let document = document_of(alloc, &bytes[..start.at as usize])?;
    judge_document(rt, alloc, bytes, start, &document)
}

/// What `audit` answers to what the source holds.
fn answer_of<R: Threads + Sync, S: Source>(
    rt: &R,
    alloc: Global,
    source: &mut S,
) -> Result<Answer, Stop>
    ensures { IsAnswered is_of_input AuditVerdict (S.left source.old) (S.left source.new) (S.faults source.old) (S.faults source.new) result }
{
    let bytes = read_input(alloc, source, LONGEST_JOURNAL)?;
    judge(rt, alloc, &bytes)
}

/// Reads a document and the journal behind it from the source, and writes to the sink whether the journal is the record
/// of a lawful run of the document, or its first bad line; or the line or the report that refuses the input: the verdict
/// on the bytes that the source held. The text is made whole before its first byte is written.
pub fn audit_command<R: Threads + Sync, S: Source, K: Sink>(
    rt: &R,
    alloc: Global,
    source: &mut S,
    sink: &mut K,
) -> Status
    ensures { AnswersInput is_of_input AuditVerdict (sink.new ≡ sink.old) (record {
      left_before = S.left source.old;
      left_after = S.left source.new;
      read_faults_before = S.faults source.old;
      read_faults_after = S.faults source.new;
      written_before = K.written sink.old;
      written_after = K.written sink.new;
      write_faults_before = K.faults sink.old;
      write_faults_after = K.faults sink.new;
    }) result }
{
    let ended = answer_of(rt, alloc, source);
    write_answer(sink, ended)
}
