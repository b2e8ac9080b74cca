//! The steps of a command on a document and the journal behind it.
ghost use Rattle.std.specs.Prelude.{◌≡◌, ◌^◌, ◌<◌, ◌≤◌, length, take, drop, IfOk, IfErr};
ghost use Rattle.ipa_journal.specs.Readings.{ReadsAs};
ghost use Rattle.ipa_journal.specs.Starts.{IsStart};
ghost use Rattle.ipa_journal_commands.specs.AuditTexts.{unread_text};
ghost use Rattle.ipa_journal_commands.specs.Journals.{AfterJournal, context_at, longest_journal};
ghost use Rattle.ipa_command.specs.Statuses.{is_of_input};
ghost use Rattle.ipa_command.specs.Steps.{IsJudgement, StopsWith};
ghost use Rattle.ipa_command.specs.Verdicts.{Nothing};

use crate::texts::unread_journal;
use ipa_command::{Answer, Status, Stop};
use ipa_journal::{Journal, JournalFault, JournalStart, journal_start, read_journal};
use ipa_reader::Document;
use ipa_text::every_line;
use std::alloc::{AllocError, Global};

/// The greatest number of bytes of a document and a journal.
pub(crate) const LONGEST_JOURNAL: u32 = 67_108_864;

/// Where the journal begins.
pub(crate) fn start_of(alloc: Global, bytes: &[u8]) -> Result<JournalStart, AllocError>
    requires { length bytes.now ≤ longest_journal }
    ensures start { IfOk result (IsStart bytes.now) }
    ensures at { IfOk result (λ start. start.at ≤ length bytes.now) }
    ensures line { IfOk result (λ start. start.line < 2 ^ 31) }
{
    every_line();
    journal_start(alloc, bytes)
}

/// The answer to a journal that is refused at a line.
fn refuse_journal(alloc: Global, line: u32) -> Result<Answer, AllocError>
    ensures status { IfOk result (λ answer. answer.status ≡ Status.Refused) }
    ensures text { IfOk result (λ answer. answer.text.items ≡ unread_text line) }
{
    Ok(Answer {
        status: Status::Refused,
        text: unread_journal(alloc, line)?,
    })
}

/// The journal that the bytes from its start on read as.
///
/// # Errors
/// The answer to bytes that have no reading as a journal; or memory ran out.
pub(crate) fn journal_of(
    alloc: Global,
    document: &Document,
    bytes: &[u8],
    start: JournalStart,
) -> Result<Journal, Stop>
    requires short { length bytes.now < 2 ^ 31 }
    requires at { start.at ≤ length bytes.now }
    requires line { start.line < 2 ^ 31 }
    ensures journal { IfOk result (ReadsAs (context_at document.now start.line) (drop start.at bytes.now)) }
    ensures stop { IfErr result (StopsWith ⊥ (IsJudgement is_of_input (AfterJournal document.now start bytes.now (λ _. Nothing)))) }
{
    let rest = &bytes[start.at as usize..];
    match read_journal(alloc, &document.spec, &document.setup, rest, start.line) {
        Ok(journal) => Ok(journal),
        Err(JournalFault::At { line }) => Err(Stop::Answered(refuse_journal(alloc, line)?)),
        Err(JournalFault::NoMemory) => Err(Stop::NoMemory),
    }
}
