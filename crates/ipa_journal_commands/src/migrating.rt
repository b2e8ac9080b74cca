//! The command `migrate`.
ghost use Rattle.std.specs.Prelude.{◌≡◌, ◌^◌, ◌<◌, ◌≤◌, length, IfOk};
ghost use Rattle.ipa_journal.specs.Texts.{content_text};
ghost use Rattle.ipa_journal_commands.specs.Journals.{longest_journal};
ghost use Rattle.ipa_journal_commands.specs.Migrations.{IsDocumentMigrated, IsMigrated, MigrateVerdict};
ghost use Rattle.ipa_command.specs.Statuses.{is_of_input};
ghost use Rattle.ipa_command.specs.Steps.{Ends, IsAnswered, IsJudgement};
ghost use Rattle.ipa_command.specs.Answers.{AnswersInput};

use crate::journals::{LONGEST_JOURNAL, journal_of, start_of};
use ipa_base::{Sink, Source};
use ipa_command::{Answer, Status, Stop, document_of, read_input, write_answer};
use ipa_journal::{Journal, JournalStart, write_content};
use ipa_reader::Document;
use std::alloc::{AllocError, Global};

/// The answer that the journal is in the latest version.
fn answer_with(alloc: Global, document: &Document, journal: &Journal) -> Result<Answer, AllocError>
    ensures status { IfOk result (λ answer. answer.status ≡ Status.Done) }
    ensures text { IfOk result (λ answer. answer.text.items ≡ content_text document.now.spec document.now.setup.elements (length document.now.setup.sessions) journal.now) }
{
    Ok(Answer {
        status: Status::Done,
        text: write_content(alloc, &document.spec, &document.setup, journal)?,
    })
}

/// What `migrate` says of the journal behind a document that was read.
fn judge_document(
    alloc: Global,
    bytes: &[u8],
    start: JournalStart,
    document: &Document,
) -> Result<Answer, Stop>
    requires short { length bytes.now < 2 ^ 31 }
    requires at { start.at ≤ length bytes.now }
    requires line { start.line < 2 ^ 31 }
    ensures { Ends ⊥ (IsJudgement is_of_input (IsDocumentMigrated bytes.now start document.now)) result }
{
    let journal = journal_of(alloc, document, bytes, start)?;
    Ok(answer_with(alloc, document, &journal)?)
}

/// What `migrate` says of an input that is not too long.
fn judge(alloc: Global, bytes: &[u8]) -> Result<Answer, Stop>
    requires { length bytes.now ≤ longest_journal }
    ensures { Ends ⊥ (IsJudgement is_of_input (IsMigrated bytes.now)) result }
{
    let start = start_of(alloc, bytes)?;
    let document = document_of(alloc, &bytes[..start.at as usize])?;
    judge_document(alloc, bytes, start, &document)
}

/// What `migrate` answers to what the source holds.
fn answer_of<S: Source>(alloc: Global, source: &mut S) -> Result<Answer, Stop>
    ensures { IsAnswered is_of_input MigrateVerdict (S.left source.old) (S.left source.new) (S.faults source.old) (S.faults source.new) result }
{
    let bytes = read_input(alloc, source, LONGEST_JOURNAL)?;
    judge(alloc, &bytes)
}

/// Reads a document and the journal behind it from the source, in any version, and writes to the sink what the journal
/// says in the latest version; or the line that refuses the input: the verdict on the bytes that the source held. The
/// document is not analysed, nor the journal audited. The text is made whole before its first byte is written.
pub fn migrate_command<S: Source, K: Sink>(alloc: Global, source: &mut S, sink: &mut K) -> Status
    ensures { AnswersInput is_of_input MigrateVerdict (sink.new ≡ sink.old) (record {
      left_before = S.left source.old;
      left_after = S.left source.new;
      read_faults_before = S.faults source.old;
      read_faults_after = S.faults source.new;
      written_before = K.written sink.old;
      written_after = K.written sink.new;
      write_faults_before = K.faults sink.old;
      write_faults_after = K.faults sink.new;
    }) result }
{
    let ended = answer_of(alloc, source);
    write_answer(sink, ended)
}
