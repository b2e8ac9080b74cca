//! The command `check`.
ghost use Rattle.std.specs.Prelude.{◌≡◌, ◌≤◌, length};
ghost use Rattle.ipa_command.specs.Statuses.{is_of_input};
ghost use Rattle.ipa_command.specs.Steps.{Ends, IsAnswered, IsJudgement};
ghost use Rattle.ipa_command.specs.Verdicts.{longest_document};
ghost use Rattle.ipa_document_commands.specs.Checks.{CheckVerdict, IsChecked};
ghost use Rattle.ipa_command.specs.Answers.{AnswersInput};

use ipa_base::{Sink, Source};
use ipa_command::{
    Answer, LONGEST_DOCUMENT, Status, Stop, accepted_of, document_of, read_input, text_answer,
    write_answer,
};
use std::alloc::Global;
use std::thread::Threads;

/// What `check` says of an input that is not too long.
fn judge<R: Threads + Sync>(rt: &R, alloc: Global, bytes: &[u8]) -> Result<Answer, Stop>
    requires { length bytes.now ≤ longest_document }
    ensures { Ends ⊥ (IsJudgement is_of_input (IsChecked bytes.now)) result }
{
    let document = document_of(alloc, bytes)?;
    let _accepted = accepted_of(rt, alloc, &document.spec)?;
    Ok(text_answer(alloc, Status::Done, "accepted\n")?)
}

/// What `check` answers to what the source holds.
fn answer_of<R: Threads + Sync, S: Source>(
    rt: &R,
    alloc: Global,
    source: &mut S,
) -> Result<Answer, Stop>
    ensures { IsAnswered is_of_input CheckVerdict (S.left source.old) (S.left source.new) (S.faults source.old) (S.faults source.new) result }
{
    let bytes = read_input(alloc, source, LONGEST_DOCUMENT)?;
    judge(rt, alloc, &bytes)
}

/// Reads a document from the source, and writes to the sink `accepted`, or the report of its conflicts and unsafe
/// drops, or the line that refuses it: the verdict on the bytes that the source held. The text is made whole before
/// its first byte is written.
pub fn check_command<R: Threads + Sync, S: Source, K: Sink>(
    rt: &R,
    alloc: Global,
    source: &mut S,
    sink: &mut K,
) -> Status
    ensures { AnswersInput is_of_input CheckVerdict (sink.new ≡ sink.old) (record {
      left_before = S.left source.old;
      left_after = S.left source.new;
      read_faults_before = S.faults source.old;
      read_faults_after = S.faults source.new;
      written_before = K.written sink.old;
      written_after = K.written sink.new;
      write_faults_before = K.faults sink.old;
      write_faults_after = K.faults sink.new;
    }) result }
{
    let ended = answer_of(rt, alloc, source);
    write_answer(sink, ended)
}
