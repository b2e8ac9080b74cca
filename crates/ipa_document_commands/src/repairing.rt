//! The command `repair`.
ghost use Rattle.std.specs.Prelude.{◌≡◌, ◌≤◌, length, IfOk, IfErr, OnOk};
ghost use Rattle.ipa_pairs.specs.Width.{IsDeclared, IsNarrow};
ghost use Rattle.ipa_repair.specs.Greedy.{IsRepaired};
ghost use Rattle.ipa_report.specs.RepairTexts.{repair_text};
ghost use Rattle.ipa_command.specs.Statuses.{is_of_input};
ghost use Rattle.ipa_command.specs.Steps.{Ends, IsAnswered, IsJudgement, StopsWith};
ghost use Rattle.ipa_command.specs.Verdicts.{AfterWidth, Nothing, longest_document};
ghost use Rattle.ipa_document_commands.specs.Repairs.{IsRepairJudged, RepairVerdict, repaired_status};
ghost use Rattle.ipa_command.specs.Answers.{AnswersInput};

use ipa_base::{Sink, Source};
use ipa_command::{
    Answer, LONGEST_DOCUMENT, Status, Stop, document_of, read_input, refuse_width, write_answer,
};
use ipa_pairs::PairFault;
use ipa_repair::{Repaired, repair};
use ipa_report::repair_text;
use ipa_spec::Spec;
use std::alloc::{AllocError, Global};
use std::thread::Threads;

/// The repair of the specification.
///
/// # Errors
/// The answer to one with a triple that is too wide; or memory ran out.
fn repaired_of<R: Threads + Sync>(rt: &R, alloc: Global, spec: &Spec) -> Result<Repaired, Stop>
    ensures repaired { IfOk result (IsRepaired spec.now) }
    ensures narrow { OnOk result (IsNarrow spec.now (IsDeclared spec.now)) }
    ensures stop { IfErr result (StopsWith ⊥ (IsJudgement is_of_input (AfterWidth spec.now Nothing))) }
{
    match repair(rt, alloc, spec.copy()?) {
        Ok(repaired) => Ok(repaired),
        Err(
            PairFault::TooWide {
                left,
                right,
                clause,
                count,
            },
        ) => Err(Stop::Answered(refuse_width(alloc, spec, left, right, clause, count)?)),
        Err(PairFault::NoMemory) => Err(Stop::NoMemory),
    }
}

/// The status of a repair: `Done`, or `Rejected` where it is stuck.
fn status_of(repaired: &Repaired) -> Status
    ensures { result ≡ repaired_status repaired.now }
{
    match repaired {
        Repaired::Done(..) => Status::Done,
        Repaired::Stuck(..) => Status::Rejected,
    }
}

/// The answer that a repair is.
fn answer_with(alloc: Global, repaired: &Repaired) -> Result<Answer, AllocError>
    ensures status { IfOk result (λ answer. answer.status ≡ repaired_status repaired.now) }
    ensures text { IfOk result (λ answer. answer.text.items ≡ repair_text repaired.now) }
{
    Ok(Answer {
        status: status_of(repaired),
        text: repair_text(alloc, repaired)?,
    })
}

/// What `repair` says of an input that is not too long.
fn judge<R: Threads + Sync>(rt: &R, alloc: Global, bytes: &[u8]) -> Result<Answer, Stop>
    requires { length bytes.now ≤ longest_document }
    ensures { Ends ⊥ (IsJudgement is_of_input (IsRepairJudged bytes.now)) result }
{
    let document = document_of(alloc, bytes)?;
    let repaired = repaired_of(rt, alloc, &document.spec)?;
    Ok(answer_with(alloc, &repaired)?)
}

/// What `repair` answers to what the source holds.
fn answer_of<R: Threads + Sync, S: Source>(
    rt: &R,
    alloc: Global,
    source: &mut S,
) -> Result<Answer, Stop>
    ensures { IsAnswered is_of_input RepairVerdict (S.left source.old) (S.left source.new) (S.faults source.old) (S.faults source.new) result }
{
    let bytes = read_input(alloc, source, LONGEST_DOCUMENT)?;
    judge(rt, alloc, &bytes)
}

/// Reads a document from the source, and writes to the sink the steps of the greedy repair of its specification and
/// what comes out, or the line that refuses it: the verdict on the bytes that the source held. The text is made whole
/// before its first byte is written.
pub fn repair_command<R: Threads + Sync, S: Source, K: Sink>(
    rt: &R,
    alloc: Global,
    source: &mut S,
    sink: &mut K,
) -> Status
    ensures { AnswersInput is_of_input RepairVerdict (sink.new ≡ sink.old) (record {
      left_before = S.left source.old;
      left_after = S.left source.new;
      read_faults_before = S.faults source.old;
      read_faults_after = S.faults source.new;
      written_before = K.written sink.old;
      written_after = K.written sink.new;
      write_faults_before = K.faults sink.old;
      write_faults_after = K.faults sink.new;
    }) result }
{
    let ended = answer_of(rt, alloc, source);
    write_answer(sink, ended)
}
