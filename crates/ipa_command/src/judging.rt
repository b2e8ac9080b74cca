//! The steps between the input and the result of a command: the document, and the verdict on its specification.
ghost use Rattle.std.specs.Prelude.{◌≡◌, ◌^◌, ◌<◌, length, IfOk, IfErr, OnOk};
ghost use Rattle.ipa_reader.specs.Documents.{ReadsAs};
ghost use Rattle.ipa_logic.specs.Acceptance.{IsAccepted};
ghost use Rattle.ipa_pairs.specs.Analyses.{IsRejected};
ghost use Rattle.ipa_pairs.specs.Width.{IsDeclared, IsFirstTooWide, IsNarrow};
ghost use Rattle.ipa_report.specs.Refusals.{refusal_text};
ghost use Rattle.ipa_command.specs.Statuses.{is_of_input};
ghost use Rattle.ipa_command.specs.Steps.{IsJudgement, StopsWith};
ghost use Rattle.ipa_command.specs.Verdicts.{AfterAcceptance, AfterReading, AfterWidth, IsReport, IsWidthRefusal, Nothing};

use crate::Status;
use crate::answers::{Answer, Stop};
use ipa_pairs::{AcceptFault, Accepted, Analysis, accept};
use ipa_reader::{DocFault, DocKind, Document, read_document};
use ipa_report::{refusal, report, too_wide};
use ipa_spec::{Action, Spec};
use std::alloc::{AllocError, Global};
use std::thread::Threads;

/// The greatest number of bytes of an input that is a document.
pub const LONGEST_DOCUMENT: u32 = 4_194_304;

/// The answer to a document that is refused at a line.
fn refuse(alloc: Global, line: u32, kind: &DocKind) -> Result<Answer, AllocError>
    ensures status { IfOk result (λ answer. answer.status ≡ Status.Refused) }
    ensures text { IfOk result (λ answer. answer.text.items ≡ refusal_text line kind.now) }
{
    Ok(Answer {
        status: Status::Refused,
        text: refusal(alloc, line, kind)?,
    })
}

/// The document that the bytes read as.
///
/// # Errors
/// The answer to bytes that have no reading; or memory ran out.
pub fn document_of(alloc: Global, bytes: &[u8]) -> Result<Document, Stop>
    requires { length bytes.now < 2 ^ 31 }
    ensures document { IfOk result (ReadsAs bytes.now) }
    ensures stop { IfErr result (StopsWith ⊥ (IsJudgement is_of_input (AfterReading bytes.now (λ _. Nothing)))) }
{
    match read_document(alloc, bytes) {
        Ok(document) => Ok(document),
        Err(DocFault::At { line, kind }) => Err(Stop::Answered(refuse(alloc, line, &kind)?)),
        Err(DocFault::NoMemory) => Err(Stop::NoMemory),
    }
}

/// The answer to a specification with a triple that is too wide, of which this is the first.
pub fn refuse_width(
    alloc: Global,
    spec: &Spec,
    left: Action,
    right: Action,
    clause: u8,
    count: u64,
) -> Result<Answer, AllocError>
    requires { IsFirstTooWide spec.now (IsDeclared spec.now) (record { left = left; right = right; clause = clause }) count }
    ensures status { IfOk result (λ answer. answer.status ≡ Status.Refused) }
    ensures text { IfOk result (λ answer. IsWidthRefusal spec.now answer.text.items) }
{
    Ok(Answer {
        status: Status::Refused,
        text: too_wide(alloc, spec, left, right, clause, count)?,
    })
}

/// The answer to a specification that is not accepted, of which this is the analysis.
fn reject(alloc: Global, spec: &Spec, analysis: &Analysis) -> Result<Answer, AllocError>
    requires { IsRejected spec.now analysis.now }
    ensures status { IfOk result (λ answer. answer.status ≡ Status.Rejected) }
    ensures text { IfOk result (λ answer. IsReport spec.now answer.text.items) }
{
    Ok(Answer {
        status: Status::Rejected,
        text: report(alloc, spec, analysis)?,
    })
}

/// The specification as one that is accepted.
///
/// # Errors
/// The answer to one with a triple that is too wide, or one that is not accepted; or memory ran out.
pub fn accepted_of<R: Threads + Sync>(rt: &R, alloc: Global, spec: &Spec) -> Result<Accepted, Stop>
    ensures same { IfOk result (λ accepted. accepted ≡ spec.now) }
    ensures narrow { OnOk result (IsNarrow spec.now (IsDeclared spec.now)) }
    ensures accepted { OnOk result (IsAccepted spec.now) }
    ensures stop { IfErr result (StopsWith ⊥ (IsJudgement is_of_input (AfterWidth spec.now (AfterAcceptance spec.now Nothing)))) }
{
    match accept(rt, alloc, spec.copy()?) {
        Ok(accepted) => Ok(accepted),
        Err(AcceptFault::Rejected(analysis)) => Err(Stop::Answered(reject(
            alloc, spec, &analysis,
        )?)),
        Err(
            AcceptFault::TooWide {
                left,
                right,
                clause,
                count,
            },
        ) => Err(Stop::Answered(refuse_width(alloc, spec, left, right, clause, count)?)),
        Err(AcceptFault::NoMemory) => Err(Stop::NoMemory),
    }
}
