//! The first step and the last of a command: its input, and its answer written out.
ghost use Rattle.std.specs.Prelude.{◌≡◌, ◌≤◌, IfOk, IfErr};
ghost use Rattle.ipa_base.specs.Faults.{Rose};
ghost use Rattle.ipa_command.specs.Verdicts.{too_long_text};
ghost use Rattle.ipa_command.specs.Steps.{IsInput, IsOverlong, IsSaid, IsWritten, StopsWith};

use crate::Status;
use crate::answers::{Answer, Stop, text_answer};
use ipa_base::{ReadEnd, Sink, Source, WriteFault, read_all, write_all};
use std::alloc::{AllocError, Global};

/// What an input is answered that is too long.
fn refuse_long(alloc: Global) -> Stop
    ensures { StopsWith ⊥ (λ status text. (status ≡ Status.Refused) × (text ≡ too_long_text)) result }
{
    match text_answer(alloc, Status::Refused, "refused: too long\n") {
        Ok(answer) => Stop::Answered(answer),
        Err(AllocError) => Stop::NoMemory,
    }
}

/// Reads all that the source holds, which is at most `limit` bytes.
///
/// # Errors
/// The answer to an input that is longer; the source's fault; or memory ran out.
pub fn read_input<S: Source>(alloc: Global, source: &mut S, limit: u32) -> Result<Vec<u8>, Stop>
    ensures input { IfOk result (λ bytes. IsInput limit (S.left source.old) (S.left source.new) bytes.items) }
    ensures stop { IfErr result (StopsWith (Rose (S.faults source.old) (S.faults source.new)) (IsOverlong limit (S.left source.old))) }
    ensures count { S.faults source.old ≤ S.faults source.new }
{
    match read_all(alloc, source, limit) {
        Ok(bytes) => Ok(bytes),
        Err(ReadEnd::TooLong) => Err(refuse_long(alloc)),
        Err(ReadEnd::ReadFault) => Err(Stop::ReadFault),
        Err(ReadEnd::NoMemory) => Err(Stop::NoMemory),
    }
}

/// Writes a text, and answers the status that is meant, or the sink's fault.
pub fn write_text<K: Sink>(sink: &mut K, text: &[u8], meant: Status) -> Status
    ensures said { IsSaid (K.written sink.old) (K.written sink.new) (K.faults sink.old) (K.faults sink.new) text.now meant result }
    ensures count { K.faults sink.old ≤ K.faults sink.new }
{
    match write_all(sink, text) {
        Ok(()) => meant,
        Err(WriteFault) => Status::WriteFault,
    }
}

/// Writes the answer that the steps of a command ended with, and answers the command's status. Without an answer it
/// writes nothing.
pub fn write_answer<K: Sink>(sink: &mut K, ended: Result<Answer, Stop>) -> Status
    ensures written { IsWritten (sink.new ≡ sink.old) (K.written sink.old) (K.written sink.new) (K.faults sink.old) (K.faults sink.new) ended result }
    ensures count { K.faults sink.old ≤ K.faults sink.new }
{
    match ended {
        Ok(answer) => write_text(sink, &answer.text, answer.status),
        Err(Stop::Answered(answer)) => write_text(sink, &answer.text, answer.status),
        Err(Stop::ReadFault) => Status::ReadFault,
        Err(Stop::NoMemory) => Status::NoMemory,
    }
}
