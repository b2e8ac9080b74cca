//! What the commands answer that run a schedule.
ghost use Rattle.std.specs.Prelude.{◌≡◌, ◌≤◌};
ghost use Rattle.ipa_command.specs.Steps.{IsWritten};
ghost use Rattle.ipa_run_commands.specs.RunVerdicts.{answer_in, handed_in, handed_of, handed_with};

use crate::runs::{Ran, Told};
use ipa_base::Sink;
use ipa_command::{Status, Stop, write_answer};
use ipa_history::{Fate, SimEnd};
use ipa_spec::List;

/// What a command answers that runs a schedule.
#[derive(Drop)]
pub struct SimAnswer {
    /// The status.
    pub status: Status,
    /// How the run ended, where its journal or its summary was to be written.
    pub end: Option<SimEnd>,
    /// The fates that were given on each link until a log was without room, where the line `full` was to be written.
    pub full: Option<List<List<Fate>>>,
}

/// The answer with this status that hands a run back.
fn handing(status: Status, ran: Ran) -> SimAnswer
    ensures status { result.status ≡ status }
    ensures handed { handed_with result ≡ handed_of ran }
{
    match ran {
        Ran::Ended(end) => SimAnswer {
            status,
            end: Some(end),
            full: None,
        },
        Ran::Full(fates) => SimAnswer {
            status,
            end: None,
            full: Some(fates),
        },
    }
}

/// Writes the answer that the steps of a command ended with, and hands the run back, where there was one.
pub(crate) fn conclude<K: Sink>(sink: &mut K, ended: Result<Told, Stop>) -> SimAnswer
    ensures written { IsWritten (sink.new ≡ sink.old) (K.written sink.old) (K.written sink.new) (K.faults sink.old) (K.faults sink.new) (answer_in ended) result.status }
    ensures handed { handed_with result ≡ handed_in ended }
    ensures count { K.faults sink.old ≤ K.faults sink.new }
{
    match ended {
        Ok(told) => {
            let status = write_answer(sink, Ok(told.answer));
            handing(status, told.ran)
        }
        Err(stop) => SimAnswer {
            status: write_answer(sink, Err(stop)),
            end: None,
            full: None,
        },
    }
}
