//! The text of a run.
ghost use Rattle.std.specs.Prelude.{◌≡◌, length, IfOk};
ghost use Rattle.ipa_run_commands.specs.Runs.{HasOutcomes, end_told, run_status, told};

use crate::runs::Ran;
use ipa_command::{Answer, Status, text_answer};
use ipa_history::SimEnd;
use ipa_journal::write_journal;
use ipa_reader::Document;
use ipa_report::summary;
use std::alloc::{AllocError, Global};

/// How the end of a run is told.
#[derive(Clone, Copy, Debug, PartialEq, Eq)]
pub enum Telling {
    /// By its journal.
    Journal,
    /// By a summary of what was done.
    Summary,
}

/// The text of the end of a run.
fn end_text(
    alloc: Global,
    telling: Telling,
    number: u64,
    document: &Document,
    end: &SimEnd,
) -> Result<Vec<u8>, AllocError>
    requires { length end.now.outcomes ≡ length document.now.setup.sessions }
    ensures { IfOk result (λ bytes. bytes.items ≡ end_told telling number document.now end.now) }
{
    match telling {
        Telling::Journal => write_journal(
            alloc,
            &document.spec,
            &document.setup,
            &end.entries,
            &end.outcomes,
            &end.last,
        ),
        Telling::Summary => summary(alloc, number, end),
    }
}

/// What is answered of a run: the text of its end, or that a log is full.
pub(crate) fn answer_with(
    alloc: Global,
    telling: Telling,
    number: u64,
    document: &Document,
    ran: &Ran,
) -> Result<Answer, AllocError>
    requires { HasOutcomes document.now ran.now }
    ensures status { IfOk result (λ answer. answer.status ≡ run_status ran.now) }
    ensures text { IfOk result (λ answer. answer.text.items ≡ told telling number document.now ran.now) }
{
    match ran {
        Ran::Ended(end) => Ok(Answer {
            status: Status::Done,
            text: end_text(alloc, telling, number, document, end)?,
        }),
        Ran::Full(_) => text_answer(alloc, Status::Full, "full\n"),
    }
}
