//! The run of a document.
ghost use Rattle.std.specs.Prelude.{◌≡◌, ◌≤◌, length, IfOk, IfErr, OnOk};
ghost use Rattle.ipa_logic.specs.Acceptance.{IsAccepted};
ghost use Rattle.ipa_pairs.specs.Width.{IsDeclared, IsNarrow};
ghost use Rattle.ipa_schedule.specs.Ends.{IsNew};
ghost use Rattle.ipa_schedule.specs.Forecasts.{AreForecast};
ghost use Rattle.ipa_command.specs.Statuses.{is_of_input};
ghost use Rattle.ipa_command.specs.Steps.{IsJudgement, StopsWith};
ghost use Rattle.ipa_command.specs.Verdicts.{AfterWidth, AfterAcceptance, Nothing, longest_document};
ghost use Rattle.ipa_run_commands.specs.Runs.{IsRunOf, HasOutcomes, fates_of, first_world_of};
ghost use Rattle.ipa_run_commands.specs.RunVerdicts.{IsTold, IsUnfit};

use crate::telling::{Telling, answer_with};
use ipa_command::{Answer, Stop, accepted_of, document_of};
use ipa_history::{Fate, SimEnd};
use ipa_pairs::Accepted;
use ipa_reader::{Document, kept_by_type};
use ipa_schedule::{SimFault, run_schedule};
use ipa_settings::setting_of;
use ipa_spec::List;
use ipa_weather::Weather;
use ipa_world::World;
use std::alloc::{AllocError, Global};
use std::thread::Threads;

/// A run, to its end or until a log was without room.
#[derive(Drop)]
pub(crate) enum Ran {
    /// The end of the run.
    Ended(SimEnd),
    /// The fates that were given on each link.
    Full(List<List<Fate>>),
}

/// A run, and what is answered of it.
#[derive(Drop)]
pub(crate) struct Told {
    /// The answer.
    pub answer: Answer,
    /// The run.
    pub ran: Ran,
}

/// The world of the document, in which nothing has happened.
fn world_of(alloc: Global, document: &Document, accepted: Accepted) -> Result<World, AllocError>
    requires same { accepted ≡ document.now.spec }
    ensures first { IfOk result (λ world. world ≡ first_world_of document.now) }
    ensures new { IfOk result IsNew }
{
    kept_by_type();
    let setting = setting_of(document, accepted)?;
    World::new(alloc, setting, &document.setup)
}

/// The run of the world by the schedule with this number, in these weathers.
fn run_world(
    world: &mut World,
    number: u64,
    weathers: &mut Vec<Box<dyn Weather + Send>>,
    document: &Document,
) -> Result<Ran, AllocError>
    requires first { world.old ≡ first_world_of document.now }
    requires new { IsNew world.old }
    requires weathers { length weathers.old.items ≡ 64 }
    ensures run { IfOk result (IsRunOf document.now number) }
    ensures outcomes { IfOk result (HasOutcomes document.now) }
    ensures fates { IfOk result (λ ran. AreForecast (λ w. due w) (λ w. asked w) weathers.old.items weathers.new.items (fates_of ran)) }
    ensures left { length weathers.new.items ≡ 64 }
{
    match run_schedule(world, number, weathers) {
        Ok(end) => Ok(Ran::Ended(end)),
        Err(SimFault::Full { fates }) => Ok(Ran::Full(fates)),
        Err(SimFault::NoMemory) => Err(AllocError),
    }
}

/// What a command says of an input that is not too long, and the run.
pub(crate) fn judge<R: Threads + Sync>(
    rt: &R,
    alloc: Global,
    telling: Telling,
    number: u64,
    weathers: &mut Vec<Box<dyn Weather + Send>>,
    bytes: &[u8],
) -> Result<Told, Stop>
    requires within { length bytes.now ≤ longest_document }
    requires weathers { length weathers.old.items ≡ 64 }
    ensures told { IfOk result (λ told. IsTold telling number bytes.now told.ran told.answer.status told.answer.text.items) }
    ensures stop { IfErr result (StopsWith ⊥ (IsJudgement is_of_input (IsUnfit bytes.now))) }
    ensures fates { IfOk result (λ told. AreForecast (λ w. due w) (λ w. asked w) weathers.old.items weathers.new.items (fates_of told.ran)) }
    ensures left { length weathers.new.items ≡ 64 }
{
    let document = document_of(alloc, bytes)?;
    let accepted = accepted_of(rt, alloc, &document.spec)?;
    let mut world = world_of(alloc, &document, accepted)?;
    let ran = run_world(&mut world, number, weathers, &document)?;
    let answer = answer_with(alloc, telling, number, &document, &ran)?;
    Ok(Told { answer, ran })
}
