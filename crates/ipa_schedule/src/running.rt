//! The schedule of a number, from its first turn to the end of its settling.
ghost use Rattle.std.specs.Prelude.{◌≡◌, ◌<◌, false, length, IfOk, IfErr};
ghost use Rattle.ipa_schedule.specs.Going.{RunParts};
ghost use Rattle.ipa_schedule.specs.Ends.{IsNew, IsEndOf, IsEndOfSchedule, IsFullOf, IsLawfulFor, IfFull};
ghost use Rattle.ipa_schedule.specs.Forecasts.{AreForecast, HaveGone};
ghost use Rattle.ipa_schedule.specs.Plans.{IsPlanAt, Plays};
ghost use Rattle.ipa_schedule.specs.Running.{run_of, IsUnderWay, IsLater, UnlessWanting};
ghost use Rattle.ipa_schedule.specs.Schedules.{IsPlayed, IsScheduled, IsFullTurn, IsFullWhere};

use crate::plan::Plan;
use crate::progress::Progress;
use crate::settling::settle;
use crate::turning::{is_over, take_next};
use ipa_history::{Fate, SimEnd};
use ipa_spec::List;
use ipa_weather::Weather;
use ipa_world::{World, WorldFault, law_world_is_lawful};
use std::alloc::AllocError;

/// Why a schedule is not run to its end.
#[derive(Drop)]
pub enum SimFault {
    /// A log with 65536 entries is due another one.
    Full {
        /// The fates that were given on each link until then, in order.
        fates: List<List<Fate>>,
    },
    /// Memory is wanting.
    NoMemory,
}

impl From<AllocError> for SimFault {
    ghost use Rattle.std.specs.Prelude.{◌≡◌};
    ghost use Rattle.ipa_schedule.specs.declared.running.SimFault.TheVariants.{NoMemory};

    ghost from_gives = { λ _ fault. fault ≡ NoMemory };

    fn from(_: AllocError) -> SimFault {
        SimFault::NoMemory
    }
}

/// Runs the schedule of this number in a new world, its settling included, and answers its end. The weathers of the 64
/// links, of which that from replica a to replica b has the place 8a + b, give the frames their fates.
///
/// # Errors
/// A log with 65536 entries is due another one: the world stands after the steps before that one, and the fates that were
/// given are moved out without taking memory. Or memory is wanting: the world stands after some of the schedule's steps.
pub fn run_schedule(
    world: &mut World,
    number: u64,
    weathers: &mut Vec<Box<dyn Weather + Send>>,
) -> Result<SimEnd, SimFault>
    requires new { IsNew world.old }
    requires weathers { length weathers.old.items ≡ 64 }
    ensures ended { IfOk result (IsEndOfSchedule number world.old world.new) }
    ensures lawful { IfOk result (IsLawfulFor world.new) }
    ensures full { IfErr result (IfFull (IsFullOf number world.old world.new)) }

    // The fates are the weathers' own.
    ensures fates { IfOk result (λ end.
        AreForecast (λ w. due w) (λ w. asked w) weathers.old.items weathers.new.items end.fates) }
    ensures full_fates { IfErr result (IfFull (λ fates.
        AreForecast (λ w. due w) (λ w. asked w) weathers.old.items weathers.new.items fates)) }
    ensures left { length weathers.new.items ≡ 64 }
    ensures later { IsLater world.old world.new }
{
    law_world_is_lawful(world);
    let alloc = *weathers.allocator();
    let mut progress = Progress::new(alloc)?;
    let mut plan = Plan::new(alloc, world, number)?;
    match play_out(world, &mut progress, &mut plan, weathers) {
        Ok(()) => Ok(end_of(world, progress.fates)?),
        Err(WorldFault::Full) => Err(SimFault::Full {
            fates: progress.fates,
        }),
        Err(WorldFault::NoMemory) => Err(SimFault::NoMemory),
    }
}

// Takes all turns, and settles.
fn play_out(
    world: &mut World,
    progress: &mut Progress,
    plan: &mut Plan,
    weathers: &mut Vec<Box<dyn Weather + Send>>,
) -> Result<(), WorldFault>
    requires plan { IsPlanAt world.old 0 plan.old }
    requires way { IsUnderWay world.old progress.old }
    requires going { progress.old.full ≡ false }
    requires weathers { length weathers.old.items ≡ 64 }
    ensures played { Plays result progress.new.full
        (IsScheduled plan.old.number (run_of world.old progress.old) (run_of world.new progress.new))
        (IsFullWhere plan.old.number (run_of world.old progress.old) (run_of world.new progress.new)) }
    ensures gone { UnlessWanting result (HaveGone (λ w. due w) (λ w. asked w) weathers.old.items weathers.new.items
        progress.old.fates progress.new.fates) }
    ensures later { IsLater world.old world.new }
    ensures left { length weathers.new.items ≡ 64 }
{
    play(world, progress, plan, weathers)?;
    settle(world, progress)
}

// Takes all turns.
fn play(
    world: &mut World,
    progress: &mut Progress,
    plan: &mut Plan,
    weathers: &mut Vec<Box<dyn Weather + Send>>,
) -> Result<(), WorldFault>
    requires plan { IsPlanAt world.old 0 plan.old }
    requires way { IsUnderWay world.old progress.old }
    requires going { progress.old.full ≡ false }
    requires weathers { length weathers.old.items ≡ 64 }
    ensures played { Plays result progress.new.full
        (IsPlayed plan.old.number (run_of world.old progress.old) (run_of world.new progress.new))
        (IsFullTurn plan.old.number (run_of world.old progress.old) (run_of world.new progress.new)) }
    ensures gone { UnlessWanting result (HaveGone (λ w. due w) (λ w. asked w) weathers.old.items weathers.new.items
        progress.old.fates progress.new.fates) }
    ensures way { IsUnderWay world.new progress.new }
    ensures later { IsLater world.old world.new }
    ensures left { length weathers.new.items ≡ 64 }
{
    'turns: while !is_over(world, plan) {
        take_next(world, progress, plan, weathers)?;
    }
    Ok(())
}

// The end of a run with these fates.
pub(crate) fn end_of(world: &World, fates: List<List<Fate>>) -> Result<SimEnd, AllocError>
    requires { 0 < length world.now.logs }
    ensures end { (r : RunParts) → r.world ≡ world.now → r.fates ≡ fates → IfOk result (IsEndOf r) }
    ensures fates { IfOk result (λ end. end.fates ≡ fates) }
{
    let (entries, outcomes, last) = world.end()?;
    Ok(SimEnd {
        entries,
        outcomes,
        fates,
        last,
    })
}
