//! Runs that can be stopped between turns.
ghost use Rattle.std.specs.Prelude.{◌≡◌, ℕ, ◌<◌, false, length, Ok, Err, IfOk};
ghost use Rattle.ipa_world.specs.Lawful.{HasNoneLeft};
ghost use Rattle.ipa_schedule.specs.Ends.{IsNew};
ghost use Rattle.ipa_schedule.specs.Forecasts.{HaveGone};
ghost use Rattle.ipa_schedule.specs.Going.{begun};
ghost use Rattle.ipa_schedule.specs.Running.{run_of, IsUnderWay, IsLater, UnlessWanting};
ghost use Rattle.ipa_schedule.specs.Plans.{IsPlanAt};
ghost use Rattle.ipa_schedule.specs.Runs.{HasTurned, IsReady, IsEnded, IsSettledEnd, IsFullAtLast, state_of};

use crate::plan::Plan;
use crate::progress::Progress;
use crate::running::end_of;
use crate::settling::settle;
use crate::turned::Turned;
use crate::turning::{is_over, take_next};
use ipa_history::{Fate, SimEnd};
use ipa_spec::List;
use ipa_weather::Weather;
use ipa_world::{World, WorldFault, law_world_is_lawful};
use std::alloc::{AllocError, Global};
use std::marker::Model;

/// A run of a world by the schedule of a number, which is taken a turn at a time. Between turns the caller may replace
/// weathers.
#[derive(Drop)]
pub struct Run {
    world: World,
    pub(crate) progress: Progress,
    plan: Plan,
}

impl Model for Run {
    ghost use Rattle.ipa_schedule.specs.Runs.{RunState, IsReady, state_of};

    ghost Value = { RunState };

    ghost view = { λ a. state_of a.world a.progress a.plan };

    ghost invariant = { λ a. IsReady a.world a.progress a.plan };
}

impl Run {
    ghost use Rattle.ipa_schedule.specs.Runs.{HasBegun, HasTurned, IsEnded, IsSettledEnd, IsFullAtLast};

    /// The run of a new world by the schedule of this number, of which no turn was begun.
    pub fn new(alloc: Global, world: World, number: u64) -> Result<Run, AllocError>
        requires { IsNew world }
        ensures run { IfOk result (λ run. run.run ≡ begun world) }
        ensures number { IfOk result (λ run. run.plan.number ≡ number) }
        ensures begun { IfOk result (λ run. HasBegun run 0) }
    {
        let progress = Progress::new(alloc)?;
        let plan = Plan::new(alloc, &world, number)?;
        Ok(Run {
            world,
            progress,
            plan,
        })
    }

    /// Takes the next turn of the schedule, or answers [`Turned::Ended`] and changes nothing, exactly where none is left
    /// before the settling. The weathers of the 64 links give the frames their fates.
    ///
    /// # Errors
    /// A log with 65536 entries is due another one; a further call answers the same, and changes nothing. Or memory is
    /// wanting: the world stands after some of the turn's steps, the frames that were on their way in it are lost, and
    /// the next call begins the next turn.
    pub fn turn(
        &mut self,
        weathers: &mut Vec<Box<dyn Weather + Send>>,
    ) -> Result<Turned, WorldFault>
        requires weathers { length weathers.old.items ≡ 64 }
        ensures turned { (k : ℕ) → HasBegun self.old k → HasTurned k result self.old self.new }
        ensures ended { result ≡ Ok Turned.Ended → IsEnded self.new }

        // The fates that are added are the weathers' own.
        ensures fates { UnlessWanting result (HaveGone (λ w. due w) (λ w. asked w) weathers.old.items weathers.new.items
            self.old.run.fates self.new.run.fates) }
        ensures number { self.new.plan.number ≡ self.old.plan.number }
        ensures later { IsLater self.old.run.world self.new.run.world }
        ensures left { length weathers.new.items ≡ 64 }
    {
        turn_of(
            &mut self.world,
            &mut self.progress,
            &mut self.plan,
            weathers,
        )
    }

    /// The fates that were given on each link so far, in order.
    pub fn fates(&self) -> &List<List<Fate>>
        ensures { result.now ≡ self.now.run.fates }
    {
        &self.progress.fates
    }

    /// Settles the run, whose last turn was answered by [`Turned::Ended`], and answers its end, which is lawful whichever
    /// turns wanted memory.
    ///
    /// # Errors
    /// A log with 65536 entries is due another one, or memory is wanting.
    pub fn finish(self) -> Result<SimEnd, WorldFault>
        requires { IsEnded self }
        ensures end { IfOk result (IsSettledEnd self.run) }
        ensures full { result ≡ Err WorldFault.Full → IsFullAtLast self.run }
    {
        let Run {
            mut world,
            progress,
            plan,
        } = self;
        finish_of(&mut world, progress)
    }
}

// Takes the next turn, if one is left and no log was without room.
fn turn_of(
    world: &mut World,
    progress: &mut Progress,
    plan: &mut Plan,
    weathers: &mut Vec<Box<dyn Weather + Send>>,
) -> Result<Turned, WorldFault>
    requires ready { IsReady world.old progress.old plan.old }
    requires weathers { length weathers.old.items ≡ 64 }
    ensures turned { (k : ℕ) → IsPlanAt world.old k plan.old → HasTurned k result
        (state_of world.old progress.old plan.old) (state_of world.new progress.new plan.new) }
    ensures ended { result ≡ Ok Turned.Ended → IsEnded (state_of world.new progress.new plan.new) }
    ensures fates { UnlessWanting result (HaveGone (λ w. due w) (λ w. asked w) weathers.old.items weathers.new.items
        progress.old.fates progress.new.fates) }
    ensures number { plan.new.number ≡ plan.old.number }
    ensures later { IsLater world.old world.new }
    ensures ready { IsReady world.new progress.new plan.new }
    ensures left { length weathers.new.items ≡ 64 }
{
    if progress.full {
        return Err(WorldFault::Full);
    }
    if is_over(world, plan) {
        return Ok(Turned::Ended);
    }
    take_next(world, progress, plan, weathers)?;
    Ok(Turned::More)
}

// Settles a run without a request left.
fn finish_of(world: &mut World, mut progress: Progress) -> Result<SimEnd, WorldFault>
    requires some { 0 < length world.old.logs }
    requires way { IsUnderWay world.old progress }
    requires going { progress.full ≡ false }
    requires done { HasNoneLeft world.old }
    ensures end { IfOk result (IsSettledEnd (run_of world.old progress)) }
    ensures full { result ≡ Err WorldFault.Full → IsFullAtLast (run_of world.old progress) }
{
    law_world_is_lawful(world);
    settle(world, &mut progress)?;
    Ok(end_of(world, progress.fates)?)
}
