//! The next turn of a schedule.
ghost use Rattle.std.specs.Prelude.{◌≡◌, ℕ, ◌+◌, ◌<◌, false, length, MatchBool, OnOk};
ghost use Rattle.ipa_schedule.specs.Forecasts.{HaveGone};
ghost use Rattle.ipa_schedule.specs.Running.{run_of, Goes, IsUnderWay, IsLater, UnlessWanting};
ghost use Rattle.ipa_schedule.specs.Plans.{IsPlanAt, IsPlanned, IsOn, IsAtEnd, IsTurnAt};
ghost use Rattle.ipa_schedule.specs.Remaining.{turns_left};

use crate::asking::is_done;
use crate::plan::Plan;
use crate::playing::take_turn;
use crate::progress::Progress;
use ipa_weather::Weather;
use ipa_world::{World, WorldFault};

// Whether no turn is left before the settling.
pub(crate) fn is_over(world: &World, plan: &Plan) -> bool
    ensures { MatchBool result (IsAtEnd world.now plan.now) (IsOn world.now plan.now) }
{
    if plan.left > 0 {
        return false;
    }
    if plan.place > 0 {
        return false;
    }
    is_done(world)
}

// Takes the next turn. Where memory is wanting, the plan has gone on all the same.
pub(crate) fn take_next(
    world: &mut World,
    progress: &mut Progress,
    plan: &mut Plan,
    weathers: &mut Vec<Box<dyn Weather + Send>>,
) -> Result<(), WorldFault>
    requires plan { IsPlanned world.old plan.old }
    requires on { IsOn world.old plan.old }
    requires way { IsUnderWay world.old progress.old }
    requires going { progress.old.full ≡ false }
    requires weathers { length weathers.old.items ≡ 64 }
    ensures turned { (k : ℕ) → IsPlanAt world.old k plan.old → Goes result progress.new.full
        (IsTurnAt plan.old.number k (run_of world.old progress.old) (run_of world.new progress.new)) }
    ensures plan { (k : ℕ) → IsPlanAt world.old k plan.old → IsPlanAt world.new (k + 1) plan.new }
    ensures number { plan.new.number ≡ plan.old.number }
    ensures nearer { OnOk result (turns_left world.new plan.new < turns_left world.old plan.old) }
    ensures gone { UnlessWanting result (HaveGone (λ w. due w) (λ w. asked w) weathers.old.items weathers.new.items
        progress.old.fates progress.new.fates) }
    ensures way { IsUnderWay world.new progress.new }
    ensures later { IsLater world.old world.new }
    ensures left { length weathers.new.items ≡ 64 }
{
    let turn = plan.next();
    take_turn(world, progress, weathers, &turn)
}
