//! The turns of a run.
ghost use Rattle.std.specs.Prelude.{◌≡◌, false, length};
ghost use Rattle.ipa_schedule.specs.Forecasts.{HaveGone};
ghost use Rattle.ipa_schedule.specs.Running.{run_of, Goes, IsUnderWay, IsLater, IsTurnOf, UnlessWanting};
ghost use Rattle.ipa_schedule.specs.Turns.{IsTurn};

use crate::links::link_turn;
use crate::progress::Progress;
use crate::sessions::session_turn;
use crate::turns::Turn;
use ipa_weather::Weather;
use ipa_world::{World, WorldFault};

// Takes a turn.
pub(crate) fn take_turn(
    world: &mut World,
    progress: &mut Progress,
    weathers: &mut Vec<Box<dyn Weather + Send>>,
    turn: &Turn,
) -> Result<(), WorldFault>
    requires turn { IsTurnOf world.old turn.now }
    requires way { IsUnderWay world.old progress.old }
    requires going { progress.old.full ≡ false }
    requires weathers { length weathers.old.items ≡ 64 }
    ensures went { Goes result progress.new.full
        (IsTurn (run_of world.old progress.old) turn.now (run_of world.new progress.new)) }
    ensures gone { UnlessWanting result (HaveGone (λ w. due w) (λ w. asked w) weathers.old.items weathers.new.items
        progress.old.fates progress.new.fates) }
    ensures way { IsUnderWay world.new progress.new }
    ensures later { IsLater world.old world.new }
    ensures left { length weathers.new.items ≡ 64 }
{
    match turn {
        Turn::Session(session) => session_turn(world, progress, *session),
        Turn::Link { from, to } => link_turn(world, progress, weathers, *from, *to),
    }
}
