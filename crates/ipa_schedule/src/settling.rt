//! The settling of a run.
ghost use Rattle.std.specs.Prelude.{◌≡◌, false};
ghost use Rattle.ipa_schedule.specs.Running.{run_of, Goes, IsUnderWay, IsLater};
ghost use Rattle.ipa_schedule.specs.Schedules.{IsCalmed, IsSettled};

use crate::exchanges::exchange;
use crate::progress::{Progress, take_step};
use crate::round::links;
use crate::sessions::make_drops;
use ipa_world::{Step, World, WorldFault};

// An exchange; the first session pulls and makes the drops that are due; and a second exchange.
pub(crate) fn settle(world: &mut World, progress: &mut Progress) -> Result<(), WorldFault>
    requires way { IsUnderWay world.old progress.old }
    requires going { progress.old.full ≡ false }
    ensures went { Goes result progress.new.full
        (IsSettled (run_of world.old progress.old) (run_of world.new progress.new)) }
    ensures way { IsUnderWay world.new progress.new }
    ensures later { IsLater world.old world.new }
    ensures fates { progress.new.fates ≡ progress.old.fates }
{
    let links = links(progress.alloc, world.replicas())?;
    exchange(world, progress, &links)?;
    calm_first(world, progress)?;
    exchange(world, progress, &links)
}

// The first session pulls and makes the drops that are due, where there is a session.
fn calm_first(world: &mut World, progress: &mut Progress) -> Result<(), WorldFault>
    requires way { IsUnderWay world.old progress.old }
    requires going { progress.old.full ≡ false }
    ensures went { Goes result progress.new.full
        (IsCalmed (run_of world.old progress.old) (run_of world.new progress.new)) }
    ensures way { IsUnderWay world.new progress.new }
    ensures later { IsLater world.old world.new }
    ensures fates { progress.new.fates ≡ progress.old.fates }
{
    if world.sessions() == 0 {
        return Ok(());
    }
    take_step(world, progress, &Step::Pull { session: 0 })?;
    make_drops(world, progress, 0)
}
