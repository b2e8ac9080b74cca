//! The turn of a session.
ghost use Rattle.std.specs.Prelude.{◌≡◌, ◌<◌, false, length, MatchBool};
ghost use Rattle.ipa_schedule.specs.Running.{run_of, Goes, IsUnderWay, IsLater};
ghost use Rattle.ipa_schedule.specs.Turns.{IsDueIn, IsCalmIn, IsDropping, IsSessionTurn};

use crate::progress::{Progress, take_step};
use ipa_world::{Step, World, WorldFault, law_world_is_lawful};

// A session pulls, makes the drops that are due, and then its next request is answered, if one is left.
pub(crate) fn session_turn(
    world: &mut World,
    progress: &mut Progress,
    session: u8,
) -> Result<(), WorldFault>
    requires there { session < length world.old.seats }
    requires way { IsUnderWay world.old progress.old }
    requires going { progress.old.full ≡ false }
    ensures went { Goes result progress.new.full
        (IsSessionTurn (run_of world.old progress.old) session (run_of world.new progress.new)) }
    ensures way { IsUnderWay world.new progress.new }
    ensures later { IsLater world.old world.new }
    ensures fates { progress.new.fates ≡ progress.old.fates }
{
    take_step(world, progress, &Step::Pull { session })?;
    make_drops(world, progress, session)?;
    take_step(world, progress, &Step::Act { session })
}

// A session makes one drop after the other, until none is due.
pub(crate) fn make_drops(
    world: &mut World,
    progress: &mut Progress,
    session: u8,
) -> Result<(), WorldFault>
    requires there { session < length world.old.seats }
    requires way { IsUnderWay world.old progress.old }
    requires going { progress.old.full ≡ false }
    ensures went { Goes result progress.new.full
        (IsDropping (run_of world.old progress.old) session (run_of world.new progress.new)) }
    ensures way { IsUnderWay world.new progress.new }
    ensures later { IsLater world.old world.new }
    ensures fates { progress.new.fates ≡ progress.old.fates }
{
    'drops: while is_due(world, session) {
        take_step(world, progress, &Step::Act { session })?;
    }
    Ok(())
}

// Whether a drop is due where a session stands.
pub(crate) fn is_due(world: &World, session: u8) -> bool
    requires { session < length world.now.seats }
    ensures { MatchBool result (IsDueIn world.now session) (IsCalmIn world.now session) }
{
    law_world_is_lawful(world);
    let session = world.session(session);
    let _cut = session.cut();
    session.next_drop().is_some()
}
