//! The turn of a link.
ghost use Rattle.std.specs.Prelude.{◌≡◌, ℕ, ◌<◌, false, List as Items, length, slice_get, Some};
ghost use Rattle.ipa_history.specs.Histories.{IsMember};
ghost use Rattle.ipa_history.specs.declared.history.Tx.{Tx as TheTx};
ghost use Rattle.ipa_frame.specs.Frames.{IsFrame};
ghost use Rattle.ipa_frame.specs.declared.frame.Frame.TheVariants.{Carry};
ghost use Rattle.ipa_world.specs.Steps.{IsLink};
ghost use Rattle.ipa_schedule.specs.Forecasts.{HaveGone};
ghost use Rattle.ipa_schedule.specs.Going.{IsOffered, IsOfferedAll};
ghost use Rattle.ipa_schedule.specs.Running.{run_of, Goes, IsUnderWay, IsLater, IsFrameOf, AreBorne, UnlessWanting};
ghost use Rattle.ipa_schedule.specs.Turns.{IsHearing, IsLinkTurn, carried_in, carried_all};

use crate::progress::{Progress, take_step};
use crate::sending::send;
use ipa_spec::List;
use ipa_weather::Weather;
use ipa_world::{Step, World, WorldFault, law_world_is_lawful};

// What one replica's log has beyond what the other is known to have goes its way.
pub(crate) fn link_turn(
    world: &mut World,
    progress: &mut Progress,
    weathers: &mut Vec<Box<dyn Weather + Send>>,
    from: u8,
    to: u8,
) -> Result<(), WorldFault>
    requires link { IsLink world.old from to }
    requires way { IsUnderWay world.old progress.old }
    requires going { progress.old.full ≡ false }
    requires weathers { length weathers.old.items ≡ 64 }
    ensures went { Goes result progress.new.full
        (IsLinkTurn (run_of world.old progress.old) from to (run_of world.new progress.new)) }
    ensures gone { UnlessWanting result (HaveGone (λ w. due w) (λ w. asked w) weathers.old.items weathers.new.items
        progress.old.fates progress.new.fates) }
    ensures way { IsUnderWay world.new progress.new }
    ensures later { IsLater world.old world.new }
    ensures left { length weathers.new.items ≡ 64 }
{
    law_world_is_lawful(world);
    let arrived = send(world, progress, weathers, from, to)?;
    receive_all(world, progress, from, to, arrived.as_slice())?;
    hear(world, progress, from, to)
}

// What arrives is given to the receiver, in order.
fn receive_all(
    world: &mut World,
    progress: &mut Progress,
    from: u8,
    to: u8,
    frames: &[List<u8>],
) -> Result<(), WorldFault>
    requires link { IsLink world.old from to }
    requires sent { (log : Items TheTx) (frame : Items ℕ) → slice_get world.old.logs from ≡ Some log →
        IsMember frames.now frame → IsFrameOf log frame }
    requires way { IsUnderWay world.old progress.old }
    requires going { progress.old.full ≡ false }
    ensures went { (log arrived : Items TheTx) → slice_get world.old.logs from ≡ Some log →
        carried_all arrived ≡ frames.now → AreBorne log arrived →
        Goes result progress.new.full
        (IsOfferedAll (run_of world.old progress.old) to arrived (run_of world.new progress.new)) }
    ensures way { IsUnderWay world.new progress.new }
    ensures later { IsLater world.old world.new }
    ensures fates { progress.new.fates ≡ progress.old.fates }
{
    for frame in frames {
        receive(world, progress, from, to, frame.as_slice())?;
    }
    Ok(())
}

// The entry that a frame carries is given to the receiver.
fn receive(
    world: &mut World,
    progress: &mut Progress,
    from: u8,
    to: u8,
    bytes: &[u8],
) -> Result<(), WorldFault>
    requires link { IsLink world.old from to }
    requires sent { (log : Items TheTx) → slice_get world.old.logs from ≡ Some log → IsFrameOf log bytes.now }
    requires way { IsUnderWay world.old progress.old }
    requires going { progress.old.full ≡ false }
    ensures went { (log : Items TheTx) (t : TheTx) → slice_get world.old.logs from ≡ Some log → IsMember log t →
        IsFrame (Carry t) → bytes.now ≡ carried_in t →
        Goes result progress.new.full (IsOffered (run_of world.old progress.old) to t (run_of world.new progress.new)) }
    ensures log { (log : Items TheTx) → slice_get world.old.logs from ≡ Some log →
        slice_get world.new.logs from ≡ Some log }
    ensures way { IsUnderWay world.new progress.new }
    ensures later { IsLater world.old world.new }
    ensures fates { progress.new.fates ≡ progress.old.fates }
{
    match world.receive(from, to, bytes) {
        Ok(()) => {
            law_world_is_lawful(world);
            Ok(())
        }
        Err(WorldFault::Full) => {
            progress.full = true;
            Err(WorldFault::Full)
        }
        Err(WorldFault::NoMemory) => Err(WorldFault::NoMemory),
    }
}

// The sender hears what the receiver has.
fn hear(world: &mut World, progress: &mut Progress, from: u8, to: u8) -> Result<(), WorldFault>
    requires link { IsLink world.old from to }
    requires way { IsUnderWay world.old progress.old }
    requires going { progress.old.full ≡ false }
    ensures went { Goes result progress.new.full
        (IsHearing (run_of world.old progress.old) from to (run_of world.new progress.new)) }
    ensures way { IsUnderWay world.new progress.new }
    ensures later { IsLater world.old world.new }
    ensures fates { progress.new.fates ≡ progress.old.fates }
{
    law_world_is_lawful(world);
    let clock = world.log(to).clock();
    take_step(world, progress, &Step::Heard { from, to, clock })
}
