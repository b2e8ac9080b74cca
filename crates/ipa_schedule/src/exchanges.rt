//! An exchange: over each link, all that the sender's log has is given to the receiver, without weather.
ghost use Rattle.std.specs.Prelude.{◌≡◌, ◌<◌, false, List, length, slice_get, Some};
ghost use Rattle.ipa_history.specs.declared.history.Tx.{Tx};
ghost use Rattle.ipa_world.specs.Steps.{IsLink};
ghost use Rattle.ipa_schedule.specs.Running.{run_of, Goes, IsUnderWay, IsLater, IsLinkOf, IsExchangeTurn};
ghost use Rattle.ipa_schedule.specs.Schedules.{IsExchangeOver, IsExchanged, links_of};

use crate::progress::{Progress, take_step};
use crate::turns::Turn;
use ipa_world::{Step, World, WorldFault};

// All that the sender's log has is given to the receiver over each of the links, one after the other.
pub(crate) fn exchange(
    world: &mut World,
    progress: &mut Progress,
    links: &[Turn],
) -> Result<(), WorldFault>
    requires links { links.now ≡ links_of (length world.old.logs) }
    requires way { IsUnderWay world.old progress.old }
    requires going { progress.old.full ≡ false }
    ensures went { Goes result progress.new.full
        (IsExchanged (run_of world.old progress.old) (run_of world.new progress.new)) }
    ensures way { IsUnderWay world.new progress.new }
    ensures later { IsLater world.old world.new }
    ensures fates { progress.new.fates ≡ progress.old.fates }
{
    for link in links {
        give_over(world, progress, link)?;
    }
    Ok(())
}

// All that the sender's log has is given to the receiver of this link.
fn give_over(world: &mut World, progress: &mut Progress, link: &Turn) -> Result<(), WorldFault>
    requires link { IsLinkOf world.old link.now }
    requires way { IsUnderWay world.old progress.old }
    requires going { progress.old.full ≡ false }
    ensures went { Goes result progress.new.full
        (IsExchangeTurn (run_of world.old progress.old) link.now (run_of world.new progress.new)) }
    ensures way { IsUnderWay world.new progress.new }
    ensures later { IsLater world.old world.new }
    ensures fates { progress.new.fates ≡ progress.old.fates }
{
    match link {
        Turn::Link { from, to } => give_all(world, progress, *from, *to),
        Turn::Session(_) => Ok(()),
    }
}

// All that one replica's log has is given to another.
fn give_all(world: &mut World, progress: &mut Progress, from: u8, to: u8) -> Result<(), WorldFault>
    requires link { IsLink world.old from to }
    requires way { IsUnderWay world.old progress.old }
    requires going { progress.old.full ≡ false }
    ensures went { Goes result progress.new.full
        (IsExchangeOver (run_of world.old progress.old) from to (run_of world.new progress.new)) }
    ensures way { IsUnderWay world.new progress.new }
    ensures later { IsLater world.old world.new }
    ensures fates { progress.new.fates ≡ progress.old.fates }
{
    let count = entry_count(world, from);
    for place in 0..count {
        take_step(world, progress, &Step::Deliver { from, to, place })?;
    }
    Ok(())
}

// How many entries the log of a replica has.
fn entry_count(world: &World, replica: u8) -> u32
    requires { replica < length world.now.logs }
    ensures { (log : List Tx) → slice_get world.now.logs replica ≡ Some log → result ≡ length log }
{
    world.log(replica).entries().len()
}
