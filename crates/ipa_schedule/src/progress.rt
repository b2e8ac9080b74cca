//! How far a run has come, beside its world.
ghost use Rattle.std.specs.Prelude.{◌≡◌, [], ◌<◌, false, replicate, IfOk};
ghost use Rattle.ipa_world.specs.Worlds.{WorldParts};
ghost use Rattle.ipa_world.specs.Steps.{IsStepOf};
ghost use Rattle.ipa_schedule.specs.Going.{IsMoved, begun};
ghost use Rattle.ipa_schedule.specs.Running.{run_of, Goes, IsUnderWay, IsLater};

use ipa_history::Fate;
use ipa_spec::List;
use ipa_world::{Step, World, WorldFault, law_world_is_lawful};
use std::alloc::{AllocError, Global};

// How far a run has come, beside its world.
#[derive(Drop)]
pub(crate) struct Progress {
    pub(crate) alloc: Global,
    // The frames that each link holds.
    pub(crate) held: Vec<List<List<u8>>>,
    // The fates that were given on each link.
    pub(crate) fates: List<List<Fate>>,
    // Whether a log was without room.
    pub(crate) full: bool,
}

impl Progress {
    // No link holds a frame, and no weather was asked.
    pub(crate) fn new(alloc: Global) -> Result<Progress, AllocError>
        ensures begun { (w : WorldParts) → IfOk result (λ progress. run_of w progress ≡ begun w) }
        ensures way { (w : WorldParts) → IfOk result (λ progress. IsUnderWay w progress) }
    {
        Ok(Progress {
            alloc,
            held: nothing_held(alloc)?,
            fates: no_fates(alloc)?,
            full: false,
        })
    }
}

// No frame for each link.
fn nothing_held(alloc: Global) -> Result<Vec<List<List<u8>>>, AllocError>
    ensures { IfOk result (λ held. held.items ≡ replicate 64 []) }
{
    let mut held = Vec::new(alloc);
    for link in 0..64u32 {
        held.push(List::new(alloc))?;
    }
    Ok(held)
}

// No fate for each link.
fn no_fates(alloc: Global) -> Result<List<List<Fate>>, AllocError>
    ensures { IfOk result (λ fates. fates ≡ replicate 64 []) }
{
    let mut fates = List::new(alloc);
    for link in 0..64u32 {
        fates.push(List::new(alloc))?;
    }
    Ok(fates)
}

// Takes a step of the run.
pub(crate) fn take_step(
    world: &mut World,
    progress: &mut Progress,
    step: &Step,
) -> Result<(), WorldFault>
    requires of { IsStepOf world.old step.now }
    requires way { IsUnderWay world.old progress.old }
    requires going { progress.old.full ≡ false }
    ensures went { Goes result progress.new.full
        (IsMoved (run_of world.old progress.old) step.now (run_of world.new progress.new)) }
    ensures way { IsUnderWay world.new progress.new }
    ensures later { IsLater world.old world.new }
    ensures fates { progress.new.fates ≡ progress.old.fates }
{
    match world.step(step) {
        Ok(()) => {
            law_world_is_lawful(world);
            Ok(())
        }
        Err(WorldFault::Full) => {
            progress.full = true;
            Err(WorldFault::Full)
        }
        Err(WorldFault::NoMemory) => Err(WorldFault::NoMemory),
    }
}
