//! How what one replica's log has beyond what another is known to have is sent its way.
ghost use Rattle.std.specs.Prelude.{◌≡◌, ℕ, ◌<◌, ◌++◌, List as Items, length, slice_get, slice_set, Some, IfOk, OnOk};
ghost use Rattle.ipa_history.specs.Histories.{IsMember};
ghost use Rattle.ipa_history.specs.declared.history.Tx.{Tx as TheTx};
ghost use Rattle.ipa_history.specs.declared.outcomes.Fate.{Fate as TheFate};
ghost use Rattle.ipa_frame.specs.Frames.{IsCarried, IsFrame};
ghost use Rattle.ipa_frame.specs.declared.frame.Frame.TheVariants.{Carry};
ghost use Rattle.ipa_world.specs.Steps.{IsLink};
ghost use Rattle.ipa_schedule.specs.Forecasts.{HaveGone};
ghost use Rattle.ipa_schedule.specs.Running.{IsUnderWay};
ghost use Rattle.ipa_schedule.specs.Sending.{IsPassedOver, IsHeldAfter, IsSent};
ghost use Rattle.ipa_schedule.specs.Turns.{carried_in, carried_all};

use crate::progress::Progress;
use ipa_frame::{Frame, write_frame};
use ipa_history::{Fate, Tx};
use ipa_spec::List;
use ipa_spec::laws::spec_is_fit;
use ipa_weather::{Weather, pass_all};
use ipa_world::{World, law_world_is_lawful};
use std::alloc::{AllocError, Global};
use std::mem;

// The first entries that the receiver may lack are sent; what arrives.
pub(crate) fn send(
    world: &World,
    progress: &mut Progress,
    weathers: &mut Vec<Box<dyn Weather + Send>>,
    from: u8,
    to: u8,
) -> Result<List<List<u8>>, AllocError>
    requires link { IsLink world.now from to }
    requires way { IsUnderWay world.now progress.old }
    requires weathers { length weathers.old.items ≡ 64 }
    ensures sent { IfOk result (λ arrived. IsSent world.now progress.old progress.new from to arrived) }
    ensures gone { OnOk result (HaveGone (λ w. due w) (λ w. asked w) weathers.old.items weathers.new.items
        progress.old.fates progress.new.fates) }
    ensures way { IsUnderWay world.now progress.new }
    ensures full { progress.new.full ≡ progress.old.full }
    ensures left { length weathers.new.items ≡ 64 }
{
    law_world_is_lawful(world);
    spec_is_fit(world.setting().accepted().spec());
    let link = 8 * from as usize + to as usize;
    let batch = world.batch(from, to)?;
    let frames = frames_of(progress.alloc, batch.as_slice())?;
    pass_over(progress, weathers, link, frames)
}

// The frames of transactions.
fn frames_of(alloc: Global, batch: &[Tx]) -> Result<List<List<u8>>, AllocError>
    requires { (t : TheTx) → IsMember batch.now t → IsCarried t }
    ensures frames { IfOk result (λ frames. frames ≡ carried_all batch.now) }
    ensures framed { OnOk result ((t : TheTx) → IsMember batch.now t → IsFrame (Carry t)) }
{
    let mut frames = List::new(alloc);
    for tx in batch {
        let frame = frame_of(alloc, tx)?;
        frames.push(frame)?;
    }
    Ok(frames)
}

// The frame of a transaction.
fn frame_of(alloc: Global, tx: &Tx) -> Result<List<u8>, AllocError>
    requires { IsCarried tx.now }
    ensures frame { IfOk result (λ frame. frame ≡ carried_in tx.now) }
    ensures framed { IsFrame (Carry tx.now) }
{
    let copy = copied(tx);
    let bytes = write_frame(alloc, &Frame::Carry(copy))?;
    Ok(List::from_vec(bytes))
}

// The same transaction, whose fields have the sizes of their types.
fn copied(tx: &Tx) -> Tx
    ensures { result ≡ tx.now }
{
    *tx
}

// The frames are passed through the weather of a link; what arrives.
fn pass_over(
    progress: &mut Progress,
    weathers: &mut Vec<Box<dyn Weather + Send>>,
    link: usize,
    frames: List<List<u8>>,
) -> Result<List<List<u8>>, AllocError>
    requires link { link < 64 }
    requires held { length progress.old.held.items ≡ 64 }
    requires given { length progress.old.fates ≡ 64 }
    requires weathers { length weathers.old.items ≡ 64 }
    ensures passed { IfOk result (λ arrived. IsPassedOver progress.old progress.new link frames arrived) }
    ensures gone { OnOk result (HaveGone (λ w. due w) (λ w. asked w) weathers.old.items weathers.new.items
        progress.old.fates progress.new.fates) }
    ensures held { IsHeldAfter progress.old progress.new link frames }
    ensures left { length weathers.new.items ≡ 64 }
{
    let weather = &mut weathers[link];
    let arrived = pass_all(progress.alloc, weather, frames, &mut progress.held[link])?;
    note(progress.alloc, &mut progress.fates, link, &arrived.fates)?;
    Ok(arrived.frames)
}

// Notes more fates on a link.
fn note(
    alloc: Global,
    fates: &mut List<List<Fate>>,
    link: usize,
    more: &List<Fate>,
) -> Result<(), AllocError>
    requires { link < length fates.old }
    ensures noted { (given : Items TheFate) → slice_get fates.old link ≡ Some given →
        OnOk result (fates.new ≡ slice_set fates.old link (given ++ more.now)) }
    ensures links { length fates.new ≡ length fates.old }
{
    let mut all = mem::replace(fates, List::new(alloc)).into_vec();
    let mut given = mem::replace(&mut all[link], List::new(alloc)).into_vec();
    let noted = given.extend_from_slice(more.as_slice());
    all[link] = List::from_vec(given);
    *fates = List::from_vec(all);
    noted
}
