//! What arrives of a batch of frames. The weather is asked once a frame, in order; what it holds arrives after the
//! frames of the next batch. Room for a frame's fate is taken before the weather is asked, and frames are moved to
//! their places last, so that after want of memory what had arrived and what was held are as they were.
ghost use Rattle.std.specs.Prelude.{◌≡◌, ◌∷◌, ◌++◌, [], length, IfOk, OnOk, OnErr};
ghost use Rattle.ipa_weather.specs.Forecasts.{raised, HasMoved, WereDue};
ghost use Rattle.ipa_weather.specs.Arrivals.{passing, holding, passing_of, held_of, arrivals_of};

use crate::weather::Weather;
use ipa_history::Fate;
use ipa_spec::List;
use std::alloc::{AllocError, Global};
use std::mem;

/// The frames that arrive, and the fates that were given, one for each frame that was sent.
#[derive(Drop)]
pub struct Arrived {
    /// The bytes of the frames, in the order in which they arrive.
    pub frames: List<List<u8>>,
    /// The fates, in the order of the frames that were sent.
    pub fates: List<Fate>,
}

/// Sends one frame: it is appended to what arrives or to what is held, as the due fate says, and the fate to the
/// fates. After want of memory the frame is lost, and the weather may have been asked.
pub fn pass_one(
    alloc: Global,
    weather: &mut Box<dyn Weather + Send>,
    frame: List<u8>,
    arrived: &mut Arrived,
    held: &mut List<List<u8>>,
) -> Result<(), AllocError>
    ensures frames { OnOk result (arrived.new.frames ≡ arrived.old.frames ++ passing (due weather.old 0) frame) }
    ensures fate { OnOk result (arrived.new.fates ≡ arrived.old.fates ++ due weather.old 0 ∷ []) }
    ensures held { OnOk result (held.new ≡ held.old ++ holding (due weather.old 0) frame) }
    ensures moved { OnOk result (HasMoved (due weather.old) (due weather.new) 1) }
    ensures asked { OnOk result (asked weather.new ≡ raised 1 (asked weather.old)) }
    ensures arrived_stay { OnErr result (arrived.new ≡ arrived.old) }
    ensures held_stay { OnErr result (held.new ≡ held.old) }
{
    let mut fates = mem::replace(&mut arrived.fates, List::new(alloc)).into_vec();
    let passed = pass_noted(alloc, weather, frame, &mut arrived.frames, &mut fates, held);
    arrived.fates = List::from_vec(fates);
    passed
}

/// Sends the frames of a batch, in order. Those that were held before arrive after them, and those that are held now
/// take their place. After want of memory the frames are lost, the weather may have been asked, and the frames that
/// were held still are.
pub fn pass_all(
    alloc: Global,
    weather: &mut Box<dyn Weather + Send>,
    frames: List<List<u8>>,
    held: &mut List<List<u8>>,
) -> Result<Arrived, AllocError>
    ensures frames { IfOk result (λ arrived. arrived.frames ≡ arrivals_of arrived.fates frames held.old) }
    ensures held { IfOk result (λ arrived. held.new ≡ held_of arrived.fates frames) }
    ensures each { IfOk result (λ arrived. length arrived.fates ≡ length frames) }
    ensures fates { IfOk result (λ arrived. WereDue (due weather.old) arrived.fates) }
    ensures moved { IfOk result (λ arrived. HasMoved (due weather.old) (due weather.new) (length arrived.fates)) }
    ensures asked { IfOk result (λ arrived. asked weather.new ≡ raised (length arrived.fates) (asked weather.old)) }
    ensures held_stay { OnErr result (held.new ≡ held.old) }
{
    let mut kept = List::new(alloc);
    let mut arrived = pass_each(alloc, weather, frames, &mut kept)?;
    append(alloc, &mut arrived.frames, held)?;
    *held = kept;
    Ok(arrived)
}

/// Sends the frames of a batch, in order, and holds among `kept`, which is empty.
fn pass_each(
    alloc: Global,
    weather: &mut Box<dyn Weather + Send>,
    frames: List<List<u8>>,
    kept: &mut List<List<u8>>,
) -> Result<Arrived, AllocError>
    requires { kept.old ≡ [] }
    ensures frames { IfOk result (λ arrived. arrived.frames ≡ passing_of arrived.fates frames) }
    ensures kept { IfOk result (λ arrived. kept.new ≡ held_of arrived.fates frames) }
    ensures each { IfOk result (λ arrived. length arrived.fates ≡ length frames) }
    ensures fates { IfOk result (λ arrived. WereDue (due weather.old) arrived.fates) }
    ensures moved { IfOk result (λ arrived. HasMoved (due weather.old) (due weather.new) (length arrived.fates)) }
    ensures asked { IfOk result (λ arrived. asked weather.new ≡ raised (length arrived.fates) (asked weather.old)) }
{
    let mut arrived = Arrived {
        frames: List::new(alloc),
        fates: List::new(alloc),
    };
    for frame in frames.into_vec() {
        pass_one(alloc, weather, frame, &mut arrived, kept)?;
    }
    Ok(arrived)
}

/// Sends one frame, and notes its fate.
fn pass_noted(
    alloc: Global,
    weather: &mut Box<dyn Weather + Send>,
    frame: List<u8>,
    frames: &mut List<List<u8>>,
    fates: &mut Vec<Fate>,
    held: &mut List<List<u8>>,
) -> Result<(), AllocError>
    ensures frames { OnOk result (frames.new ≡ frames.old ++ passing (due weather.old 0) frame) }
    ensures fate { OnOk result (fates.new.items ≡ fates.old.items ++ due weather.old 0 ∷ []) }
    ensures held { OnOk result (held.new ≡ held.old ++ holding (due weather.old 0) frame) }
    ensures moved { OnOk result (HasMoved (due weather.old) (due weather.new) 1) }
    ensures asked { OnOk result (asked weather.new ≡ raised 1 (asked weather.old)) }
    ensures frames_stay { OnErr result (frames.new ≡ frames.old) }
    ensures fates_stay { OnErr result (fates.new.items ≡ fates.old.items) }
    ensures held_stay { OnErr result (held.new ≡ held.old) }
{
    fates.reserve(1)?;
    let fate = ask(weather);
    place(alloc, fate, frame, frames, held)?;
    fates.push_reserved(fate);
    Ok(())
}

/// Asks a weather.
fn ask(weather: &mut Box<dyn Weather + Send>) -> Fate
    ensures fate { result ≡ due weather.old 0 }
    ensures moved { HasMoved (due weather.old) (due weather.new) 1 }
    ensures asked { asked weather.new ≡ raised 1 (asked weather.old) }
{
    weather.fate()
}

/// Puts a frame where its fate says.
fn place(
    alloc: Global,
    fate: Fate,
    frame: List<u8>,
    frames: &mut List<List<u8>>,
    held: &mut List<List<u8>>,
) -> Result<(), AllocError>
    ensures frames { OnOk result (frames.new ≡ frames.old ++ passing fate frame) }
    ensures held { OnOk result (held.new ≡ held.old ++ holding fate frame) }
    ensures frames_stay { OnErr result (frames.new ≡ frames.old) }
    ensures held_stay { OnErr result (held.new ≡ held.old) }
{
    match fate {
        Fate::Pass => frames.push(frame),
        Fate::Lose => Ok(()),
        Fate::Twice => push_twice(alloc, frames, frame),
        Fate::Hold => held.push(frame),
    }
}

/// Appends a frame and its copy.
fn push_twice(alloc: Global, frames: &mut List<List<u8>>, frame: List<u8>) -> Result<(), AllocError>
    ensures ok { OnOk result (frames.new ≡ frames.old ++ frame ∷ frame ∷ []) }
    ensures err { OnErr result (frames.new ≡ frames.old) }
{
    let again = copied(alloc, &frame)?;
    let mut both = List::new(alloc);
    both.push(frame)?;
    both.push(again)?;
    append(alloc, frames, &mut both)
}

/// A copy of a frame.
fn copied(alloc: Global, frame: &List<u8>) -> Result<List<u8>, AllocError>
    ensures { IfOk result (λ copy. copy ≡ frame.now) }
{
    Ok(List::from_vec(Vec::from_slice(alloc, frame.as_slice())?))
}

/// Moves frames to the end of others; after want of memory both are as they were.
fn append(
    alloc: Global,
    frames: &mut List<List<u8>>,
    more: &mut List<List<u8>>,
) -> Result<(), AllocError>
    ensures ok { OnOk result (frames.new ≡ frames.old ++ more.old) }
    ensures frames_stay { OnErr result (frames.new ≡ frames.old) }
    ensures more_stay { OnErr result (more.new ≡ more.old) }
{
    let mut all = mem::replace(frames, List::new(alloc)).into_vec();
    let mut rest = mem::replace(more, List::new(alloc)).into_vec();
    let moved = all.append(&mut rest);
    *frames = List::from_vec(all);
    *more = List::from_vec(rest);
    moved
}
