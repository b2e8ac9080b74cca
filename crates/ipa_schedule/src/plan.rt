//! Which turns a schedule has still to take.
ghost use Rattle.std.specs.Prelude.{◌≡◌, ℕ, ◌+◌, ◌<◌, length, slice_get, Some, IfOk};
ghost use Rattle.ipa_history.specs.Histories.{IsMember};
ghost use Rattle.ipa_world.specs.Worlds.{WorldParts};
ghost use Rattle.ipa_schedule.specs.Schedules.{turn_at};
ghost use Rattle.ipa_schedule.specs.Plans.{IsPlanAt, IsPlanned, IsDrawn, IsGoneOn, IsNext, place_after};

use crate::asking::longest;
use crate::draws::{drawn, draws, next_draw};
use crate::round::round;
use crate::turns::Turn;
use ipa_world::{World, law_world_is_lawful};
use rand_pcg::Lcg64Xsh32;
use std::alloc::{AllocError, Global};

// Which turns a schedule has still to take.
#[derive(Drop)]
pub(crate) struct Plan {
    // The number of the schedule.
    pub(crate) number: u64,
    // The turns of a round.
    pub(crate) round: Vec<Turn>,
    // The generator of the turns that are drawn.
    pub(crate) words: Lcg64Xsh32,
    // How many turns are still to be drawn.
    pub(crate) left: u32,
    // The place of the next turn in a round, once all were drawn.
    pub(crate) place: usize,
}

impl Plan {
    // The plan of a world's schedule with this number.
    pub(crate) fn new(alloc: Global, world: &World, number: u64) -> Result<Plan, AllocError>
        ensures at { IfOk result (IsPlanAt world.now 0) }
        ensures number { IfOk result (λ plan. plan.number ≡ number) }
    {
        law_world_is_lawful(world);
        let round = round(alloc, world.sessions(), world.replicas())?;
        let left = drawn(number, round.len() as u32, longest(world));
        Ok(Plan {
            number,
            round,
            words: draws(number),
            left,
            place: 0,
        })
    }

    // The next turn.
    pub(crate) fn next(&mut self) -> Turn
        requires some { 0 < length self.old.round.items }
        requires inside { 0 < self.old.place → self.old.place < length self.old.round.items }
        ensures member { IsMember self.old.round.items result }
        ensures next { IsNext self.old result self.new }
        ensures turn { (w : WorldParts) (k : ℕ) → IsPlanAt w k self.old → turn_at self.old.number w k ≡ Some result }
    {
        if self.left > 0 {
            return self.draw();
        }
        self.go_on()
    }

    // Draws the next turn.
    fn draw(&mut self) -> Turn
        requires left { 0 < self.old.left }
        requires some { 0 < length self.old.round.items }
        ensures member { IsMember self.old.round.items result }
        ensures drawn { IsDrawn self.old self.new }
        ensures turn { (w : WorldParts) (k : ℕ) → IsPlanAt w k self.old → turn_at self.old.number w k ≡ Some result }
    {
        self.left -= 1;
        let word = next_draw(&mut self.words);
        let place = word as usize % self.round.len();
        self.round[place]
    }

    // The next turn of the round.
    fn go_on(&mut self) -> Turn
        requires none { self.old.left ≡ 0 }
        requires inside { self.old.place < length self.old.round.items }
        ensures gone { IsGoneOn self.old result self.new }
    {
        let turn = self.round[self.place];
        let after = self.place + 1;
        self.place = if after < self.round.len() { after } else { 0 };
        turn
    }
}
