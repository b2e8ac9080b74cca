//! The steps that a world takes.
ghost use Rattle.std.specs.Prelude.{◌≡◌, ℕ, ◌<◌, List as Items, length, slice_get, slice_set, Some, Err, OnOk, OnErr};
ghost use Rattle.ipa_clock.specs.Cut.{joined};
ghost use Rattle.ipa_clock.specs.declared.cut.Cut.{Cut as TheCut};

use crate::giving::give;
use crate::steps::{Step, WorldFault};
use crate::world::World;
use ipa_clock::Cut;
use ipa_gate::Log;
use ipa_history::Tx;

impl World {
    ghost use Rattle.ipa_world.specs.Steps.{IsStep, IsStepOf, IsPulled, IsAct, IsGiven, IsDelivered, IsHeard, IsDeliverable, IsHearable};
    ghost use Rattle.ipa_world.specs.Room.{IsFull, IsActFull, IsGiveFull, IsDeliverFull};
    ghost use Rattle.ipa_world.specs.Lawful.{IsEntry};

    /// Takes the step. Where a log without room is due an entry, or memory is wanting, nothing changes.
    pub fn step(&mut self, step: &Step) -> Result<(), WorldFault>
        requires { IsStepOf self.old step.now }
        ensures stepped { OnOk result (IsStep self.old step.now self.new) }

        // It finds no room exactly where the step is due an entry in a log that has none.
        ensures full { result ≡ Err WorldFault.Full → IsFull self.old step.now }
        ensures room { OnOk result (IsFull self.old step.now → ⊥) }
        ensures unchanged { OnErr result (self.new ≡ self.old) }
        ensures setting { self.new.setting ≡ self.old.setting }
    {
        match step {
            Step::Pull { session } => self.pull(*session),
            Step::Act { session } => self.act(*session),
            Step::Deliver { from, to, place } => self.deliver(*from, *to, *place),
            Step::Heard { from, to, clock } => {
                self.hear(*from, *to, clock);
                Ok(())
            }
        }
    }

    // A session sees what its replica's log has beyond it.
    fn pull(&mut self, session: u8) -> Result<(), WorldFault>
        requires { session < length self.old.seats }
        ensures stepped { OnOk result (IsPulled self.old session self.new) }
        ensures full { result ≡ Err WorldFault.Full → ⊥ }
        ensures unchanged { OnErr result (self.new ≡ self.old) }
        ensures setting { self.new.setting ≡ self.old.setting }
    {
        let seat = &mut self.seats[session as usize];
        let _cut = seat.session.cut();
        let log = &self.logs[seat.replica as usize];
        seat.pull(log)
    }

    // A session acts.
    fn act(&mut self, session: u8) -> Result<(), WorldFault>
        requires { session < length self.old.seats }
        ensures stepped { OnOk result (IsAct self.old session self.new) }
        ensures full { result ≡ Err WorldFault.Full → IsActFull self.old session }
        ensures room { OnOk result (IsActFull self.old session → ⊥) }
        ensures unchanged { OnErr result (self.new ≡ self.old) }
        ensures setting { self.new.setting ≡ self.old.setting }
    {
        let seat = &mut self.seats[session as usize];
        let _cut = seat.session.cut();
        let log = &mut self.logs[seat.replica as usize];
        let acted = seat.act(log, self.alloc);
        let _entries = log.entries();
        acted
    }

    // An entry of one log is given to another replica.
    fn deliver(&mut self, from: u8, to: u8, place: u32) -> Result<(), WorldFault>
        requires { IsDeliverable self.old from to place }
        ensures stepped { OnOk result (IsDelivered self.old from to place self.new) }
        ensures full { result ≡ Err WorldFault.Full → IsDeliverFull self.old from to place }
        ensures room { OnOk result (IsDeliverFull self.old from to place → ⊥) }
        ensures unchanged { OnErr result (self.new ≡ self.old) }
        ensures setting { self.new.setting ≡ self.old.setting }
    {
        let tx = entry_at(self.log(from), place);
        self.give_to(to, tx)
    }

    // A replica is given an entry of some log.
    pub(crate) fn give_to(&mut self, to: u8, tx: Tx) -> Result<(), WorldFault>
        requires entry { IsEntry self.old tx }
        requires receives { to < length self.old.logs }
        ensures given { OnOk result (IsGiven self.old to tx self.new) }
        ensures full { result ≡ Err WorldFault.Full → IsGiveFull self.old to tx }
        ensures room { OnOk result (IsGiveFull self.old to tx → ⊥) }
        ensures unchanged { OnErr result (self.new ≡ self.old) }
        ensures setting { self.new.setting ≡ self.old.setting }
    {
        let log = &mut self.logs[to as usize];
        let given = give(log, tx);
        let _entries = log.entries();
        given
    }

    // The sender of a link hears what the receiver has.
    fn hear(&mut self, from: u8, to: u8, clock: &Cut)
        requires { IsHearable self.old from to clock.now }
        ensures stepped { IsHeard self.old from to clock.now self.new }
        ensures setting { self.new.setting ≡ self.old.setting }
    {
        let link = 8 * from as usize + to as usize;
        let sender = &mut self.senders[link];
        sender.heard(clock);
        let known = sender.peer_has();
        let log = &self.logs[from as usize];
        self.covered[link] = log.covered_to(&known, self.covered[link]);
    }
}

// The entry in this place.
fn entry_at(log: &Log, place: u32) -> Tx
    requires { place < length log.now.entries }
    ensures { slice_get log.now.entries place ≡ Some result }
{
    log.entries().as_slice()[place as usize]
}
