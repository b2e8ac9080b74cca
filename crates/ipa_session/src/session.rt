//! The session.
ghost use Rattle.std.specs.Prelude.{◌≡◌, ◌+◌, ◌<◌, ◌≤◌, ◌⊎◌, List, [], ◌∷◌, ◌++◌, length, IsOk, OnOk, OnErr, IfOk};
ghost use Rattle.ipa_logic.specs.declared.facts.Fact.{Fact as TheFact};
ghost use Rattle.ipa_history.specs.Histories.{IsHistory};
ghost use Rattle.ipa_history.specs.declared.history.Tx.{Tx as TheTx};
ghost use Rattle.ipa_sets.specs.FactSets.{IsFactsOf, HasRoom, IsReadyFor};
ghost use Rattle.ipa_history.specs.Clocks.{IsClockOf};
ghost use Rattle.ipa_session.specs.Sessions.{IsSession, IsLawfulNext};

use crate::calm::Calm;
use ipa_clock::Cut;
use ipa_gate::Setting;
use ipa_history::{History, Tx};
use ipa_sets::Facts;
use ipa_spec::Spec;
use std::alloc::{AllocError, Global};
use std::marker::Model;

/// An origin of a setting, and the legal history that it has seen, by its type.
#[derive(Drop)]
pub struct Session {
    pub(crate) alloc: Global,
    pub(crate) setting: Setting,
    pub(crate) origin: u8,
    pub(crate) seen: History,
    // The cut with all that was seen.
    pub(crate) cut: Cut,
    // A cut of it at which the state is within the bounds.
    pub(crate) calm: Calm,
    // The facts that are true there.
    pub(crate) facts: Facts,
    // Always empty: room into which the seen history can move, where it has none for one more.
    pub(crate) room: Vec<Tx>,
    // 1 where there is room for one more transaction, else 0.
    pub(crate) spare: u32,
}

impl Model for Session {
    ghost use Rattle.std.specs.Vec.{vec_capacity};
    ghost use Rattle.ipa_session.specs.Sessions.{SessionParts};
    ghost use Rattle.ipa_session.specs.Holding.{IsHeld};

    ghost Value = { SessionParts };

    ghost view = { λ a. record { setting = a.setting; origin = a.origin; seen = a.seen; spare = a.spare } };

    ghost invariant = { λ a.
        IsHeld (record { setting = a.setting; origin = a.origin; seen = a.seen; spare = a.spare }) a.cut a.calm
        a.facts a.room.items (vec_capacity a.room) };
}

impl Session {
    /// The session of this origin that has seen nothing, which grows in the memory of `alloc`.
    pub fn new(alloc: Global, setting: Setting, origin: u8) -> Result<Session, AllocError>
        requires { origin < setting.sessions }
        ensures { IfOk result (λ session.
            session ≡ record { setting = setting; origin = origin; seen = []; spare = 0 }) }
    {
        let base = setting.base().copy()?;
        let facts = Facts::new(alloc, setting.accepted().spec(), base);
        Ok(Session {
            alloc,
            setting,
            origin,
            seen: History::new(alloc),
            cut: Cut::empty(),
            calm: Calm::first(),
            facts,
            room: Vec::new(alloc),
            spare: 0,
        })
    }

    /// What it has seen: a legal history of its setting.
    pub fn seen(&self) -> &History
        ensures seen { result.now ≡ self.now.seen }
        ensures session { IsSession self.now }
    {
        &self.seen
    }

    /// The cut with all that it has seen.
    pub fn cut(&self) -> Cut
        ensures { IsClockOf self.now.seen result }
    {
        self.cut
    }

    /// Takes room for one more transaction. It changes nothing but `spare`, which is then at least 1.
    pub fn reserve(&mut self) -> Result<(), AllocError>
        ensures spare { OnOk result (0 < self.new.spare) }
        ensures setting { self.new.setting ≡ self.old.setting }
        ensures origin { self.new.origin ≡ self.old.origin }
        ensures seen { self.new.seen ≡ self.old.seen }
        ensures ready { 0 < self.old.spare → IsOk result × (self.new.spare ≡ self.old.spare) }
        ensures err { OnErr result (self.new ≡ self.old) }
    {
        if self.spare == 0 {
            self.room.reserve(self.seen.len() as usize + 1)?;
            self.facts.reserve()?;
            self.spare = 1;
        }
        Ok(())
    }

    /// Keeps its next transaction, which is legal at its cut. With room for it, it answers `Ok` and the room is used up;
    /// want of memory leaves the session as it was.
    pub fn keep(&mut self, tx: Tx) -> Result<(), AllocError>
        requires clock { IsClockOf self.old.seen tx.cut }
        requires lawful { IsLawfulNext self.old tx.cut tx }
        requires few { length self.old.seen + 1 < 4294967295 }
        ensures seen { OnOk result (self.new.seen ≡ self.old.seen ++ tx ∷ []) }
        ensures spare { 0 < self.old.spare → IsOk result × (self.new.spare + 1 ≡ self.old.spare) }
        ensures setting { self.new.setting ≡ self.old.setting }
        ensures origin { self.new.origin ≡ self.old.origin }
        ensures err { OnErr result (self.new ≡ self.old) }
    {
        let _spare = self.spare;
        self.reserve()?;
        self.keep_within(tx);
        Ok(())
    }

    // The same where there is room.
    fn keep_within(&mut self, tx: Tx)
        requires clock { IsClockOf self.old.seen tx.cut }
        requires lawful { IsLawfulNext self.old tx.cut tx }
        requires few { length self.old.seen + 1 < 4294967295 }
        requires room { 0 < self.old.spare }
        ensures seen { self.new.seen ≡ self.old.seen ++ tx ∷ [] }
        ensures spare { self.new.spare ≡ 0 }
        ensures setting { self.new.setting ≡ self.old.setting }
        ensures origin { self.new.origin ≡ self.old.origin }
    {
        self.spare = 0;
        take_in(&mut self.facts, self.setting.accepted().spec(), &tx);
        self.seen.push_within(tx, &mut self.room);
        self.cut = self.cut.raised(tx.dot);
        let whole = Calm {
            cut: self.cut,
            count: self.seen.len(),
        };
        self.calm = self.calm.next(tx.action, whole);
    }
}

// Takes the transaction into the facts, which have room for it, or are ready for it. They stay ready for others.
pub(crate) fn take_in(facts: &mut Facts, spec: &Spec, tx: &Tx)
    requires { HasRoom 1 facts.old ⊎ IsReadyFor spec.now tx.now facts.old }
    ensures taken { (base : List TheFact) (taken : List TheTx) → IsFactsOf spec.now base taken facts.old →
        IsHistory (taken ++ tx.now ∷ []) → IsFactsOf spec.now base (taken ++ tx.now ∷ []) facts.new }
    ensures kept { (u : TheTx) → IsReadyFor spec.now u facts.old → IsReadyFor spec.now u facts.new }
{
    match facts.take(spec, tx) {
        Ok(()) => (),
        Err(_) => (),
    }
}
