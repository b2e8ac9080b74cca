//! Offers: which transactions a log takes, and the first reason why it refuses one.
//!
//! An offer is judged by the entries alone, without memory, and only then the index grows. The state before is that
//! at the transaction's own cut, as the index shows it; it keeps all clauses, so that only touched instances are
//! tested, and it mostly is known to be within the bounds by the last operation of the origin, so that only the groups
//! of few facts are counted. A drop that is due there is legal, and no clause is tested for it.
ghost use Rattle.std.specs.Prelude.{◌≡◌, ◌↔◌, ◌<◌, ℕ, [], ◌∷◌, ◌++◌, None, Some, Err, IsTrue, IfOk, IfErr, OnOk, OnErr, MatchOption};
ghost use Rattle.ipa_logic.specs.declared.facts.Broken.{Broken as TheBroken};
ghost use Rattle.ipa_history.specs.Histories.{IsNamedIn};
ghost use Rattle.ipa_history.specs.Legality.{IsLegal, IsIllegal};
ghost use Rattle.ipa_sets.specs.Indexes.{IsIndexOf, IsReadyFor};
ghost use Rattle.ipa_gate.specs.Logs.{IsLog};
ghost use Rattle.ipa_gate.specs.Verdicts.{IsAtCut};
ghost use Rattle.ipa_gate.specs.Offers.{IsFresh, IsNextIn, IsLegalIfNext, IsAdmitted, entries_after, IsTakenAs, IsOfferFault};

use crate::answers::{OfferFault, Taken};
use crate::calm::is_known_calm;
use crate::cuts::{first_gap, open_member};
use crate::entries::{clock_of, entry_named, is_same};
use crate::log::Log;
use crate::setting::Setting;
use crate::shapes::is_shaped;
use crate::verdicts::{reason_at, reason_within};
use ipa_history::{Reason, Tx};
use ipa_logic::{State, Universe};
use ipa_sets::Index;
use ipa_spec::laws::spec_is_fit;
use ipa_spec::{Action, Spec};
use std::alloc::AllocError;

impl Log {
    /// Takes the transaction: appends it where it is new, and leaves the entries as they were where it is one of
    /// them. Else it is refused, by the first fault that holds, and the entries are as they were.
    pub fn offer(&mut self, tx: Tx) -> Result<Taken, OfferFault>
        ensures taken { IfOk result (IsTakenAs self.old.setting self.old.entries tx) }
        ensures entries { IfOk result (λ taken. self.new.entries ≡ entries_after self.old.entries tx taken) }
        ensures refused { IfErr result (IsOfferFault self.old.setting self.old.entries tx) }
        ensures unchanged { OnErr result (self.new.entries ≡ self.old.entries) }
        ensures setting { self.new.setting ≡ self.old.setting }
        ensures ready { self.new.ready ≡ None }

        // The transaction that the log is ready for takes no memory.
        ensures memory { self.old.ready ≡ Some tx → result ≡ Err OfferFault.NoMemory → ⊥ }

        // A drop never breaks a clause.
        ensures drops { (n : ℕ) (broken : TheBroken) → tx.action ≡ Action.Drop n →
            result ≡ Err (OfferFault.Illegal (Reason.Clause broken)) → ⊥ }
    {
        self.take(tx, false)
    }

    /// The same for a transaction that is known to be legal where it comes next, so that it is not judged.
    pub fn admit(&mut self, tx: Tx) -> Result<Taken, OfferFault>
        requires legal { IsLegalIfNext self.old.setting self.old.entries tx }
        ensures taken { IfOk result (IsTakenAs self.old.setting self.old.entries tx) }
        ensures entries { IfOk result (λ taken. self.new.entries ≡ entries_after self.old.entries tx taken) }
        ensures refused { IfErr result (IsOfferFault self.old.setting self.old.entries tx) }
        ensures unchanged { OnErr result (self.new.entries ≡ self.old.entries) }
        ensures setting { self.new.setting ≡ self.old.setting }
        ensures ready { self.new.ready ≡ None }

        // The transaction that the log is ready for takes no memory.
        ensures memory { self.old.ready ≡ Some tx → result ≡ Err OfferFault.NoMemory → ⊥ }

        // A drop never breaks a clause.
        ensures drops { (n : ℕ) (broken : TheBroken) → tx.action ≡ Action.Drop n →
            result ≡ Err (OfferFault.Illegal (Reason.Clause broken)) → ⊥ }
    {
        self.take(tx, true)
    }

    // The same, where the flag says whether it is known to be legal.
    fn take(&mut self, tx: Tx, is_legal: bool) -> Result<Taken, OfferFault>
        requires legal { IsTrue is_legal → IsLegalIfNext self.old.setting self.old.entries tx }
        ensures taken { IfOk result (IsTakenAs self.old.setting self.old.entries tx) }
        ensures entries { IfOk result (λ taken. self.new.entries ≡ entries_after self.old.entries tx taken) }
        ensures refused { IfErr result (IsOfferFault self.old.setting self.old.entries tx) }
        ensures unchanged { OnErr result (self.new.entries ≡ self.old.entries) }
        ensures setting { self.new.setting ≡ self.old.setting }
        ensures ready { self.new.ready ≡ None }

        // The transaction that the log is ready for takes no memory.
        ensures memory { self.old.ready ≡ Some tx → result ≡ Err OfferFault.NoMemory → ⊥ }

        // A drop never breaks a clause.
        ensures drops { (n : ℕ) (broken : TheBroken) → tx.action ≡ Action.Drop n →
            result ≡ Err (OfferFault.Illegal (Reason.Clause broken)) → ⊥ }
    {
        let was_ready = is_ready(&self.ready, &tx);
        self.ready = None;
        drop_never_breaks(&self.setting, &self.index, &tx);
        match judged(&self.setting, &self.index, &tx, is_legal) {
            Ok(Taken::New) => {
                if was_ready {
                    put(&self.setting, &mut self.index, &tx);
                } else {
                    append(&self.setting, &mut self.index, &tx)?;
                }
                Ok(Taken::New)
            }
            Ok(Taken::Known) => Ok(Taken::Known),
            Err(fault) => Err(fault),
        }
    }

    /// What an offer of the transaction would be answered. The entries stay as they are. After `Ok` the log is ready
    /// for it, until the log is offered or tested for a transaction again; after `Err` it is ready for none.
    pub fn test(&mut self, tx: &Tx) -> Result<Taken, OfferFault>
        ensures taken { IfOk result (IsTakenAs self.old.setting self.old.entries tx.now) }
        ensures refused { IfErr result (IsOfferFault self.old.setting self.old.entries tx.now) }
        ensures entries { self.new.entries ≡ self.old.entries }
        ensures setting { self.new.setting ≡ self.old.setting }
        ensures ready { OnOk result (self.new.ready ≡ Some tx.now) }
        ensures spent { OnErr result (self.new.ready ≡ None) }
        ensures drops { (n : ℕ) (broken : TheBroken) → tx.now.action ≡ Action.Drop n →
            result ≡ Err (OfferFault.Illegal (Reason.Clause broken)) → ⊥ }
    {
        self.ready = None;
        drop_never_breaks(&self.setting, &self.index, tx);
        match judged(&self.setting, &self.index, tx, false) {
            Ok(Taken::New) => {
                prepare(&self.setting, &mut self.index, tx)?;
                self.ready = Some(*tx);
                Ok(Taken::New)
            }
            Ok(Taken::Known) => {
                self.ready = Some(*tx);
                Ok(Taken::Known)
            }
            Err(fault) => Err(fault),
        }
    }
}

// No fault is that a drop breaks a clause. It computes nothing.
fn drop_never_breaks(setting: &Setting, index: &Index, tx: &Tx)
    requires { IsLog setting.now index.now.entries }
    ensures { (n : ℕ) (broken : TheBroken) → tx.now.action ≡ Action.Drop n →
        IsOfferFault setting.now index.now.entries tx.now (OfferFault.Illegal (Reason.Clause broken)) → ⊥ }
{
    spec_is_fit(setting.accepted().spec());
}

// Appends a transaction that is admitted.
fn append(setting: &Setting, index: &mut Index, tx: &Tx) -> Result<(), AllocError>
    requires log { IsLog setting.now index.old.entries }
    requires indexed { IsIndexOf setting.now.spec index.old }
    requires admitted { IsAdmitted setting.now index.old.entries tx.now }
    ensures ok { OnOk result (index.new.entries ≡ index.old.entries ++ tx.now ∷ []) }
    ensures err { OnErr result (index.new.entries ≡ index.old.entries) }
    ensures indexed { IsIndexOf setting.now.spec index.new }
    ensures log { IsLog setting.now index.new.entries }
{
    index.take(setting.accepted().spec(), tx)?;
    Ok(())
}

// Appends a transaction that is admitted and that there is room for.
fn put(setting: &Setting, index: &mut Index, tx: &Tx)
    requires log { IsLog setting.now index.old.entries }
    requires indexed { IsIndexOf setting.now.spec index.old }
    requires admitted { IsAdmitted setting.now index.old.entries tx.now }
    requires ready { IsReadyFor setting.now.spec tx.now index.old }
    ensures entries { index.new.entries ≡ index.old.entries ++ tx.now ∷ [] }
    ensures indexed { IsIndexOf setting.now.spec index.new }
    ensures log { IsLog setting.now index.new.entries }
{
    index.put(setting.accepted().spec(), tx);
}

// Whether it is the transaction that the log is ready for.
fn is_ready(ready: &Option<Tx>, tx: &Tx) -> bool
    ensures { IsTrue result ↔ (ready.now ≡ Some tx.now) }
{
    match ready {
        Some(one) => is_same(one, tx),
        None => false,
    }
}

// Takes the room that a transaction needs that is admitted.
fn prepare(setting: &Setting, index: &mut Index, tx: &Tx) -> Result<(), AllocError>
    requires indexed { IsIndexOf setting.now.spec index.old }
    requires admitted { IsAdmitted setting.now index.old.entries tx.now }
    ensures entries { index.new.entries ≡ index.old.entries }
    ensures indexed { IsIndexOf setting.now.spec index.new }
    ensures ready { OnOk result (IsReadyFor setting.now.spec tx.now index.new) }
{
    index.prepare(setting.accepted().spec(), tx)?;
    Ok(())
}

// What the offer of the transaction is answered, as far as memory allows. It is not judged where the flag says that it
// is legal.
fn judged(setting: &Setting, index: &Index, tx: &Tx, is_legal: bool) -> Result<Taken, OfferFault>
    requires log { IsLog setting.now index.now.entries }
    requires indexed { IsIndexOf setting.now.spec index.now }
    requires legal { IsTrue is_legal → IsLegalIfNext setting.now index.now.entries tx.now }
    ensures taken { IfOk result (IsTakenAs setting.now index.now.entries tx.now) }
    ensures refused { IfErr result (IsOfferFault setting.now index.now.entries tx.now) }
    ensures memory { result ≡ Err OfferFault.NoMemory → ⊥ }
{
    if let Some(here) = entry_named(setting, index, tx.dot) {
        return judged_named(setting, index, here, tx);
    }
    if !is_shaped(setting, tx) {
        return Err(OfferFault::Shape);
    }
    judged_fresh(setting, index, tx, is_legal)
}

// The same where this entry has its dot.
fn judged_named(setting: &Setting, index: &Index, here: &Tx, tx: &Tx) -> Result<Taken, OfferFault>
    requires log { IsLog setting.now index.now.entries }
    requires named { IsNamedIn index.now.entries tx.now.dot here.now }
    ensures taken { IfOk result (IsTakenAs setting.now index.now.entries tx.now) }
    ensures refused { IfErr result (IsOfferFault setting.now index.now.entries tx.now) }
    ensures memory { result ≡ Err OfferFault.NoMemory → ⊥ }
{
    if is_same(here, tx) {
        return Ok(Taken::Known);
    }
    if !is_shaped(setting, tx) {
        return Err(OfferFault::Shape);
    }
    Err(OfferFault::Differs {
        here: *here,
        there: *tx,
    })
}

// The same where it has the right shape and no entry has its dot.
fn judged_fresh(
    setting: &Setting,
    index: &Index,
    tx: &Tx,
    is_legal: bool,
) -> Result<Taken, OfferFault>
    requires log { IsLog setting.now index.now.entries }
    requires indexed { IsIndexOf setting.now.spec index.now }
    requires fresh { IsFresh setting.now index.now.entries tx.now }
    requires legal { IsTrue is_legal → IsLegalIfNext setting.now index.now.entries tx.now }
    ensures taken { IfOk result (IsTakenAs setting.now index.now.entries tx.now) }
    ensures refused { IfErr result (IsOfferFault setting.now index.now.entries tx.now) }
    ensures memory { result ≡ Err OfferFault.NoMemory → ⊥ }
{
    let _accepted = setting.accepted();
    let clock = clock_of(setting, index);
    if let Some(origin) = first_gap(&clock, &tx.cut) {
        return Err(OfferFault::Gap {
            origin,
            have: clock.counts[origin as usize],
            need: tx.cut.counts[origin as usize],
        });
    }
    if let Some(open) = open_member(setting, index, &tx.cut) {
        return Err(OfferFault::OpenCut { member: open.dot });
    }
    judged_next(setting, index, tx, is_legal)
}

// The same where its cut is closed too.
fn judged_next(
    setting: &Setting,
    index: &Index,
    tx: &Tx,
    is_legal: bool,
) -> Result<Taken, OfferFault>
    requires log { IsLog setting.now index.now.entries }
    requires indexed { IsIndexOf setting.now.spec index.now }
    requires next { IsNextIn setting.now index.now.entries tx.now }
    requires legal { IsTrue is_legal → IsLegalIfNext setting.now index.now.entries tx.now }
    ensures taken { IfOk result (IsTakenAs setting.now index.now.entries tx.now) }
    ensures refused { IfErr result (IsOfferFault setting.now index.now.entries tx.now) }
    ensures memory { result ≡ Err OfferFault.NoMemory → ⊥ }
{
    if index.history().len() >= 65536 {
        return Err(OfferFault::Full);
    }
    if is_legal {
        return Ok(Taken::New);
    }
    match reason_at_cut(setting, index, tx) {
        None => Ok(Taken::New),
        Some(reason) => Err(OfferFault::Illegal(reason)),
    }
}

// The first reason why it is not legal at its cut, or `None` where it is.
fn reason_at_cut(setting: &Setting, index: &Index, tx: &Tx) -> Option<Reason>
    requires log { IsLog setting.now index.now.entries }
    requires indexed { IsIndexOf setting.now.spec index.now }
    requires next { IsNextIn setting.now index.now.entries tx.now }
    ensures { MatchOption result
        (IsLegal setting.now.spec setting.now.universe setting.now.base index.now.entries tx.now)
        (IsIllegal setting.now.spec setting.now.universe setting.now.base index.now.entries tx.now) }
{
    let spec = setting.accepted().spec();
    spec_is_fit(spec);
    reason_between(spec, setting.universe(), setting.base(), index, tx)
}

// The same, by the specification, the universe and the base alone.
fn reason_between(
    spec: &Spec,
    universe: &Universe,
    base: &State,
    index: &Index,
    tx: &Tx,
) -> Option<Reason>
    requires indexed { IsIndexOf spec.now index.now }
    requires at { IsAtCut spec.now universe.now.sizes base.now index.now.entries tx.now }
    requires origin { tx.now.dot.origin < 16 }
    ensures { MatchOption result (IsLegal spec.now universe.now.sizes base.now index.now.entries tx.now)
        (IsIllegal spec.now universe.now.sizes base.now index.now.entries tx.now) }
{
    let view = index.at(base, &tx.cut);
    if let Action::Op(_) = tx.action {
        if is_known_calm(spec, universe, base, index, &view, &tx.cut, tx.dot.origin) {
            return reason_within(spec, universe, base, index.history(), &view, tx);
        }
    }
    reason_at(spec, universe, base, index.history(), &view, tx)
}
