//! What taking a transaction files, effect by effect.
ghost use Rattle.std.specs.Prelude.{◌≡◌, ◌<◌, true, OnOk};
ghost use Rattle.ipa_logic.specs.Facts.{has};
ghost use Rattle.ipa_logic.specs.declared.facts.Fact.{Fact as TheFact};
ghost use Rattle.ipa_sets.specs.Filings.{AreFiledUpTo, HasRooms, IsRoomier, IsReadied, IsReadiedAt, AreReadied, FilesAt, FilesFirst};

use crate::filings::Filed;
use crate::keys::key_of;
use ipa_history::Tx;
use ipa_logic::{State, effect_at, fact_given};
use ipa_spec::laws::spec_is_fit;
use ipa_spec::{Effect, Spec};
use std::alloc::{AllocError, Global};

// Takes room for the transaction under the key of one of its effects, and makes the fact known that it adds.
fn ready_effect(
    spec: &Spec,
    filed: &mut Filed,
    known: &mut State,
    alloc: Global,
    tx: &Tx,
    effect: &Effect,
) -> Result<(), AllocError>
    requires { tx.now.dot.origin < 16 }
    ensures ready { OnOk result (IsReadied spec.now tx.now filed.new.lists known.new effect.now) }
    ensures roomier { IsRoomier filed.old.lists filed.new.lists }
    ensures kept { (f : TheFact) → has known.old f ≡ true → has known.new f ≡ true }
{
    filed.make_room(alloc, key_of(spec, &tx.args, effect), tx.dot.origin)?;
    if effect.add {
        known.insert(fact_given(spec, effect, &tx.args))?;
    }
    Ok(())
}

// The same for the effect at a place, if there is one.
fn ready_effect_at(
    spec: &Spec,
    filed: &mut Filed,
    known: &mut State,
    alloc: Global,
    tx: &Tx,
    place: usize,
) -> Result<(), AllocError>
    requires { tx.now.dot.origin < 16 }
    ensures ready { OnOk result (IsReadiedAt spec.now tx.now filed.new.lists known.new place) }
    ensures roomier { IsRoomier filed.old.lists filed.new.lists }
    ensures kept { (f : TheFact) → has known.old f ≡ true → has known.new f ≡ true }
{
    match effect_at(spec, tx.action, place) {
        Some(effect) => {
            ready_effect(spec, filed, known, alloc, tx, &effect)?;
            Ok(())
        }
        None => Ok(()),
    }
}

// Takes room for the transaction under the keys of all its effects, and makes the facts known that they add.
pub(crate) fn ready_effects(
    spec: &Spec,
    filed: &mut Filed,
    known: &mut State,
    alloc: Global,
    tx: &Tx,
) -> Result<(), AllocError>
    requires { tx.now.dot.origin < 16 }
    ensures ready { OnOk result (AreReadied spec.now tx.now filed.new.lists known.new 12) }
    ensures roomier { IsRoomier filed.old.lists filed.new.lists }
    ensures kept { (f : TheFact) → has known.old f ≡ true → has known.new f ≡ true }
{
    spec_is_fit(spec);
    for place in 0..12usize {
        ready_effect_at(spec, filed, known, alloc, tx, place)?;
    }
    Ok(())
}

// Files the transaction under the key of its effect at a place, if there is one. It takes no memory.
fn file_effect_at(spec: &Spec, filed: &mut Filed, tx: &Tx, place: usize)
    requires origin { tx.now.dot.origin < 16 }
    requires rising { AreFiledUpTo filed.old.lists tx.now.dot.origin tx.now.dot.number }
    requires rooms { HasRooms spec.now tx.now filed.old.lists }
    ensures { FilesAt spec.now tx.now place filed.old.lists filed.new.lists }
{
    if let Some(effect) = effect_at(spec, tx.action, place) {
        let key = key_of(spec, &tx.args, &effect);
        filed.file(&key, tx.dot.origin, tx.dot.number);
    }
}

// Files the transaction under the keys of all its effects. It takes no memory.
pub(crate) fn file_effects(spec: &Spec, filed: &mut Filed, tx: &Tx)
    requires origin { tx.now.dot.origin < 16 }
    requires rising { AreFiledUpTo filed.old.lists tx.now.dot.origin tx.now.dot.number }
    requires rooms { HasRooms spec.now tx.now filed.old.lists }
    ensures { FilesFirst spec.now tx.now 12 filed.old.lists filed.new.lists }
{
    spec_is_fit(spec);
    for place in 0..12usize {
        file_effect_at(spec, filed, tx, place);
    }
}
