//! Numbers filed under keys, for each origin.
ghost use Rattle.std.specs.Prelude.{◌≡◌, ◌<◌, ℕ, true, false, None, slice_index_or, IfOk, OnOk, IsSome};
ghost use Rattle.std.specs.BTreeMap.{get};
ghost use Rattle.ipa_clock.specs.Cut.{count_of};
ghost use Rattle.ipa_sets.specs.ShapeLaws.{AreMet-prop};
ghost use Rattle.ipa_sets.specs.Filings.{is_known, IsWithKey, filed_in, is_room_in, HasRoomFor, IsRoomier, IsFiledAt};
ghost use Rattle.ipa_sets.specs.Keys.{key_cmp};
ghost use Rattle.ipa_sets.specs.Numbers.{greater, greatest_upto, AreUpTo};
ghost use Rattle.ipa_sets.specs.Shapes.{AreMet};
ghost use Rattle.ipa_sets.specs.declared.keys.Key.{Key as TheKey};

use crate::by_origin::ByOrigin;
use crate::keys::Key;
use crate::shapes::Shapes;
use ipa_clock::Cut;
use std::alloc::{AllocError, Global};
use std::collections::BTreeMap;

/// Numbers filed under keys, for each origin.
#[derive(Drop)]
pub struct Filed {
    lists: BTreeMap<Key, ByOrigin>,
    // The shapes of the removes that are known, so that most keys need not be looked up.
    removes: Shapes,
    ghost met: { AreMet (is_known lists) removes } by { AreMet-prop (is_known lists) removes },
}

impl Filed {
    /// No numbers, and no key is known.
    pub fn new(alloc: Global) -> Filed
        ensures { (k : TheKey) → get key_cmp result.lists k ≡ None }
    {
        Filed {
            lists: BTreeMap::new(alloc),
            removes: Shapes::new(),
        }
    }

    /// Makes each number the greater one, of it and of the greatest of its origin within the cut that is filed under the
    /// key.
    pub fn raise(&self, key: &Key, cut: &Cut, found: &mut [Option<u32>; 16])
        ensures { (o : ℕ) → o < 16 → slice_index_or found.new o None
            ≡ greater (slice_index_or found.old o None) (greatest_upto (count_of cut.now o) (filed_in self.now.lists key.now o)) }
    {
        if self.removes.may_have(key) {
            if let Some(lists) = self.lists.get(key) {
                lists.raise(cut, found);
            }
        }
    }

    /// Takes room for one more number of the origin under a key. No number is filed, also where memory is wanting.
    pub fn make_room(&mut self, alloc: Global, key: Key, origin: u8) -> Result<(), AllocError>
        requires { origin < 16 }
        ensures roomier { IsRoomier self.old.lists self.new.lists }
        ensures room { OnOk result (is_room_in self.new.lists key origin ≡ true) }
    {
        self.removes.meet(&key);
        make_room(&mut self.lists, alloc, key, origin)
    }

    /// Files a number of the origin under a key that has room for it, unless it is filed there.
    pub fn file(&mut self, key: &Key, origin: u8, number: u32)
        requires origin { origin < 16 }
        requires rising { AreUpTo (filed_in self.old.lists key.now origin) number }
        requires room { HasRoomFor self.old.lists key.now origin number }
        ensures { IsFiledAt key.now origin number self.old.lists self.new.lists }
    {
        file(&mut self.lists, key, origin, number);
    }
}

// Takes room for one more number of the origin under the key, if it is known, and answers whether it is. No number is
// filed.
fn widen(lists: &mut BTreeMap<Key, ByOrigin>, key: &Key, origin: u8) -> Result<bool, AllocError>
    requires { origin < 16 }
    ensures roomier { IsRoomier lists.old lists.new }
    ensures room { IfOk result (λ known. known ≡ true → is_room_in lists.new key.now origin ≡ true) }
    ensures absent { IfOk result (λ known. known ≡ false → get key_cmp lists.new key.now ≡ None) }
    ensures keys { IsWithKey lists.old lists.new key.now }
{
    match lists.get_mut(key) {
        Some(numbers) => {
            numbers.reserve(origin)?;
            Ok(true)
        }
        None => Ok(false),
    }
}

// Makes a key known, with room for one number of the origin. No number is filed.
fn know(
    lists: &mut BTreeMap<Key, ByOrigin>,
    alloc: Global,
    key: Key,
    origin: u8,
) -> Result<(), AllocError>
    requires origin { origin < 16 }
    requires absent { get key_cmp lists.old key ≡ None }
    ensures roomier { IsRoomier lists.old lists.new }
    ensures room { OnOk result (is_room_in lists.new key origin ≡ true) }
    ensures keys { IsWithKey lists.old lists.new key }
{
    let mut numbers = ByOrigin::new(alloc);
    numbers.reserve(origin)?;
    lists.insert(key, numbers)?;
    Ok(())
}

// Takes room for one more number of the origin under a key. No number is filed, also where memory is wanting.
fn make_room(
    lists: &mut BTreeMap<Key, ByOrigin>,
    alloc: Global,
    key: Key,
    origin: u8,
) -> Result<(), AllocError>
    requires { origin < 16 }
    ensures roomier { IsRoomier lists.old lists.new }
    ensures room { OnOk result (is_room_in lists.new key origin ≡ true) }
    ensures keys { IsWithKey lists.old lists.new key }
{
    if widen(lists, &key, origin)? {
        return Ok(());
    }
    know(lists, alloc, key, origin)?;
    Ok(())
}

// Files a number of the origin under a key that has room for it, unless it is filed there.
fn file(lists: &mut BTreeMap<Key, ByOrigin>, key: &Key, origin: u8, number: u32)
    requires origin { origin < 16 }
    requires rising { AreUpTo (filed_in lists.old key.now origin) number }
    requires room { HasRoomFor lists.old key.now origin number }
    ensures filed { IsFiledAt key.now origin number lists.old lists.new }
    ensures keys { (k : TheKey) → is_known lists.new k ≡ true → is_known lists.old k ≡ true }
{
    if let Some(numbers) = lists.get_mut(key) {
        let _ = numbers.append(origin, number);
    }
}
