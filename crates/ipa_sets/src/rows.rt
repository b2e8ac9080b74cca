//! Rows: for each origin the last transaction of some that pass a test. A table has one for each key of an effect.
ghost use Rattle.std.specs.Prelude.{◌≡◌, ◌+◌, ◌<◌, ◌≤◌, ℕ, true, false, cond, Some, None, slice_get, is_some, length, IsOk, OnOk, OnErr};
ghost use Rattle.std.specs.Option.{option_copied, option_map_or};
ghost use Rattle.std.specs.Ordering.{is_eq};
ghost use Rattle.ipa_spec.specs.Actions.{effects_of};
ghost use Rattle.ipa_sets.specs.Keys.{key_cmp, key_eq, key_of, add_key, has_key};
ghost use Rattle.ipa_sets.specs.Lasts.{tx_at};
ghost use Rattle.ipa_sets.specs.Rows.{no_row, spare, row_at, has_row, row_in, last_from, lasts_of_rows, lasts_in, later_last, raised, put_in};
ghost use Rattle.ipa_sets.specs.declared.keys.Key.{Key as TheKey};

use crate::keys::{Key, add_key, key_of, remove_keys};
use crate::lasts::Last;
use crate::shapes::Shapes;
use ipa_history::Tx;
use ipa_logic::{Fact, effect_at};
use ipa_spec::Spec;
use ipa_spec::laws::spec_is_fit;
use std::alloc::{AllocError, Global};
use std::collections::HashMap;
use std::marker::Model;

/// A table of rows by key. A look for a remove whose shape has no row costs no hash.
#[derive(Drop)]
pub struct Rows {
    // The rows.
    table: HashMap<Key, [Option<Tx>; 16]>,
    // The shapes of the patterns of the removes that have a row, and maybe others.
    shapes: Shapes,
}

impl Model for Rows {
    ghost use Rattle.ipa_sets.specs.Rows.{RowTable, row_table, has_row};
    ghost use Rattle.ipa_sets.specs.Shapes.{AreMet};

    ghost Value = { RowTable };

    ghost view = { λ a. row_table a.table };

    ghost invariant = { λ a. AreMet (has_row (row_table a.table)) a.shapes };
}

impl Rows {
    /// No rows, which grow in the memory of `alloc`.
    pub fn new(alloc: Global) -> Rows
        ensures { (k : TheKey) → row_at result k ≡ None }
    {
        Rows {
            table: HashMap::new(alloc),
            shapes: Shapes::new(),
        }
    }

    /// Takes room for more rows. Each stays as it is, also where memory is wanting.
    pub fn reserve(&mut self, more: usize) -> Result<(), AllocError>
        ensures same { (k : TheKey) → row_at self.new k ≡ row_at self.old k }
        ensures room { OnOk result (more ≤ spare self.new) }
        ensures ready { more ≤ spare self.old → IsOk result }
        ensures spare { spare self.old ≤ spare self.new }
    {
        self.table.reserve(more)?;
        Ok(())
    }

    // The row of a key, if there is one.
    fn get(&self, key: &Key) -> Option<&[Option<Tx>; 16]>
        ensures { option_copied result ≡ row_at self.now key.now }
    {
        if self.shapes.may_have(key) {
            self.table.get(key)
        } else {
            None
        }
    }

    // Whether there is a row for a key.
    fn has(&self, key: &Key) -> bool
        ensures { result ≡ has_row self.now key.now }
    {
        self.get(key).is_some()
    }

    // The row of a key.
    fn row_in(&self, key: &Key) -> [Option<Tx>; 16]
        ensures { result ≡ row_in self.now key.now }
    {
        match self.get(key) {
            Some(row) => *row,
            None => [None; 16],
        }
    }

    // Puts a row under a key. Want of memory leaves each row as it was, and there is none where the key has one.
    fn insert(&mut self, key: Key, row: [Option<Tx>; 16]) -> Result<(), AllocError>
        ensures updates { OnOk result ((k : TheKey) →
            row_at self.new k ≡ cond (key_eq key k) (Some row) (row_at self.old k)) }
        ensures refused { OnErr result ((k : TheKey) → row_at self.new k ≡ row_at self.old k) }
        ensures absent { OnErr result (row_at self.old key ≡ None) }
        ensures room { 0 < spare self.old → IsOk result }
        ensures spare { spare self.old ≤ spare self.new + 1 }
    {
        self.shapes.meet(&key);
        self.table.insert(key, row)?;
        Ok(())
    }

    // Makes a row for a key, unless it has one. Each row stays as it is, also where memory is wanting.
    fn make_row(&mut self, key: Key) -> Result<(), AllocError>
        ensures made { OnOk result ((k : TheKey) → key_eq key k ≡ true → has_row self.new k ≡ true) }
        ensures same { (k : TheKey) → row_in self.new k ≡ row_in self.old k }
        ensures kept { (k : TheKey) → has_row self.old k ≡ true → has_row self.new k ≡ true }
        ensures room { 0 < spare self.old → IsOk result }
        ensures ready { has_row self.old key ≡ true → IsOk result }
        ensures spare { spare self.old ≤ spare self.new + 1 }
    {
        if self.has(&key) {
            return Ok(());
        }
        self.insert(key, [None; 16])?;
        Ok(())
    }

    // Makes a row for the key of the transaction's effect at a place, if it has one there.
    fn make_row_at(&mut self, spec: &Spec, tx: &Tx, place: usize) -> Result<(), AllocError>
        ensures made { OnOk result ((k : TheKey) →
            option_map_or (λ e. is_eq (key_cmp (key_of spec.now tx.now.args e) k))
            (slice_get (effects_of spec.now tx.now.action) place) false ≡ true → has_row self.new k ≡ true) }
        ensures same { (k : TheKey) → row_in self.new k ≡ row_in self.old k }
        ensures kept { (k : TheKey) → has_row self.old k ≡ true → has_row self.new k ≡ true }
        ensures room { 0 < spare self.old → IsOk result }
        ensures ready { ((k : TheKey) → option_map_or (λ e. is_eq (key_cmp (key_of spec.now tx.now.args e) k))
            (slice_get (effects_of spec.now tx.now.action) place) false ≡ true → has_row self.old k ≡ true) → IsOk result }
        ensures spare { spare self.old ≤ spare self.new + 1 }
    {
        match effect_at(spec, tx.action, place) {
            Some(effect) => {
                self.make_row(key_of(spec, &tx.args, &effect))?;
                Ok(())
            }
            None => Ok(()),
        }
    }

    /// Makes a row for each key of the transaction's effects. Each row stays as it is, also where memory is wanting.
    pub fn make_rows(&mut self, spec: &Spec, tx: &Tx) -> Result<(), AllocError>
        ensures made { OnOk result ((k : TheKey) → has_key spec.now k tx.now ≡ true → has_row self.new k ≡ true) }
        ensures same { (k : TheKey) → row_in self.new k ≡ row_in self.old k }
        ensures kept { (k : TheKey) → has_row self.old k ≡ true → has_row self.new k ≡ true }
        ensures room { 12 ≤ spare self.old → IsOk result }
        ensures ready { ((k : TheKey) → has_key spec.now k tx.now ≡ true → has_row self.old k ≡ true) → IsOk result }
        ensures spare { spare self.old ≤ spare self.new + 12 }
    {
        spec_is_fit(spec);
        for place in 0..12usize {
            self.make_row_at(spec, tx, place)?;
        }
        Ok(())
    }

    // Puts the transaction into the row of a key. Only want of memory is refused, and only where the key has no row.
    fn put(&mut self, key: Key, tx: &Tx) -> Result<(), AllocError>
        requires { tx.now.dot.origin < 16 }
        ensures rows { OnOk result ((k : TheKey) (o : ℕ) → tx_at (row_in self.new k) o
            ≡ put_in (key_eq key k) tx.now (row_in self.old k) o) }
        ensures kept { (k : TheKey) → has_row self.old k ≡ true → has_row self.new k ≡ true }
        ensures room { 0 < spare self.old → IsOk result }
        ensures ready { has_row self.old key ≡ true → IsOk result }
        ensures spare { spare self.old ≤ spare self.new + 1 }
    {
        let row = with_tx(&self.row_in(&key), tx);
        self.insert(key, row)?;
        Ok(())
    }

    // Puts the transaction into the row of the key of its effect at a place, if it has one there.
    fn put_effect(&mut self, spec: &Spec, tx: &Tx, place: usize) -> Result<(), AllocError>
        requires { tx.now.dot.origin < 16 }
        ensures rows { OnOk result ((k : TheKey) (o : ℕ) → tx_at (row_in self.new k) o
            ≡ put_in (option_map_or (λ e. is_eq (key_cmp (key_of spec.now tx.now.args e) k))
            (slice_get (effects_of spec.now tx.now.action) place) false) tx.now (row_in self.old k) o) }
        ensures kept { (k : TheKey) → has_row self.old k ≡ true → has_row self.new k ≡ true }
        ensures room { 0 < spare self.old → IsOk result }
        ensures ready { ((k : TheKey) → option_map_or (λ e. is_eq (key_cmp (key_of spec.now tx.now.args e) k))
            (slice_get (effects_of spec.now tx.now.action) place) false ≡ true → has_row self.old k ≡ true) → IsOk result }
        ensures spare { spare self.old ≤ spare self.new + 1 }
    {
        match effect_at(spec, tx.action, place) {
            Some(effect) => {
                self.put(key_of(spec, &tx.args, &effect), tx)?;
                Ok(())
            }
            None => Ok(()),
        }
    }

    /// Puts the transaction into the rows of its effects' keys. Only want of memory is refused, and only where a key
    /// has no row.
    pub fn put_effects(&mut self, spec: &Spec, tx: &Tx) -> Result<(), AllocError>
        requires { tx.now.dot.origin < 16 }
        ensures rows { OnOk result ((k : TheKey) (o : ℕ) → tx_at (row_in self.new k) o
            ≡ put_in (has_key spec.now k tx.now) tx.now (row_in self.old k) o) }
        ensures kept { (k : TheKey) → has_row self.old k ≡ true → has_row self.new k ≡ true }
        ensures room { 12 ≤ spare self.old → IsOk result }
        ensures ready { ((k : TheKey) → has_key spec.now k tx.now ≡ true → has_row self.old k ≡ true) → IsOk result }
        ensures spare { spare self.old ≤ spare self.new + 12 }
    {
        spec_is_fit(spec);
        for place in 0..12usize {
            self.put_effect(spec, tx, place)?;
        }
        Ok(())
    }

    /// The last effect of each origin on the fact.
    pub fn lasts_on(&self, fact: &Fact) -> [Option<Last>; 16]
        ensures { result ≡ lasts_in self.now fact.now }
    {
        let mut lasts = self.adds_on(fact);
        for key in &remove_keys(fact) {
            self.raise(&mut lasts, key);
        }
        lasts
    }

    // The last add of each origin of the fact.
    fn adds_on(&self, fact: &Fact) -> [Option<Last>; 16]
        ensures { result ≡ lasts_of_rows (row_in self.now (add_key fact.now)) no_row }
    {
        match self.get(&add_key(fact)) {
            Some(row) => adds_of(row),
            None => [None; 16],
        }
    }

    // Makes each last effect the later one, of it and of the remove in the row of a key.
    fn raise(&self, lasts: &mut [Option<Last>; 16], key: &Key)
        ensures { lasts.new ≡ raised lasts.old (row_in self.now key.now) }
    {
        if let Some(row) = self.get(key) {
            *lasts = raised(lasts, row);
        }
    }
}

// The row with the transaction put into it.
fn with_tx(row: &[Option<Tx>; 16], tx: &Tx) -> [Option<Tx>; 16]
    requires { tx.now.dot.origin < 16 }
    ensures { (o : ℕ) → tx_at result o ≡ put_in true tx.now row.now o }
{
    let mut next = *row;
    next[usize::from(tx.dot.origin)] = Some(*tx);
    next
}

// The adds of a row, as last effects.
fn adds_of(row: &[Option<Tx>; 16]) -> [Option<Last>; 16]
    ensures { result ≡ lasts_of_rows row.now no_row }
{
    let mut lasts = [None; 16];
    for origin in 0..16usize {
        lasts[origin] = added(row[origin]);
    }
    lasts
}

// The transaction as the last effect, an add.
fn added(tx: Option<Tx>) -> Option<Last>
    ensures { result ≡ last_from tx None }
{
    match tx {
        Some(tx) => Some(Last { tx, adds: true }),
        None => None,
    }
}

// For each origin the later one, of the last effect and of the remove in the row.
fn raised(lasts: &[Option<Last>; 16], row: &[Option<Tx>; 16]) -> [Option<Last>; 16]
    ensures { result ≡ raised lasts.now row.now }
{
    let mut next = [None; 16];
    for origin in 0..16usize {
        next[origin] = later_last(lasts[origin], row[origin]);
    }
    next
}

// The one of greater number, of a last effect and a remove of one origin.
fn later_last(last: Option<Last>, removed: Option<Tx>) -> Option<Last>
    ensures { result ≡ later_last last removed }
{
    match (last, removed) {
        (_, None) => last,
        (None, Some(tx)) => Some(Last { tx, adds: false }),
        (Some(first), Some(second)) => {
            if first.tx.dot.number < second.dot.number {
                Some(Last {
                    tx: second,
                    adds: false,
                })
            } else {
                last
            }
        }
    }
}
