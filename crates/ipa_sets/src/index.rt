//! All of a history, to be asked at any cut.
ghost use Rattle.std.specs.Prelude.{◌≡◌, ◌<◌, ℕ, true, [], ◌∷◌, ◌++◌, OnOk, OnErr, MatchOption, false, slice_index_or};
ghost use Rattle.std.specs.Option.{option_copied};
ghost use Rattle.ipa_clock.specs.Cut.{count_of};
ghost use Rattle.ipa_spec.specs.declared.specification.Specification.{Specification};
ghost use Rattle.ipa_history.specs.Histories.{IsHistory, IsNamedIn, NoneNamedIn, number_of};
ghost use Rattle.ipa_logic.specs.Facts.{has, IsStateOf};
ghost use Rattle.ipa_logic.specs.Touches.{has_rule, is_add_wins};
ghost use Rattle.ipa_logic.specs.declared.facts.Fact.{Fact as TheFact};
ghost use Rattle.ipa_history.specs.Values.{value_at};
ghost use Rattle.ipa_history.specs.Ages.{age_at};
ghost use Rattle.ipa_sets.specs.AtCuts.{entry_of, facts_of, ages_of};
ghost use Rattle.ipa_sets.specs.Indexes.{IsIndexOf, IsReadyFor, IsWidened};

use crate::at_cut::AtCut;
use crate::by_origin::ByOrigin;
use crate::facts::{adds_win, stands_in_order};
use crate::filings::Filed;
use crate::taking::{file_effects, ready_effects};
use ipa_clock::{Cut, Dot};
use ipa_history::{History, Tx};
use ipa_logic::State;
use ipa_spec::Spec;
use ipa_spec::laws::spec_is_fit;
use std::alloc::{AllocError, Global};

/// All of a history, to be asked at any cut. It keeps the transactions themselves, and beside them what each
/// does, so that the last effects on a fact within a cut are found by binary search.
#[derive(Drop)]
pub struct Index {
    // The transactions, in the order in which they were taken.
    pub(crate) entries: History,
    // For each origin the places of its transactions.
    pub(crate) places: ByOrigin,
    // For each key of an effect, and each origin, the numbers of the transactions that have it.
    pub(crate) filed: Filed,
    // The facts that some transaction adds, and maybe others.
    pub(crate) known: State,
    // For each predicate whether an add prevails over a concurrent remove, once a transaction was taken.
    pub(crate) adds_win: [bool; 256],
    // Where the transactions move when they have used up their room: empty.
    pub(crate) room: Vec<Tx>,
    // Where all of it grows.
    pub(crate) alloc: Global,
}

impl Index {
    /// The index of no transactions, which grows in the memory of `alloc`.
    pub fn new(alloc: Global) -> Index
        ensures entries { result.entries ≡ [] }
        ensures indexed { (s : Specification) → IsIndexOf s result }
    {
        Index {
            entries: History::new(alloc),
            places: ByOrigin::new(alloc),
            filed: Filed::new(alloc),
            known: State::new(alloc),
            adds_win: [false; 256],
            room: Vec::new(alloc),
            alloc,
        }
    }

    /// The transactions, in the order in which they were taken.
    pub fn history(&self) -> &History
        ensures { result.now ≡ self.now.entries }
    {
        &self.entries
    }

    /// The transaction with this dot, or `None` where there is none.
    pub fn find(&self, dot: Dot) -> Option<&Tx>
        ensures { (s : Specification) → IsIndexOf s self.now →
            MatchOption result (NoneNamedIn self.now.entries dot) (λ tx. IsNamedIn self.now.entries dot tx.now) }
    {
        self.entry(dot.origin, dot.number)
    }

    // The transaction of this origin and number, by its place.
    pub(crate) fn entry(&self, origin: u8, number: u32) -> Option<&Tx>
        ensures { option_copied result ≡ entry_of self.now origin number }
    {
        if number == 0 {
            return None;
        }
        match self.places.get(origin, number as usize - 1) {
            Some(place) => self.entries.get(place),
            None => None,
        }
    }

    /// The cut with all its transactions.
    pub fn clock(&self) -> Cut
        ensures { (s : Specification) → IsIndexOf s self.now →
            (origin : ℕ) → origin < 16 → count_of result origin ≡ number_of origin self.now.entries }
    {
        let mut counts = [0; 16];
        for origin in 0..16u8 {
            counts[usize::from(origin)] = self.places.len(origin).min(4294967295) as u32;
        }
        Cut { counts }
    }

    /// The state at a cut, over a base. It takes no memory.
    pub fn at<'a>(&'a self, base: &'a State, cut: &Cut) -> AtCut<'a>
        ensures state { (s : Specification) → IsIndexOf s self.now →
            IsStateOf (value_at s base.now self.now.entries cut.now) (facts_of result) }
        ensures ages { (s : Specification) (f : TheFact) → IsIndexOf s self.now →
            has (facts_of result) f ≡ true → ages_of result f ≡ age_at s self.now.entries cut.now f }
    {
        stands_in_order(&self.known);
        stands_in_order(base);
        AtCut {
            index: self,
            base,
            cut: *cut,
        }
    }

    /// Takes the transaction, as the next of the history. Want of memory changes no entry. The specification is
    /// the same at each call.
    pub fn take(&mut self, spec: &Spec, tx: &Tx) -> Result<(), AllocError>
        requires indexed { IsIndexOf spec.now self.old }
        requires next { IsHistory (self.old.entries ++ tx.now ∷ []) }
        ensures ok { OnOk result (self.new.entries ≡ self.old.entries ++ tx.now ∷ []) }
        ensures err { OnErr result (self.new.entries ≡ self.old.entries) }
        ensures indexed { IsIndexOf spec.now self.new }
    {
        self.prepare(spec, tx)?;
        self.put(spec, tx);
        Ok(())
    }

    /// Takes room for the transaction. No entry is changed, also where memory is wanting.
    pub fn prepare(&mut self, spec: &Spec, tx: &Tx) -> Result<(), AllocError>
        requires indexed { IsIndexOf spec.now self.old }
        requires origin { tx.now.dot.origin < 16 }
        ensures entries { self.new.entries ≡ self.old.entries }
        ensures indexed { IsIndexOf spec.now self.new }
        ensures ready { OnOk result (IsReadyFor spec.now tx.now self.new) }
    {
        self.make_room(spec, tx)?;
        Ok(())
    }

    /// Takes the transaction that there is room for, as the next of the history. It takes no memory. The specification
    /// is the same at each call.
    pub fn put(&mut self, spec: &Spec, tx: &Tx)
        requires indexed { IsIndexOf spec.now self.old }
        requires next { IsHistory (self.old.entries ++ tx.now ∷ []) }
        requires ready { IsReadyFor spec.now tx.now self.old }
        ensures entries { self.new.entries ≡ self.old.entries ++ tx.now ∷ [] }
        ensures indexed { IsIndexOf spec.now self.new }
    {
        spec_is_fit(spec);
        let rules = self.rules(spec);
        let place = self.entries.len();
        self.entries.push_within(*tx, &mut self.room);
        let _ = self.places.push(tx.dot.origin, place);
        file_effects(spec, &mut self.filed, tx);
        self.adds_win = rules;
    }

    // For each predicate whether an add prevails over a concurrent remove: as kept, once a transaction was taken.
    fn rules(&self, spec: &Spec) -> [bool; 256]
        requires { IsIndexOf spec.now self.now }
        ensures { (p : ℕ) → slice_index_or result p false ≡ has_rule is_add_wins spec.now p }
    {
        if self.entries.len() == 0 {
            adds_win(spec)
        } else {
            self.adds_win
        }
    }

    // Takes room for the transaction. Nothing is filed.
    fn make_room(&mut self, spec: &Spec, tx: &Tx) -> Result<(), AllocError>
        requires { tx.now.dot.origin < 16 }
        ensures ready { OnOk result (IsReadyFor spec.now tx.now self.new) }
        ensures same { IsWidened self.old self.new }
    {
        ready_effects(spec, &mut self.filed, &mut self.known, self.alloc, tx)?;
        self.places.reserve(tx.dot.origin)?;
        let count = self.entries.len() as usize;
        self.room.reserve(count + 1)?;
        Ok(())
    }
}
