//! The last effects on a fact within a cut, as an index finds them.
ghost use Rattle.std.specs.Prelude.{◌≡◌, ◌<◌, ℕ, None, false, slice_index_or};
ghost use Rattle.std.specs.Option.{option_copied};
ghost use Rattle.ipa_clock.specs.Cut.{count_of};
ghost use Rattle.ipa_sets.specs.AtCuts.{touched, is_number, found_last, last_by, lasts};
ghost use Rattle.ipa_sets.specs.Indexes.{filed};
ghost use Rattle.ipa_sets.specs.Keys.{add_key};
ghost use Rattle.ipa_sets.specs.Numbers.{greatest_upto};

use crate::index::Index;
use crate::keys::{add_key, remove_keys};
use crate::lasts::Last;
use ipa_clock::Cut;
use ipa_history::Tx;
use ipa_logic::Fact;

impl Index {
    // Whether an add on the predicate prevails over a concurrent remove, once a transaction was taken.
    pub(crate) fn rule(&self, predicate: u8) -> bool
        ensures { result ≡ slice_index_or self.now.adds_win predicate false }
    {
        self.adds_win[usize::from(predicate)]
    }

    // The last effect of each origin on the fact within the cut.
    pub(crate) fn lasts(&self, cut: &Cut, fact: &Fact) -> [Option<Last>; 16]
        ensures { result ≡ lasts self.now cut.now fact.now }
    {
        let added = self.added_up_to(cut, fact);
        let touched = self.touched_up_to(cut, fact, &added);
        let mut lasts = [None; 16];
        for origin in 0..16u8 {
            let place = usize::from(origin);
            lasts[place] = self.last_by(origin, touched[place], added[place]);
        }
        lasts
    }

    // The greatest number of each origin within the cut of the transactions that add the fact.
    fn added_up_to(&self, cut: &Cut, fact: &Fact) -> [Option<u32>; 16]
        ensures { (o : ℕ) → o < 16 → slice_index_or result o None
            ≡ greatest_upto (count_of cut.now o) (filed self.now (add_key fact.now) o) }
    {
        let mut added = [None; 16];
        self.filed.raise(&add_key(fact), cut, &mut added);
        added
    }

    // The greatest number of each origin within the cut of the transactions that touch the fact, from those that add it.
    fn touched_up_to(&self, cut: &Cut, fact: &Fact, added: &[Option<u32>; 16]) -> [Option<u32>; 16]
        requires { (o : ℕ) → o < 16 → slice_index_or added.now o None
            ≡ greatest_upto (count_of cut.now o) (filed self.now (add_key fact.now) o) }
        ensures { (o : ℕ) → o < 16 → slice_index_or result o None
            ≡ greatest_upto (count_of cut.now o) (touched self.now fact.now o) }
    {
        let mut touched = *added;
        let keys = remove_keys(fact);
        for key in &keys {
            self.filed.raise(key, cut, &mut touched);
        }
        touched
    }

    // The last effect of an origin, from the number of its last effect and that of its last add.
    fn last_by(&self, origin: u8, number: Option<u32>, added: Option<u32>) -> Option<Last>
        ensures { result ≡ last_by self.now origin number added }
    {
        match number {
            Some(number) => found_last(is_number(added, number), self.entry(origin, number)),
            None => None,
        }
    }
}

// A transaction that has been found, as a last effect.
fn found_last(adds: bool, tx: Option<&Tx>) -> Option<Last>
    ensures { result ≡ found_last adds (option_copied tx.entry) }
{
    match tx {
        Some(tx) => Some(Last { tx: *tx, adds }),
        None => None,
    }
}

// Whether the number is the one that is given, if one is.
fn is_number(given: Option<u32>, number: u32) -> bool
    ensures { result ≡ is_number given number }
{
    match given {
        Some(given) => given == number,
        None => false,
    }
}
