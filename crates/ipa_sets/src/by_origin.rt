//! Numbers in order for each origin.
ghost use Rattle.std.specs.Prelude.{◌≡◌, ◌<◌, ℕ, [], ◌∷◌, ◌++◌, true, false, cond, ◌==◌, None, slice_get, slice_index_or, length, IsOk, OnOk, OnErr};
ghost use Rattle.ipa_clock.specs.Cut.{count_of};
ghost use Rattle.ipa_history.specs.Histories.{IsMember};
ghost use Rattle.ipa_sets.specs.ByOrigins.{numbers_at, is_ready_at};
ghost use Rattle.ipa_sets.specs.Numbers.{greater, greatest_upto, AreUpTo, IsWith};

use crate::numbers::{Numbers, greater};
use ipa_clock::Cut;
use std::alloc::{AllocError, Global};

/// Numbers in order for each of the 16 origins.
#[derive(Drop)]
pub struct ByOrigin {
    lists: [Numbers; 16],
}

impl ByOrigin {
    /// No numbers, which grow in the memory of `alloc`.
    pub fn new(alloc: Global) -> ByOrigin
        ensures { (o : ℕ) → numbers_at result o ≡ [] }
    {
        ByOrigin {
            lists: [
                Numbers::new(alloc),
                Numbers::new(alloc),
                Numbers::new(alloc),
                Numbers::new(alloc),
                Numbers::new(alloc),
                Numbers::new(alloc),
                Numbers::new(alloc),
                Numbers::new(alloc),
                Numbers::new(alloc),
                Numbers::new(alloc),
                Numbers::new(alloc),
                Numbers::new(alloc),
                Numbers::new(alloc),
                Numbers::new(alloc),
                Numbers::new(alloc),
                Numbers::new(alloc),
            ],
        }
    }

    /// The number of an origin at a place, or `None` past the last.
    pub fn get(&self, origin: u8, place: usize) -> Option<u32>
        ensures { result ≡ slice_get (numbers_at self.now origin) place }
    {
        match self.lists.get(usize::from(origin)) {
            Some(numbers) => numbers.get(place),
            None => None,
        }
    }

    /// How many numbers of an origin there are.
    pub fn len(&self, origin: u8) -> usize
        requires { origin < 16 }
        ensures { result ≡ length (numbers_at self.now origin) }
    {
        self.lists[usize::from(origin)].len()
    }

    /// Makes each of the numbers that are found the greater one, of it and of the greatest of its origin within the cut.
    pub fn raise(&self, cut: &Cut, found: &mut [Option<u32>; 16])
        ensures { (o : ℕ) → o < 16 → slice_index_or found.new o None
            ≡ greater (slice_index_or found.old o None) (greatest_upto (count_of cut.now o) (numbers_at self.now o)) }
    {
        for origin in 0..16usize {
            found[origin] = greater(found[origin], self.lists[origin].up_to(cut.counts[origin]));
        }
    }

    /// Takes room for one more of an origin. The numbers stay, also where memory is wanting.
    pub fn reserve(&mut self, origin: u8) -> Result<(), AllocError>
        requires { origin < 16 }
        ensures same { (o : ℕ) → numbers_at self.new o ≡ numbers_at self.old o }
        ensures room { OnOk result (is_ready_at self.new origin ≡ true) }
        ensures stay { (o : ℕ) → is_ready_at self.old o ≡ true → is_ready_at self.new o ≡ true }
        ensures ready { is_ready_at self.old origin ≡ true → IsOk result }
    {
        self.lists[usize::from(origin)].reserve()
    }

    /// Puts a number at the end of those of an origin. Want of memory leaves the numbers as they were.
    pub fn push(&mut self, origin: u8, number: u32) -> Result<(), AllocError>
        requires origin { origin < 16 }
        requires rising { AreUpTo (numbers_at self.old origin) number }
        ensures ok { OnOk result ((o : ℕ) → numbers_at self.new o
            ≡ cond (o == origin) (numbers_at self.old origin ++ number ∷ []) (numbers_at self.old o)) }
        ensures err { OnErr result ((o : ℕ) → numbers_at self.new o ≡ numbers_at self.old o) }
        ensures ready { is_ready_at self.old origin ≡ true → IsOk result }
    {
        self.lists[usize::from(origin)].push(number)
    }

    /// Puts a number at the end of those of an origin, unless it stands there. Want of memory leaves the numbers as
    /// they were.
    pub fn append(&mut self, origin: u8, number: u32) -> Result<(), AllocError>
        requires origin { origin < 16 }
        requires rising { AreUpTo (numbers_at self.old origin) number }
        ensures ok { OnOk result (IsWith (numbers_at self.old origin) number (numbers_at self.new origin)) }
        ensures err { OnErr result (numbers_at self.new origin ≡ numbers_at self.old origin) }
        ensures others { (o : ℕ) → (o == origin) ≡ false → numbers_at self.new o ≡ numbers_at self.old o }
        ensures rooms { (o : ℕ) → (o == origin) ≡ false → is_ready_at self.new o ≡ is_ready_at self.old o }
        ensures ready { is_ready_at self.old origin ≡ true → IsOk result }
        ensures again { IsMember (numbers_at self.old origin) number → IsOk result }
    {
        self.lists[usize::from(origin)].append(number)
    }
}
