//! Numbers in order, and the greatest of them up to a bound.
ghost use Rattle.std.specs.Prelude.{◌≡◌, ◌↔◌, [], ◌∷◌, ◌++◌, true, slice_get, length, IsOk, IsTrue, OnOk, OnErr};
ghost use Rattle.ipa_history.specs.Histories.{IsMember};
ghost use Rattle.ipa_sets.specs.Numbers.{greater, greatest_upto, AreUpTo, IsWith};

use std::alloc::{AllocError, Global};
use std::marker::Model;

/// Numbers in order, each at least as great as those before it.
#[derive(Drop)]
pub struct Numbers {
    items: Vec<u32>,
}

impl Model for Numbers {
    ghost use Rattle.std.specs.Prelude.{vec_len, vec_capacity, ltb};
    ghost use Rattle.ipa_sets.specs.NumberLists.{NumberList};

    ghost Value = { NumberList };

    ghost view = { λ a. record { items = a.items.items; ready = ltb (vec_len a.items) (vec_capacity a.items) } };

    ghost use Rattle.std.specs.List.Sorted.{IsNonDecreasing};

    ghost invariant = { λ a. IsNonDecreasing a.items.items };
}

impl Numbers {
    /// No numbers, which grow in the memory of `alloc`.
    pub fn new(alloc: Global) -> Numbers
        ensures { result.items ≡ [] }
    {
        Numbers {
            items: Vec::new(alloc),
        }
    }

    /// The number at a place, or `None` past the last.
    pub fn get(&self, place: usize) -> Option<u32>
        ensures { result ≡ slice_get self.now.items place }
    {
        self.items.get(place).copied()
    }

    /// How many there are.
    pub fn len(&self) -> usize
        ensures { result ≡ length self.now.items }
    {
        self.items.len()
    }

    /// The greatest number that is not above the bound: the last, or one found by binary search.
    pub fn up_to(&self, bound: u32) -> Option<u32>
        ensures { result ≡ greatest_upto bound self.now.items }
    {
        match self.items.last() {
            Some(last) => {
                if *last <= bound {
                    Some(*last)
                } else {
                    self.search_up_to(bound)
                }
            }
            None => None,
        }
    }

    // The same, by binary search.
    fn search_up_to(&self, bound: u32) -> Option<u32>
        ensures { result ≡ greatest_upto bound self.now.items }
    {
        let passed = self.items.as_slice().partition_point(|n| *n <= bound);
        if passed == 0 {
            None
        } else {
            self.get(passed - 1)
        }
    }

    /// Takes room for one more. The numbers stay, also where memory is wanting.
    pub fn reserve(&mut self) -> Result<(), AllocError>
        ensures same { self.new.items ≡ self.old.items }
        ensures room { OnOk result (self.new.ready ≡ true) }
        ensures stay { self.old.ready ≡ true → self.new.ready ≡ true }
        ensures ready { self.old.ready ≡ true → IsOk result }
    {
        self.items.reserve(1)?;
        Ok(())
    }

    /// Puts a number at the end. Want of memory leaves the numbers as they were.
    pub fn push(&mut self, number: u32) -> Result<(), AllocError>
        requires { AreUpTo self.old.items number }
        ensures ok { OnOk result (self.new.items ≡ self.old.items ++ number ∷ []) }
        ensures err { OnErr result (self.new.items ≡ self.old.items) }
        ensures ready { self.old.ready ≡ true → IsOk result }
    {
        self.items.push(number)?;
        Ok(())
    }

    /// Puts a number at the end, unless it stands there. Want of memory leaves the numbers as they were.
    pub fn append(&mut self, number: u32) -> Result<(), AllocError>
        requires { AreUpTo self.old.items number }
        ensures ok { OnOk result (IsWith self.old.items number self.new.items) }
        ensures err { OnErr result (self.new.items ≡ self.old.items) }
        ensures ready { self.old.ready ≡ true → IsOk result }
        ensures again { IsMember self.old.items number → IsOk result }
    {
        if self.ends_with(number) {
            return Ok(());
        }
        self.push(number)?;
        Ok(())
    }

    // Whether the number stands at the end.
    fn ends_with(&self, number: u32) -> bool
        requires { AreUpTo self.now.items number }
        ensures { IsTrue result ↔ IsMember self.now.items number }
    {
        match self.items.last() {
            Some(last) => *last == number,
            None => false,
        }
    }
}

/// The greater of two numbers, where each may be missing.
pub(crate) fn greater(one: Option<u32>, other: Option<u32>) -> Option<u32>
    ensures { result ≡ greater one other }
{
    match (one, other) {
        (None, _) => other,
        (Some(_), None) => one,
        (Some(n), Some(m)) => Some(if n < m { m } else { n }),
    }
}
