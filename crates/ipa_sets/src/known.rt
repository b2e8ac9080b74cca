//! The facts that some transaction adds, in order, and whether they are true, in lists that can take room for more
//! before they are known.
ghost use Rattle.std.specs.Prelude.{◌≡◌, ◌+◌, ◌||◌, ℕ, Bool, [], Some, None, true, false, cond, length, map, slice_get, IsOk, OnOk, OnErr};
ghost use Rattle.std.specs.List.{insert};
ghost use Rattle.ipa_history.specs.Values.{adds_fact};
ghost use Rattle.std.specs.Ordering.{is_eq, is_lt};
ghost use Rattle.std.specs.Option.{option_map_or};
ghost use Rattle.ipa_spec.specs.Actions.{effects_of};
ghost use Rattle.ipa_logic.specs.Touches.{gives};
ghost use Rattle.ipa_sets.specs.Fitting.{concerns, TellsAnew};
ghost use Rattle.ipa_sets.specs.Places.{IsSplit, is_at, is_passed, next_at};
ghost use Rattle.std.proofs.lemmas.Map.Keys.{IsStrictlySortedBy-prop};
ghost use Rattle.ipa_logic.specs.Facts.{fact_cmp, has, IsRising};
ghost use Rattle.ipa_logic.specs.declared.facts.Fact.{Fact as TheFact};

use crate::listing::Test;
use crate::truths::tell_concerned;
use ipa_history::Tx;
use ipa_logic::{Fact, View, effect_at, fact_given};
use ipa_spec::Spec;
use ipa_spec::laws::spec_is_fit;
use std::alloc::{AllocError, Global};

/// Facts in order, each once, and beside each whether it is true.
#[derive(Drop)]
pub struct Known {
    facts: Vec<Fact>,
    truths: Vec<bool>,
    ghost rising: { IsRising facts.items } by { IsStrictlySortedBy-prop fact_cmp facts.items },
    ghost even: { length truths.items ≡ length facts.items },
}

impl Known {
    ghost use Rattle.ipa_sets.specs.Knowns.{HasPlaces};

    /// No facts, which grow in the memory of `alloc`.
    pub fn new(alloc: Global) -> Known
        ensures facts { result.facts.items ≡ [] }
        ensures truths { result.truths.items ≡ [] }
    {
        Known {
            facts: Vec::new(alloc),
            truths: Vec::new(alloc),
        }
    }

    /// Takes room for more facts.
    pub fn reserve(&mut self, more: usize) -> Result<(), AllocError>
        ensures facts { self.new.facts.items ≡ self.old.facts.items }
        ensures truths { self.new.truths.items ≡ self.old.truths.items }
        ensures room { OnOk result (HasPlaces more self.new) }
        ensures ready { HasPlaces more self.old → IsOk result }
        ensures kept { (n : ℕ) → HasPlaces n self.old → HasPlaces n self.new }
    {
        self.facts.reserve(more)?;
        self.truths.reserve(more)?;
        Ok(())
    }

    // Adds the fact, if it is not there, and tells of it whether it passes. Want of memory changes nothing; with room
    // for it, or where it is known, there is none.
    fn insert<T: Test>(&mut self, fact: Fact, test: &T) -> Result<(), AllocError>
        ensures facts { OnOk result ((f : TheFact) →
            has self.new.facts.items f ≡ (is_eq (fact_cmp f fact) || has self.old.facts.items f)) }
        ensures refused { OnErr result (self.new.facts.items ≡ self.old.facts.items) }
        ensures truths { self.old.truths.items ≡ map (T.passes test.now) self.old.facts.items →
            self.new.truths.items ≡ map (T.passes test.now) self.new.facts.items }
        ensures room { HasPlaces 1 self.old → IsOk result }
        ensures ready { has self.old.facts.items fact ≡ true → IsOk result }
        ensures left { (n : ℕ) → HasPlaces (n + 1) self.old → HasPlaces n self.new }
    {
        let facts = self.facts.as_slice();
        let place = place_of(facts, &fact);
        if is_at(facts, place, &fact) {
            return Ok(());
        }
        self.reserve(1)?;
        self.insert_at(place, fact, test.passes(&fact))
    }

    // Adds the fact at its place.
    fn insert_at(&mut self, place: usize, fact: Fact, truth: bool) -> Result<(), AllocError>
        requires split { IsSplit (λ g. is_lt (fact_cmp g fact)) self.old.facts.items place }
        requires other { is_at self.old.facts.items place fact ≡ false }
        requires room { HasPlaces 1 self.old }
        ensures ok { IsOk result }
        ensures facts { self.new.facts.items ≡ insert self.old.facts.items place fact }
        ensures truths { self.new.truths.items ≡ insert self.old.truths.items place truth }
        ensures left { (n : ℕ) → HasPlaces (n + 1) self.old → HasPlaces n self.new }
    {
        self.facts.insert(place, fact)?;
        self.truths.insert(place, truth)?;
        Ok(())
    }

    // Adds the fact that the transaction's effect at a place adds, if it has one there that does.
    fn insert_given<T: Test>(
        &mut self,
        spec: &Spec,
        tx: &Tx,
        place: usize,
        test: &T,
    ) -> Result<(), AllocError>
        ensures facts { OnOk result ((f : TheFact) → has self.new.facts.items f
            ≡ (option_map_or (gives spec.now tx.now.args f) (slice_get (effects_of spec.now tx.now.action) place) false
            || has self.old.facts.items f)) }
        ensures refused { OnErr result (self.new.facts.items ≡ self.old.facts.items) }
        ensures truths { self.old.truths.items ≡ map (T.passes test.now) self.old.facts.items →
            self.new.truths.items ≡ map (T.passes test.now) self.new.facts.items }
        ensures room { HasPlaces 1 self.old → IsOk result }
        ensures ready { ((f : TheFact) → option_map_or (gives spec.now tx.now.args f)
            (slice_get (effects_of spec.now tx.now.action) place) false ≡ true → has self.old.facts.items f ≡ true)
            → IsOk result }
        ensures left { (n : ℕ) → HasPlaces (n + 1) self.old → HasPlaces n self.new }
    {
        match effect_at(spec, tx.action, place) {
            Some(effect) => {
                if effect.add {
                    self.insert(fact_given(spec, &effect, &tx.args), test)?;
                    Ok(())
                } else {
                    Ok(())
                }
            }
            None => Ok(()),
        }
    }

    /// Adds the facts that the transaction adds, and tells of each whether it passes. With room for them, or where they
    /// are known, there is no want of memory.
    pub fn insert_added<T: Test>(
        &mut self,
        spec: &Spec,
        tx: &Tx,
        test: &T,
    ) -> Result<(), AllocError>
        ensures facts { OnOk result ((f : TheFact) →
            has self.new.facts.items f ≡ (adds_fact spec.now f tx.now || has self.old.facts.items f)) }
        ensures kept { (f : TheFact) → has self.old.facts.items f ≡ true → has self.new.facts.items f ≡ true }
        ensures truths { self.old.truths.items ≡ map (T.passes test.now) self.old.facts.items →
            self.new.truths.items ≡ map (T.passes test.now) self.new.facts.items }
        ensures room { HasPlaces 12 self.old → IsOk result }
        ensures ready { ((f : TheFact) → adds_fact spec.now f tx.now ≡ true → has self.old.facts.items f ≡ true)
            → IsOk result }
        ensures left { (n : ℕ) → HasPlaces (n + 12) self.old → HasPlaces n self.new }
    {
        spec_is_fit(spec);
        for place in 0..12usize {
            self.insert_given(spec, tx, place, test)?;
        }
        Ok(())
    }

    /// Tells anew of each fact that the transaction concerns whether it passes.
    pub fn tell_concerned<T: Test>(&mut self, spec: &Spec, tx: &Tx, test: &T)
        ensures facts { self.new.facts.items ≡ self.old.facts.items }
        ensures truths { TellsAnew (T.passes test.now) self.old.facts.items (concerns spec.now tx.now)
            self.old.truths.items self.new.truths.items }
        ensures kept { (n : ℕ) → HasPlaces n self.old → HasPlaces n self.new }
    {
        tell_concerned(
            test,
            self.facts.as_slice(),
            self.truths.as_mut_slice(),
            spec,
            tx,
        );
    }

    /// Whether the fact is true, if it is known.
    pub fn truth(&self, fact: &Fact) -> Option<bool>
        ensures { (t : TheFact → Bool) → self.now.truths.items ≡ map t self.now.facts.items →
            result ≡ cond (has self.now.facts.items fact.now) (Some (t fact.now)) None }
    {
        let facts = self.facts.as_slice();
        let place = place_of(facts, fact);
        if is_at(facts, place, fact) {
            truth_at(self.truths.as_slice(), place)
        } else {
            None
        }
    }

    /// The facts in order, as a slice.
    pub fn as_slice(&self) -> &[Fact]
        ensures { result.now ≡ self.now.facts.items }
    {
        self.facts.as_slice()
    }
}

impl View for Known {
    ghost facts = { λ k. k.facts.items };

    fn holds(&self, fact: &Fact) -> bool {
        let facts = self.facts.as_slice();
        is_at(facts, place_of(facts, fact), fact)
    }

    fn next_true(&self, predicate: u8, after: Option<Fact>) -> Option<Fact> {
        let facts = self.facts.as_slice();
        next_at(facts, predicate, place_above(facts, predicate, after))
    }
}

// What the truths have at the place.
fn truth_at(truths: &[bool], place: usize) -> Option<bool>
    ensures { result ≡ slice_get truths.now place }
{
    truths.get(place).copied()
}

// How many of the facts come before this one.
fn place_of(facts: &[Fact], fact: &Fact) -> usize
    requires { IsRising facts.now }
    ensures { IsSplit (λ g. is_lt (fact_cmp g fact.now)) facts.now result }
{
    facts.partition_point(|other| other.cmp(fact).is_lt())
}

// Whether the fact stands at the place.
fn is_at(facts: &[Fact], place: usize, fact: &Fact) -> bool
    ensures { result ≡ is_at facts.now place fact.now }
{
    match facts.get(place) {
        Some(other) => other.cmp(fact).is_eq(),
        None => false,
    }
}

// How many of the facts come before each fact of the predicate above `after`.
fn place_above(facts: &[Fact], predicate: u8, after: Option<Fact>) -> usize
    requires { IsRising facts.now }
    ensures { IsSplit (is_passed predicate after) facts.now result }
{
    facts.partition_point(|fact| is_passed(predicate, after, fact))
}

// Whether the fact comes before each of the predicate above `after`.
fn is_passed(predicate: u8, after: Option<Fact>, fact: &Fact) -> bool
    ensures { result ≡ is_passed predicate after fact.now }
{
    if fact.predicate == predicate {
        match after {
            Some(after) => !after.cmp(fact).is_lt(),
            None => false,
        }
    } else {
        fact.predicate < predicate
    }
}

// The fact at the place, if there is one and it is of the predicate.
fn next_at(facts: &[Fact], predicate: u8, place: usize) -> Option<Fact>
    ensures { result ≡ next_at predicate (slice_get facts.now place) }
{
    match facts.get(place) {
        Some(fact) => {
            if fact.predicate == predicate {
                Some(*fact)
            } else {
                None
            }
        }
        None => None,
    }
}
