//! A state: the true facts, in order.
ghost use Rattle.std.specs.Prelude.{◌≡◌, [], ◌||◌, ◌&&◌, not, OnOk, OnErr, IfOk};
ghost use Rattle.std.specs.Ordering.{is_eq};
ghost use Rattle.ipa_logic.specs.Facts.{has, fact_cmp, IsRising};
ghost use Rattle.ipa_logic.specs.Views.{next_fact, is_above};

use crate::facts::Fact;
use crate::ranges::{end_of, start_of};
use crate::view::View;
use std::alloc::{AllocError, Global};
use std::collections::BTreeSet;
use std::collections::btree_set::Range;
use std::marker::Model;

/// A state, seen as the list of its true facts in order.
#[derive(Clone, Drop)]
pub struct State {
    pub(crate) facts: BTreeSet<Fact>,
}

impl Model for State {
    ghost use Rattle.std.specs.Prelude.{List};
    ghost use Rattle.ipa_logic.specs.declared.facts.Fact.{Fact};

    ghost Value = { List Fact };

    ghost view = { λ a. a.facts.keys };

    ghost use Rattle.ipa_logic.specs.Facts.{IsRising};

    ghost invariant = { λ a. IsRising a.facts.keys };
}

impl State {
    /// The state without true facts, which grows in the memory of `alloc`.
    pub fn new(alloc: Global) -> State
        ensures { result ≡ [] }
    {
        State {
            facts: BTreeSet::new(alloc),
        }
    }

    /// Makes the fact true, and answers whether that changed the state. Want of memory leaves it as it was.
    pub fn insert(&mut self, fact: Fact) -> Result<bool, AllocError>
        ensures facts { OnOk result ((f : Fact) → has self.new f ≡ (is_eq (fact_cmp fact f) || has self.old f)) }
        ensures changed { IfOk result (λ changed. changed ≡ not (has self.old fact)) }
        ensures refused { OnErr result (self.new ≡ self.old) }
        ensures rising { IsRising self.new }
    {
        let added = self.facts.insert(fact)?;
        Ok(added)
    }

    /// Makes the fact false, and answers whether that changed the state.
    pub fn remove(&mut self, fact: &Fact) -> bool
        ensures facts { (f : Fact) → has self.new f ≡ (not (is_eq (fact_cmp fact.now f)) && has self.old f) }
        ensures changed { result ≡ has self.old fact.now }
        ensures rising { IsRising self.new }
    {
        self.facts.remove(fact)
    }

    /// The true facts in order, or want of memory.
    pub fn to_vec(&self, alloc: Global) -> Result<Vec<Fact>, AllocError>
        ensures { IfOk result (λ facts. facts.items ≡ self.now) }
    {
        self.facts.iter().copied().collect(alloc)
    }

    /// A copy, or want of memory.
    pub fn copy(&self) -> Result<State, AllocError>
        ensures { IfOk result (λ copy. copy ≡ self.now) }
    {
        self.clone()
    }
}

impl View for State {
    ghost facts = { λ s. s };

    fn holds(&self, fact: &Fact) -> bool {
        self.facts.contains(fact)
    }

    fn next_true(&self, predicate: u8, after: Option<Fact>) -> Option<Fact> {
        first_above(
            self.facts
                .range((start_of(predicate, after), end_of(predicate))),
            predicate,
            after,
        )
    }
}

// The first of these facts that is of the predicate and above `after`.
fn first_above(facts: Range<'_, Fact>, predicate: u8, after: Option<Fact>) -> Option<Fact>
    ensures { result ≡ next_fact facts.entry predicate after }
{
    facts.copied().find(|fact| fact.predicate == predicate && is_above(after, fact))
}

fn is_above(after: Option<Fact>, fact: &Fact) -> bool
    ensures { result ≡ is_above after fact.now }
{
    match after {
        None => true,
        Some(after) => after.cmp(fact).is_lt(),
    }
}
