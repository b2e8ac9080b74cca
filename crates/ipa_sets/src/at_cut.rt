//! The state at a cut of a history, asked of its index.
ghost use Rattle.std.specs.Prelude.{◌≡◌, ◌||◌};
ghost use Rattle.ipa_logic.specs.Facts.{has, IsRising};

use crate::index::Index;
use crate::lasts::{age_by_lasts, value_by_lasts};
use crate::listing::{Test, next_listed};
use ipa_bounds::AgedView;
use ipa_clock::Cut;
use ipa_logic::{Age, Fact, State, View};

/// The state at a cut, over a base. It takes no memory.
#[derive(Drop)]
pub struct AtCut<'a> {
    pub(crate) index: &'a Index,
    pub(crate) base: &'a State,
    pub(crate) cut: Cut,
}

impl AtCut<'_> {
    // Whether the fact is known, or in the base.
    fn can_hold(&self, fact: &Fact) -> bool
        ensures value { result ≡ (has self.now.index.now.known fact.now || has self.now.base.now fact.now) }
        ensures known { IsRising self.now.index.now.known }
        ensures base { IsRising self.now.base.now }
    {
        let known = self.index.known.holds(fact);
        let base = self.base.holds(fact);
        known || base
    }
}

impl Test for AtCut<'_> {
    ghost use Rattle.ipa_sets.specs.AtCuts.{shown_of};

    ghost passes = { shown_of };

    fn passes(&self, fact: &Fact) -> bool {
        value_by_lasts(
            self.index.rule(fact.predicate),
            self.base.holds(fact),
            &self.index.lasts(&self.cut, fact),
        )
    }
}

impl View for AtCut<'_> {
    ghost use Rattle.ipa_sets.specs.AtCuts.{facts_of};

    ghost facts = { facts_of };

    fn holds(&self, fact: &Fact) -> bool {
        if self.can_hold(fact) {
            self.passes(fact)
        } else {
            false
        }
    }

    fn next_true(&self, predicate: u8, after: Option<Fact>) -> Option<Fact> {
        next_listed(self, &self.index.known, self.base, predicate, after)
    }
}

impl AgedView for AtCut<'_> {
    ghost use Rattle.ipa_sets.specs.AtCuts.{ages_of};

    ghost ages = { ages_of };

    fn age(&self, fact: &Fact) -> Age {
        age_by_lasts(&self.index.lasts(&self.cut, fact))
    }
}
