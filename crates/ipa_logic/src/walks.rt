//! Walks through the true facts of a predicate, in order.
ghost use Rattle.std.specs.Prelude.{◌≡◌, None};
ghost use Rattle.std.specs.Iterator.{YieldsFirst, item_count};
ghost use Rattle.ipa_logic.specs.Facts.{IsRising};
ghost use Rattle.ipa_logic.specs.Walks.{facts_after};

use crate::facts::Fact;
use crate::view::View;
use std::marker::Model;

/// A walk through the true facts of a predicate, seen as the list of those that are left.
#[derive(Drop)]
pub struct TrueFacts<'a, V: View> {
    view: &'a V,
    predicate: u8,
    next: Option<Fact>,
}

impl<'a, V: View> Model for TrueFacts<'a, V> {
    ghost use Rattle.std.specs.Prelude.{List};
    ghost use Rattle.ipa_logic.specs.Walks.{facts_from};
    ghost use Rattle.ipa_logic.specs.declared.facts.Fact.{Fact};

    ghost Value = { List Fact };

    ghost view = { λ a. facts_from (V.facts a.view.now) a.predicate a.next };
}

/// The true facts of the predicate, in order.
pub fn true_facts<V: View>(view: &V, predicate: u8) -> TrueFacts<'_, V>
    ensures all { result ≡ facts_after (V.facts view.now) predicate None }
    ensures rising { IsRising (V.facts view.now) }
{
    true_facts_after(view, predicate, None)
}

/// The true facts of the predicate above `after`, in order.
pub fn true_facts_after<V: View>(view: &V, predicate: u8, after: Option<Fact>) -> TrueFacts<'_, V>
    ensures all { result ≡ facts_after (V.facts view.now) predicate after }
    ensures rising { IsRising (V.facts view.now) }
{
    TrueFacts {
        view,
        predicate,
        next: view.next_true(predicate, after),
    }
}

impl<'a, V: View> Iterator for TrueFacts<'a, V> {
    type Item = Fact;

    ghost next_gives = { YieldsFirst (λ s. s) };

    ghost remaining = { item_count (λ s. s) };

    fn next(&mut self) -> Option<Fact> {
        match self.next {
            None => None,
            Some(fact) => {
                self.next = self.view.next_true(self.predicate, Some(fact));
                Some(fact)
            }
        }
    }
}
