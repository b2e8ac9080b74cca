//! The next fact that passes a test, among those of two views.
ghost use Rattle.std.specs.Prelude.{◌≡◌, ◌&&◌, ◌||◌, ℕ, Bool, Option, Some, OnOk, filter};
ghost use Rattle.ipa_logic.specs.declared.facts.Fact.{Fact as TheFact};
ghost use Rattle.std.specs.Ordering.{is_eq};
ghost use Rattle.ipa_logic.specs.Facts.{fact_cmp, has, IsRising};
ghost use Rattle.ipa_logic.specs.Views.{next_fact, IsNextOf};
ghost use Rattle.ipa_sets.specs.Listings.{listed};

use ipa_logic::{Fact, State, View, true_facts_after};
use std::alloc::AllocError;

/// A test of facts.
pub(crate) trait Test {
    ghost use Rattle.std.specs.Prelude.{◌≡◌, Bool};
    ghost use Rattle.ipa_logic.specs.declared.facts.Fact.{Fact as TheFact};

    ghost passes: { Self → TheFact → Bool };

    /// Whether the fact passes.
    fn passes(&self, fact: &Fact) -> bool
        ensures { result ≡ passes self.now fact.now };
}

/// The facts of two views.
#[derive(Drop)]
struct Both<'a, V: View, W: View> {
    one: &'a V,
    other: &'a W,
}

impl<'a, V: View, W: View> Both<'a, V, W> {
    // Whether the fact is true in one of them.
    fn has(&self, fact: &Fact) -> bool
        ensures value { result ≡ (has (V.facts self.now.one.now) fact.now || has (W.facts self.now.other.now) fact.now) }
        ensures one { IsRising (V.facts self.now.one.now) }
        ensures other { IsRising (W.facts self.now.other.now) }
    {
        let one = self.one.holds(fact);
        let other = self.other.holds(fact);
        one || other
    }
}

impl<'a, V: View, W: View> View for Both<'a, V, W> {
    ghost use Rattle.ipa_sets.specs.Listings.{together};

    ghost facts = { λ both. together (V.facts both.one.now) (W.facts both.other.now) };

    fn holds(&self, fact: &Fact) -> bool {
        self.has(fact)
    }

    fn next_true(&self, predicate: u8, after: Option<Fact>) -> Option<Fact> {
        let first = self.one.next_true(predicate, after);
        match self.other.next_true(predicate, after) {
            Some(second) => Some(sooner(first, second)),
            None => first,
        }
    }
}

/// The least fact of the predicate above `after` that is in one of the views and passes. No fact past it is tested.
pub(crate) fn next_listed<T: Test, V: View, W: View>(
    test: &T,
    one: &V,
    other: &W,
    predicate: u8,
    after: Option<Fact>,
) -> Option<Fact>
    ensures value { result ≡ next_fact (listed (T.passes test.now) (V.facts one.now) (W.facts other.now)) predicate after }
    ensures rising { IsRising (listed (T.passes test.now) (V.facts one.now) (W.facts other.now)) }
{
    next_passing(test, &Both { one, other }, predicate, after)
}

// The least fact of the predicate above `after` that is in the view and passes.
fn next_passing<T: Test, V: View>(
    test: &T,
    view: &V,
    predicate: u8,
    after: Option<Fact>,
) -> Option<Fact>
    ensures value { result ≡ next_fact (filter (T.passes test.now) (V.facts view.now)) predicate after }
    ensures rising { IsRising (filter (T.passes test.now) (V.facts view.now)) }
{
    for fact in true_facts_after(view, predicate, after) {
        if test.passes(&fact) {
            return Some(fact);
        }
    }
    None
}

// The lesser of two facts, or the second where there is no first: where each is the next to pass a test, it is the
// next to pass either.
fn sooner(first: Option<Fact>, second: Fact) -> Fact
    ensures { (t u : TheFact → Bool) (p : ℕ) (after : Option TheFact) → IsNextOf t p after first →
        IsNextOf u p after (Some second) → IsNextOf (λ f. t f || u f) p after (Some result) }
{
    match first {
        Some(first) => {
            if second.cmp(&first).is_lt() {
                second
            } else {
                first
            }
        }
        None => second,
    }
}

/// Makes those of the facts true that pass.
pub(crate) fn insert_passing<T: Test>(
    state: &mut State,
    test: &T,
    facts: &[Fact],
) -> Result<(), AllocError>
    requires rising { IsRising state.old }
    ensures facts { OnOk result ((f : TheFact) → has state.new f
        ≡ ((has facts.now f && T.passes test.now f) || has state.old f)) }
    ensures rising { IsRising state.new }
{
    for fact in facts {
        insert_if_passing(state, test, fact)?;
    }
    Ok(())
}

// Makes the fact true, if it passes.
fn insert_if_passing<T: Test>(state: &mut State, test: &T, fact: &Fact) -> Result<(), AllocError>
    requires rising { IsRising state.old }
    ensures facts { OnOk result ((f : TheFact) → has state.new f
        ≡ ((is_eq (fact_cmp fact.now f) && T.passes test.now f) || has state.old f)) }
    ensures rising { IsRising state.new }
{
    if test.passes(fact) {
        state.insert(*fact)?;
    }
    Ok(())
}
