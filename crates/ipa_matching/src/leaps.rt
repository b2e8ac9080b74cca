//! The next fact that matches.
//!
//! Between two facts that match there may be many that do not. A search that meets one of them leaps to the last
//! place before which no fact that matches can be, so that it looks at few of them: at the first place that does not
//! fit the element there, facts that match have the element wanted, or come before.
ghost use Rattle.std.specs.Prelude.{◌≡◌, ◌≤◌, ◌<◌, ℕ, true, filter, IfSome};
ghost use Rattle.std.specs.Ordering.{is_lt};
ghost use Rattle.ipa_logic.specs.Facts.{IsRising, fact_cmp};
ghost use Rattle.ipa_logic.specs.Views.{next_fact};
ghost use Rattle.ipa_logic.specs.declared.facts.Fact.{Fact as TheFact};
ghost use Rattle.ipa_matching.specs.Matches.{place_fits, is_match, NoneFitsBetween};

use crate::matches::is_match;
use ipa_logic::{Fact, View};

/// The least true fact above `after` that matches, or the least of all that do where that is `None`.
pub fn next_match<V: View>(
    view: &V,
    predicate: u8,
    places: &[Option<u16>; 3],
    after: Option<Fact>,
) -> Option<Fact>
    ensures value { result ≡ next_fact (filter (is_match predicate places.now) (V.facts view.now)) predicate after }
    ensures rising { IsRising (V.facts view.now) }
{
    let mut place = after;
    while let Some(fact) = view.next_true(predicate, place) {
        if is_match(predicate, places, &fact) {
            return Some(fact);
        }
        place = Some(leap(predicate, places, fact));
    }
    None
}

// A place from the fact on, where no fact that matches lies between the two.
fn leap(predicate: u8, places: &[Option<u16>; 3], fact: Fact) -> Fact
    ensures on { (f : TheFact) → is_lt (fact_cmp result f) ≡ true → is_lt (fact_cmp fact f) ≡ true }
    ensures none_between { (f : TheFact) → is_match predicate places.now f ≡ true → is_lt (fact_cmp fact f) ≡ true → is_lt (fact_cmp result f) ≡ true }
{
    let place = Fact {
        predicate: fact.predicate,
        args: args_before(places, &fact.args),
    };
    if fact.cmp(&place).is_lt() {
        place
    } else {
        fact
    }
}

// Elements that come before all those that fit the places and come after these.
fn args_before(places: &[Option<u16>; 3], args: &[u16; 3]) -> [u16; 3]
    ensures { NoneFitsBetween places.now args.now result }
{
    let [first, second, third] = *places;
    let [one, two, three] = *args;
    if let Some(before) = leap_in(first, one) {
        [before, u16::MAX, u16::MAX]
    } else if let Some(before) = leap_in(second, two) {
        [one, before, u16::MAX]
    } else if let Some(before) = leap_in(third, three) {
        [one, two, before]
    } else {
        [one, two, three]
    }
}

// An element that comes before all those from this one on that fit the place, or `None` where this one fits.
fn leap_in(wanted: Option<u16>, element: u16) -> Option<u16>
    ensures { IfSome result (λ before. (x : ℕ) → place_fits wanted x ≡ true → element ≤ x → before < x) }
{
    match wanted {
        Some(one) if element < one => Some(one - 1),
        Some(one) if element > one => Some(u16::MAX),
        _ => None,
    }
}
