//! The next fact of a group.
//!
//! The facts of a group match the elements of its key in all places but the counted one. So the next of them is the
//! next that matches, which is found without looking at the facts of other groups between.
ghost use Rattle.std.specs.Prelude.{◌≡◌};
ghost use Rattle.ipa_logic.specs.Facts.{IsRising};
ghost use Rattle.ipa_logic.specs.Groups.{group_of};
ghost use Rattle.ipa_logic.specs.Views.{next_fact};
ghost use Rattle.ipa_bounds.specs.Members.{places_of, is_key};

use crate::groups::key_of;
use ipa_logic::{Fact, View};
use ipa_matching::next_match;
use ipa_spec::Bound;

// The least fact of the group of this key above `after`, or the least of all where that is `None`.
pub(crate) fn next_member<V: View>(
    view: &V,
    bound: &Bound,
    key: &[u16; 3],
    after: Option<Fact>,
) -> Option<Fact>
    ensures value { result ≡ next_fact (group_of bound.now key.now (V.facts view.now)) bound.now.predicate after }
    ensures rising { IsRising (V.facts view.now) }
{
    let next = next_match(view, bound.predicate, &places_of(bound, key), after);
    if is_key(bound, key) { next } else { None }
}

// The elements of the key that are wanted in the places that are not counted.
fn places_of(bound: &Bound, key: &[u16; 3]) -> [Option<u16>; 3]
    ensures { result ≡ places_of bound.now.counted key.now }
{
    let [first, second, third] = *key;
    let mut places = [Some(first), Some(second), Some(third)];
    if (bound.counted as usize) < places.len() {
        places[bound.counted as usize] = None;
    }
    places
}

// Whether these elements are the key of some fact: 0 stands in the counted place.
fn is_key(bound: &Bound, key: &[u16; 3]) -> bool
    ensures { result ≡ is_key bound.now key.now }
{
    let fact = Fact {
        predicate: bound.predicate,
        args: *key,
    };
    key_of(bound, &fact).cmp(key).is_eq()
}
