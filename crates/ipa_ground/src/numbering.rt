//! The numbers of facts: their places among all facts over a universe, in order.
//!
//! The facts of a predicate follow those of the predicates before it, and stand among themselves by
//! their elements, so a place is where the predicate's facts start, and then the number that the
//! elements spell.
ghost use Rattle.std.specs.Prelude.{◌≡◌, ◌+◌, ◌*◌, ◌<◌, ◌≤◌, Some, length, take, slice_get, slice_index, All};
ghost use Rattle.ipa_logic.specs.Facts.{IsFact, size_of};
ghost use Rattle.ipa_ground.specs.Enumeration.{facts_over, place_sizes};
ghost use Rattle.ipa_ground.specs.EnumerationLaws.{ArePlaced};
ghost use Rattle.ipa_ground.specs.Places.{AreSmall, AreStarts, tuple_count, tuple_place};

use ipa_logic::{Fact, Universe, size_of};
use ipa_spec::laws::spec_is_fit;
use ipa_spec::{Predicate, Spec};

/// The place of a fact over the universe among all facts over it, counted from 0 in the order of
/// facts. It takes no memory.
pub fn fact_number(spec: &Spec, universe: &Universe, fact: &Fact) -> u32
    requires sizes { AreSmall universe.now.sizes }
    requires fact { IsFact spec.now universe.now.sizes fact.now }
    ensures { slice_get (facts_over spec.now.predicates universe.now.sizes) result ≡ Some fact.now }
{
    number_from(spec, universe, &starts(spec, universe), fact)
}

/// The number of facts over the universe. It takes no memory.
pub fn fact_count(spec: &Spec, universe: &Universe) -> u32
    requires { AreSmall universe.now.sizes }
    ensures { result ≡ length (facts_over spec.now.predicates universe.now.sizes) }
{
    spec_is_fit(spec);
    let starts = starts(spec, universe);
    starts[spec.predicates().len()]
}

/// The place of a fact, where those of its predicate start as the table says.
pub(crate) fn number_from(spec: &Spec, universe: &Universe, starts: &[u32; 33], fact: &Fact) -> u32
    requires sizes { AreSmall universe.now.sizes }
    requires starts { AreStarts starts.now spec.now.predicates universe.now.sizes }
    requires fact { IsFact spec.now universe.now.sizes fact.now }
    ensures { slice_get (facts_over spec.now.predicates universe.now.sizes) result ≡ Some fact.now }
{
    spec_is_fit(spec);
    match spec.predicates().get(fact.predicate as usize) {
        Some(predicate) => starts[fact.predicate as usize] + number_in(universe, predicate, fact),
        None => 0,
    }
}

/// The number of the first fact of each predicate, and after them the number of all facts.
pub(crate) fn starts(spec: &Spec, universe: &Universe) -> [u32; 33]
    requires { AreSmall universe.now.sizes }
    ensures { AreStarts result spec.now.predicates universe.now.sizes }
{
    spec_is_fit(spec);
    let mut starts = [0; 33];
    for (number, predicate) in spec.predicates().as_slice().iter().enumerate() {
        starts[number + 1] = starts[number] + count_of(universe, predicate);
    }
    starts
}

// The number of facts of a predicate.
fn count_of(universe: &Universe, predicate: &Predicate) -> u32
    requires sizes { AreSmall universe.now.sizes }
    requires short { predicate.now.arity ≤ 3 }
    ensures value { result ≡ tuple_count (place_sizes predicate.now universe.now.sizes) }
    ensures bound { result ≤ 4096 }
{
    let mut count = 1;
    for place in 0..predicate.arity {
        count *= size_at(universe, predicate, place);
    }
    count
}

// The place of a fact among those of its predicate.
fn number_in(universe: &Universe, predicate: &Predicate, fact: &Fact) -> u32
    requires sizes { AreSmall universe.now.sizes }
    requires short { predicate.now.arity ≤ 3 }
    requires placed { ArePlaced predicate.now.arity (λ place. size_of universe.now.sizes (slice_index predicate.now.sorts place)) fact.now.args }
    ensures value { result ≡ tuple_place (place_sizes predicate.now universe.now.sizes) (take predicate.now.arity fact.now.args) }
    ensures bound { result < 4096 }
{
    let mut number = 0;
    for place in 0..predicate.arity {
        number = number * size_at(universe, predicate, place)
            + u32::from(fact.args[place as usize]);
    }
    number
}

// How many elements a place of a predicate takes.
fn size_at(universe: &Universe, predicate: &Predicate, place: u8) -> u32
    requires sizes { AreSmall universe.now.sizes }
    requires within { place < 3 }
    ensures value { result ≡ size_of universe.now.sizes (slice_index predicate.now.sorts place) }
    ensures bound { result ≤ 16 }
{
    u32::from(size_of(universe, predicate.sorts[place as usize]))
}
