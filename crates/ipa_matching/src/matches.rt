//! Whether a fact matches.
ghost use Rattle.std.specs.Prelude.{◌≡◌};
ghost use Rattle.ipa_matching.specs.Matches.{place_fits, is_match};

use ipa_logic::Fact;

/// Whether the fact is of the predicate and has the elements wanted in its places.
pub fn is_match(predicate: u8, places: &[Option<u16>; 3], fact: &Fact) -> bool
    ensures { result ≡ is_match predicate places.now fact.now }
{
    let [first, second, third] = *places;
    let [one, two, three] = fact.args;
    fact.predicate == predicate
        && place_fits(first, one)
        && place_fits(second, two)
        && place_fits(third, three)
}

// Whether the place fits the element.
fn place_fits(wanted: Option<u16>, element: u16) -> bool
    ensures { result ≡ place_fits wanted element }
{
    match wanted {
        Some(one) => one == element,
        None => true,
    }
}
