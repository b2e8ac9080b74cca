//! Facts that fit a pattern. In a list in order those that begin as it does stand side by side.
ghost use Rattle.std.specs.Prelude.{◌≡◌, Some, false};
ghost use Rattle.ipa_logic.specs.Facts.{IsRising};
ghost use Rattle.ipa_sets.specs.Fitting.{fits_at, fits, leads, is_within};
ghost use Rattle.ipa_sets.specs.Places.{IsSplit};

use crate::patterns::Pattern;
use ipa_logic::Fact;

// Whether the fact has the pattern's predicate, and its elements in their places.
pub(crate) fn fits(pattern: &Pattern, fact: &Fact) -> bool
    ensures { result ≡ fits pattern.now fact.now }
{
    pattern.predicate == fact.predicate
        && fits_at(pattern.places[0], fact.args[0])
        && fits_at(pattern.places[1], fact.args[1])
        && fits_at(pattern.places[2], fact.args[2])
}

// Whether the element is the one in the place, or the place has any.
fn fits_at(place: Option<u16>, element: u16) -> bool
    ensures { result ≡ fits_at place element }
{
    match place {
        Some(there) => there == element,
        None => true,
    }
}

// How many of the facts come before those that begin as the pattern does.
pub(crate) fn place_before(facts: &[Fact], pattern: &Pattern) -> usize
    requires { IsRising facts.now }
    ensures { IsSplit (is_within false pattern.now) facts.now result }
{
    facts.partition_point(|fact| is_within(false, pattern, fact))
}

// Whether the fact comes before those that begin as the pattern does, or, if `last`, is one of them.
pub(crate) fn is_within(last: bool, pattern: &Pattern, fact: &Fact) -> bool
    ensures { result ≡ is_within last pattern.now fact.now }
{
    let third = leads(last, pattern.places[2], fact.args[2], last);
    let second = leads(last, pattern.places[1], fact.args[1], third);
    let first = leads(last, pattern.places[0], fact.args[0], second);
    leads(
        last,
        Some(u16::from(pattern.predicate)),
        u16::from(fact.predicate),
        first,
    )
}

// Whether the element comes before the one in the place, or is it and the rest follows; `last` where the place has any.
fn leads(last: bool, place: Option<u16>, element: u16, rest: bool) -> bool
    ensures { result ≡ leads last place element rest }
{
    match place {
        Some(there) => element < there || (element == there && rest),
        None => last,
    }
}
