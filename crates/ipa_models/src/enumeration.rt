//! All facts over a universe, in order: by predicate, and then by element from the first place.
ghost use Rattle.std.specs.Prelude.{◌≡◌, ◌≤◌, ◌++◌, length, drop, IfOk, OnOk};
ghost use Rattle.ipa_ground.specs.Enumeration.{facts_over, place_sizes};
ghost use Rattle.ipa_models.specs.Listing.{facts_with};

use ipa_logic::{Fact, Universe, size_of};
use ipa_spec::laws::spec_is_fit;
use ipa_spec::{List, Predicate, Spec};
use std::alloc::{AllocError, Global};

/// All facts over the universe, in order.
pub(crate) fn facts_over(
    alloc: Global,
    spec: &Spec,
    universe: &Universe,
) -> Result<List<Fact>, AllocError>
    ensures { IfOk result (λ facts. facts ≡ facts_over spec.now.predicates universe.now.sizes) }
{
    spec_is_fit(spec);
    let mut facts = List::new(alloc);
    for (number, predicate) in spec.predicates().as_slice().iter().enumerate() {
        let first = Fact {
            predicate: number as u8,
            args: [0; 3],
        };
        push_facts(&mut facts, universe, predicate, first, 0)?;
    }
    Ok(facts)
}

// Adds the facts of a predicate that are this one before the place `at`.
fn push_facts(
    facts: &mut List<Fact>,
    universe: &Universe,
    predicate: &Predicate,
    fact: Fact,
    at: u8,
) -> Result<(), AllocError>
    requires short { predicate.now.arity ≤ 3 }
    requires within { at ≤ predicate.now.arity }
    ensures { OnOk result (facts.new ≡ facts.old ++ facts_with fact at (drop at (place_sizes predicate.now universe.now.sizes))) }
{
    if at == predicate.arity {
        facts.push(fact)?;
        return Ok(());
    }
    for element in 0..size_of(universe, predicate.sorts[at as usize]) {
        let mut next = fact;
        next.args[at as usize] = element;
        push_facts(facts, universe, predicate, next, at + 1)?;
    }
    Ok(())
}
