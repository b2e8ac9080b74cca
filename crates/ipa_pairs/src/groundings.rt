//! The states over each universe that has occurred. The clauses are grounded once for a universe,
//! and not once for each pattern over it.
ghost use Rattle.std.specs.Prelude.{◌≡◌, Some, slice_get, IfOk, IfSome};
ghost use Rattle.ipa_logic.specs.Facts.{IsUniverse};
ghost use Rattle.ipa_ground.specs.Places.{AreSmall};
ghost use Rattle.ipa_pairs.specs.Grounded.{AreOf, IsAt, grounding};

use ipa_logic::Universe;
use ipa_models::Models;
use ipa_spec::{List, Spec};
use std::alloc::{AllocError, Global};

/// A universe, and the states over it that keep all clauses.
#[derive(Drop)]
pub(crate) struct Grounding<'a> {
    pub universe: Universe,
    pub models: Models<'a>,
}

/// The place of the grounding over the universe, which is added if it is not there yet.
pub(crate) fn place_of<'a>(
    alloc: Global,
    spec: &'a Spec,
    grounded: &mut List<Grounding<'a>>,
    universe: Universe,
) -> Result<usize, AllocError>
    requires universe { IsUniverse spec.now universe.sizes }
    requires small { AreSmall universe.sizes }
    requires of { AreOf spec.now grounded.old }
    ensures place { IfOk result (λ place. slice_get grounded.new place ≡ Some (grounding spec.now universe)) }
    ensures of { AreOf spec.now grounded.new }
{
    match place_among(grounded.as_slice(), universe) {
        Some(place) => Ok(place),
        None => {
            let models = Models::new(alloc, spec, universe)?;
            grounded.push(Grounding { universe, models })?;
            Ok(grounded.len() - 1)
        }
    }
}

// The place of a grounding over the universe among these, if there is one.
fn place_among(grounded: &[Grounding], universe: Universe) -> Option<usize>
    ensures { IfSome result (λ place. IsAt grounded.now place universe) }
{
    for (place, grounding) in grounded.iter().enumerate() {
        if grounding.universe == universe {
            return Some(place);
        }
    }
    None
}
