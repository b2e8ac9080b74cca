//! The actions of a specification in order, and how many of each thing it declares.
ghost use Rattle.std.specs.Prelude.{◌≡◌, ◌+◌, ◌<◌, length};
ghost use Rattle.ipa_spec.specs.Actions.{IsAction};
ghost use Rattle.ipa_pairs.specs.Width.{action_place};

use ipa_spec::laws::spec_is_fit;
use ipa_spec::{Action, Spec};

/// The number of clauses.
pub(crate) fn clause_count(spec: &Spec) -> u8
    ensures { result ≡ length spec.now.clauses }
{
    spec_is_fit(spec);
    spec.clauses().len() as u8
}

/// The number of bounds.
pub(crate) fn bound_count(spec: &Spec) -> u8
    ensures { result ≡ length spec.now.bounds }
{
    spec_is_fit(spec);
    spec.bounds().len() as u8
}

/// The number of actions.
pub(crate) fn action_count(spec: &Spec) -> usize
    ensures { result ≡ length spec.now.operations + length spec.now.bounds }
{
    spec_is_fit(spec);
    spec.operations().len() + spec.bounds().len()
}

/// The action in a place among all: operations first and then drops, each in declared order.
pub(crate) fn action_at(spec: &Spec, place: usize) -> Action
    requires { place < length spec.now.operations + length spec.now.bounds }
    ensures declared { IsAction spec.now result }
    ensures place { action_place spec.now result ≡ place }
{
    spec_is_fit(spec);
    let operations = spec.operations().len();
    let _bounds = spec.bounds().len();
    if place < operations {
        Action::Op(place as u8)
    } else {
        Action::Drop((place - operations) as u8)
    }
}
