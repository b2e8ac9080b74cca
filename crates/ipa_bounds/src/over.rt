//! The bound that an action would exceed.
ghost use Rattle.std.specs.Prelude.{MatchOption, List};
ghost use Rattle.ipa_logic.specs.Groups.{Within};
ghost use Rattle.ipa_logic.specs.Touches.{IsAfter};
ghost use Rattle.ipa_logic.specs.DueDrops.{IsFirstOver};
ghost use Rattle.ipa_logic.specs.declared.facts.Fact.{Fact as TheFact};

use crate::drops::first_over_in;
use ipa_logic::{After, View};
use ipa_spec::{Action, Spec};

/// The first bound, in declared order, that a group exceeds in the state after the action with these
/// arguments, or `None` where that state is within the bounds. The view stands for the state before.
pub fn first_over<V: View>(spec: &Spec, view: &V, action: Action, args: &[u16; 4]) -> Option<u8>
    ensures first { (after : List TheFact) → IsAfter spec.now action args.now (V.facts view.now) after
        → MatchOption result (Within spec.now.bounds after) (IsFirstOver spec.now.bounds after) }

    // There is such a state.
    ensures after { (after : List TheFact) × IsAfter spec.now action args.now (V.facts view.now) after }
{
    let after = After {
        spec,
        view,
        action,
        args,
    };
    first_over_in(spec, &after)
}
