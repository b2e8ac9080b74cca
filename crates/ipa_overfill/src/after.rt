//! The bound that an action would exceed, from a state within the bounds.
ghost use Rattle.std.specs.Prelude.{MatchOption, List};
ghost use Rattle.ipa_logic.specs.Facts.{IsRising};
ghost use Rattle.ipa_logic.specs.Groups.{Within};
ghost use Rattle.ipa_logic.specs.Touches.{IsAfter};
ghost use Rattle.ipa_logic.specs.DueDrops.{IsFirstOver};
ghost use Rattle.ipa_logic.specs.declared.facts.Fact.{Fact as TheFact};

use crate::overfilled::first_overfilled;
use ipa_logic::{After, View};
use ipa_spec::{Action, Spec};

/// The first bound, in declared order, that a group exceeds in the state after the action with these arguments, or `None`
/// where that state is within the bounds. The view stands for a state before that is within them. It looks at the
/// groups of the facts alone that the action adds.
pub fn first_over_after<V: View>(
    spec: &Spec,
    view: &V,
    action: Action,
    args: &[u16; 4],
) -> Option<u8>
    requires rising { IsRising (V.facts view.now) }
    requires within { Within spec.now.bounds (V.facts view.now) }
    ensures { (after : List TheFact) → IsAfter spec.now action args.now (V.facts view.now) after →
        MatchOption result (Within spec.now.bounds after) (IsFirstOver spec.now.bounds after) }
{
    let after = After {
        spec,
        view,
        action,
        args,
    };
    first_overfilled(spec, &after, action, args)
}
