//! What an action needs, and the first of its needs that fails.
ghost use Rattle.std.specs.Prelude.{◌≡◌, ◌<◌, true, slice_get, MatchOption, Some};
ghost use Rattle.std.specs.List.{list_all};
ghost use Rattle.ipa_spec.specs.Actions.{needs_of};
ghost use Rattle.ipa_logic.specs.Facts.{has};
ghost use Rattle.ipa_logic.specs.Truth.{literal_true};
ghost use Rattle.ipa_logic.specs.Touches.{NeedsHold, IsFirstFailing};

use crate::literals::holds_literal;
use crate::view::View;
use ipa_spec::laws::spec_is_fit;
use ipa_spec::{Action, Literal, Spec};

/// What the action needs, in declared order: the needs of an operation, and nothing for a drop.
pub fn needs_of(spec: &Spec, action: Action) -> &[Literal]
    ensures { result.now ≡ needs_of spec.now action }
{
    match action {
        Action::Op(number) => match spec.operations().get(number as usize) {
            Some(operation) => operation.needs.as_slice(),
            None => &[],
        },
        Action::Drop(_number) => &[],
    }
}

/// The first need of the action that fails in the viewed state, or `None` where all hold.
pub fn first_failing_need<V: View>(
    spec: &Spec,
    view: &V,
    action: Action,
    args: &[u16; 4],
) -> Option<u8>
    ensures { MatchOption result (NeedsHold spec.now (has (V.facts view.now)) action args.now)
        (IsFirstFailing spec.now (has (V.facts view.now)) action args.now) }
{
    spec_is_fit(spec);
    for (number, need) in needs_of(spec, action).iter().enumerate() {
        if !holds_literal(spec, view, need, args) {
            return Some(number as u8);
        }
    }
    None
}
