//! An action on a state, and what is true after it.
ghost use Rattle.std.specs.Prelude.{◌≡◌};
ghost use Rattle.ipa_logic.specs.Truth.{literal_true};
ghost use Rattle.ipa_touch.specs.Turns.{holds_after, passes_after};

use ipa_logic::{After, Universe, View, holds_instance, holds_literal};
use ipa_spec::{Action, Clause, Literal, Spec};

// The action with these arguments, on the state that the view stands for.
#[derive(Drop)]
pub(crate) struct Step<'a, V: View> {
    pub(crate) spec: &'a Spec,
    pub(crate) universe: &'a Universe,
    pub(crate) view: &'a V,
    pub(crate) action: Action,
    pub(crate) args: &'a [u16; 4],
}

// Whether the literal is true after the action, under the values of its variables.
pub(crate) fn literal_holds_after<V: View>(
    step: &Step<'_, V>,
    literal: &Literal,
    values: &[u16; 4],
) -> bool
    ensures { result ≡ literal_true step.now.spec.now (holds_after step.now.spec.now step.now.action step.now.args.now (V.facts step.now.view.now)) values.now literal.now }
{
    let after = After {
        spec: step.spec,
        view: step.view,
        action: step.action,
        args: step.args,
    };
    holds_literal(step.spec, &after, literal, values)
}

// Whether the instance of the clause with these values is true after the action.
pub(crate) fn passes_after<V: View>(step: &Step<'_, V>, clause: &Clause, values: &[u16; 4]) -> bool
    ensures { result ≡ passes_after step.now.spec.now step.now.action step.now.args.now (V.facts step.now.view.now) clause.now values.now }
{
    let after = After {
        spec: step.spec,
        view: step.view,
        action: step.action,
        args: step.args,
    };
    holds_instance(step.spec, &after, clause, values)
}
