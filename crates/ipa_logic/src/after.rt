//! The state after an action, seen without building it.
ghost use Rattle.std.specs.Prelude.{◌≡◌, not};
ghost use Rattle.ipa_logic.specs.Facts.{IsRising};
ghost use Rattle.ipa_logic.specs.Touches.{removes};
ghost use Rattle.ipa_logic.specs.Views.{next_fact};
ghost use Rattle.ipa_logic.specs.Applied.{applied, kept_facts};

use crate::added::{lesser, next_added};
use crate::effects::effect_on;
use crate::facts::{Fact, Touch};
use crate::view::View;
use crate::walks::true_facts_after;
use ipa_spec::{Action, Spec};

/// The state after an action, as a view. It builds no state: its facts are asked of the view of the state before
/// and of the action's effects.
#[derive(Drop)]
pub struct After<'a, V: View> {
    /// The specification.
    pub spec: &'a Spec,
    /// What stands for the state before.
    pub view: &'a V,
    /// The action.
    pub action: Action,
    /// Its arguments.
    pub args: &'a [u16; 4],
}

impl<'a, V: View> View for After<'a, V> {
    ghost facts = { λ s. applied s.spec.now s.action s.args.now (V.facts s.view.now) };

    fn holds(&self, fact: &Fact) -> bool {
        match effect_on(self.spec, self.action, self.args, fact) {
            Touch::Adds => true,
            Touch::Removes => false,
            Touch::Nothing => self.view.holds(fact),
        }
    }

    fn next_true(&self, predicate: u8, after: Option<Fact>) -> Option<Fact> {
        let kept = next_kept(
            self.spec,
            self.view,
            self.action,
            self.args,
            predicate,
            after,
        );
        let added = next_added(self.spec, self.action, self.args, predicate, after);
        lesser(added, kept)
    }
}

// The least fact of the predicate above `after` that is true in the view and that the action does not remove.
fn next_kept<V: View>(
    spec: &Spec,
    view: &V,
    action: Action,
    args: &[u16; 4],
    predicate: u8,
    after: Option<Fact>,
) -> Option<Fact>
    ensures value { result ≡ next_fact (kept_facts spec.now action args.now (V.facts view.now)) predicate after }
    ensures rising { IsRising (V.facts view.now) }
{
    for fact in true_facts_after(view, predicate, after) {
        if is_kept(spec, action, args, &fact) {
            return Some(fact);
        }
    }
    None
}

// Whether the action does not remove the fact.
fn is_kept(spec: &Spec, action: Action, args: &[u16; 4], fact: &Fact) -> bool
    ensures { result ≡ not (removes spec.now action args.now fact.now) }
{
    match effect_on(spec, action, args, fact) {
        Touch::Removes => false,
        Touch::Adds | Touch::Nothing => true,
    }
}
