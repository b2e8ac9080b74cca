//! The first instance that an action breaks.
ghost use Rattle.std.specs.Prelude.{◌≡◌, ◌≤◌, length, MatchOption};
ghost use Rattle.ipa_spec.specs.Actions.{sorts_of_vars};
ghost use Rattle.ipa_logic.specs.Facts.{has};
ghost use Rattle.ipa_logic.specs.Truth.{Keeps, KeepsClause, IsFirstBroken};
ghost use Rattle.ipa_logic.specs.Touches.{plain_application};
ghost use Rattle.ipa_touch.specs.Turns.{holds_after, passes_after, turns, is_turned};
ghost use Rattle.ipa_touch.specs.Searches.{Improves, IsFirstFailed, IsEarlierOf};
ghost use Rattle.std.specs.List.{list_any};

use crate::pins::pins_of;
use crate::search::first_pinned;
use crate::step::Step;
use ipa_logic::{Broken, Universe, View, drop_effect};
use ipa_spec::laws::spec_is_fit;
use ipa_spec::{Action, Clause, Effect, Literal, Spec};

/// The first instance, by clause and then by values, that is not true in the state after the action
/// with these arguments, or `None` where that state keeps all clauses. The view stands for the state
/// before, which keeps all clauses.
pub fn first_broken<V: View>(
    spec: &Spec,
    universe: &Universe,
    view: &V,
    action: Action,
    args: &[u16; 4],
) -> Option<Broken>
    requires { Keeps spec.now universe.now.sizes (has (V.facts view.now)) }
    ensures { MatchOption result
        (Keeps spec.now universe.now.sizes (plain_application spec.now action args.now (has (V.facts view.now))))
        (λ broken. IsFirstBroken spec.now universe.now.sizes (plain_application spec.now action args.now (has (V.facts view.now))) broken.clause broken.values) }
{
    let step = Step {
        spec,
        universe,
        view,
        action,
        args,
    };
    spec_is_fit(spec);
    for (number, clause) in spec.clauses().as_slice().iter().enumerate() {
        if let Some(values) = first_broken_values(&step, clause) {
            return Some(Broken {
                clause: number as u8,
                values,
            });
        }
    }
    None
}

// The first values under which the clause is not true after the action: of those under which the action
// turns one of its literals false.
fn first_broken_values<V: View>(step: &Step<'_, V>, clause: &Clause) -> Option<[u16; 4]>
    requires short { length clause.now.vars ≤ 4 }
    requires kept { KeepsClause step.now.spec.now step.now.universe.now.sizes (has (V.facts step.now.view.now)) clause.now }
    ensures { MatchOption result
        (KeepsClause step.now.spec.now step.now.universe.now.sizes (holds_after step.now.spec.now step.now.action step.now.args.now (V.facts step.now.view.now)) clause.now)
        (IsFirstFailed (passes_after step.now.spec.now step.now.action step.now.args.now (V.facts step.now.view.now) clause.now) step.now.universe.now.sizes (sorts_of_vars clause.now.vars)) }
{
    let mut best = None;
    for literal in clause.literals.as_slice() {
        best = better_by_literal(step, clause, literal, best);
    }
    best
}

// The best so far after the values under which the action turns the literal false.
fn better_by_literal<V: View>(
    step: &Step<'_, V>,
    clause: &Clause,
    literal: &Literal,
    best: Option<[u16; 4]>,
) -> Option<[u16; 4]>
    requires { length clause.now.vars ≤ 4 }
    ensures { Improves (passes_after step.now.spec.now step.now.action step.now.args.now (V.facts step.now.view.now) clause.now) step.now.universe.now.sizes (sorts_of_vars clause.now.vars)
        (λ v. is_turned step.now.spec.now step.now.action step.now.args.now v literal.now) best result }
{
    match step.action {
        Action::Op(number) => match step.spec.operations().get(number as usize) {
            Some(operation) => better_by_effects(
                step,
                clause,
                literal,
                operation.effects.as_slice(),
                best,
            ),
            None => best,
        },
        Action::Drop(number) => match step.spec.bounds().get(number as usize) {
            Some(bound) => {
                let first = better_by_effect(
                    step,
                    clause,
                    literal,
                    &drop_effect(step.spec, bound),
                    best,
                );
                better_by_effects(step, clause, literal, bound.removes.as_slice(), first)
            }
            None => best,
        },
    }
}

// The best so far after the values under which one of the effects turns the literal false.
fn better_by_effects<V: View>(
    step: &Step<'_, V>,
    clause: &Clause,
    literal: &Literal,
    effects: &[Effect],
    best: Option<[u16; 4]>,
) -> Option<[u16; 4]>
    requires { length clause.now.vars ≤ 4 }
    ensures { Improves (passes_after step.now.spec.now step.now.action step.now.args.now (V.facts step.now.view.now) clause.now) step.now.universe.now.sizes (sorts_of_vars clause.now.vars)
        (λ v. list_any (turns step.now.spec.now step.now.args.now v literal.now) effects.now) best result }
{
    let mut least = best;
    for effect in effects {
        least = better_by_effect(step, clause, literal, effect, least);
    }
    least
}

// The best so far after the values under which the effect turns the literal false.
fn better_by_effect<V: View>(
    step: &Step<'_, V>,
    clause: &Clause,
    literal: &Literal,
    effect: &Effect,
    best: Option<[u16; 4]>,
) -> Option<[u16; 4]>
    requires { length clause.now.vars ≤ 4 }
    ensures { Improves (passes_after step.now.spec.now step.now.action step.now.args.now (V.facts step.now.view.now) clause.now) step.now.universe.now.sizes (sorts_of_vars clause.now.vars)
        (λ v. turns step.now.spec.now step.now.args.now v literal.now effect.now) best result }
{
    match pins_of(step.spec, step.args, literal, effect) {
        None => best,
        Some(pins) => earlier(best, first_pinned(step, clause, &pins, 0, [0; 4])),
    }
}

// The earlier of two lists of values, or the one that there is.
fn earlier(one: Option<[u16; 4]>, other: Option<[u16; 4]>) -> Option<[u16; 4]>
    ensures { IsEarlierOf one other result }
{
    match (one, other) {
        (None, _) => other,
        (_, None) => one,
        (Some(first), Some(second)) => {
            if second.cmp(&first).is_lt() {
                other
            } else {
                one
            }
        }
    }
}
