//! What an action makes of the literals of an instance, and which actions could break it.
ghost use Rattle.std.specs.Prelude.{◌≡◌, ◌&&◌, ◌||◌, ◌==◌, not};
ghost use Rattle.std.specs.List.{list_any};
ghost use Rattle.ipa_spec.specs.Actions.{effects_of, drop_effects};
ghost use Rattle.ipa_logic.specs.Truth.{fact_of, same_value};
ghost use Rattle.ipa_logic.specs.Touches.{adds, removes, makes_true, makes_false, wins, loses, is_of_fact, has_rule, is_add_wins};
ghost use Rattle.ipa_logic.specs.Conflicts.{is_true_comparison, denies, is_denied_by, is_undecided, falsifies_some, makes_winner_true, can_falsify, can_be_falsified, can_break, is_live};

use crate::effects::{drop_effect, effect_on};
use crate::facts::{Fact, Touch};
use crate::literals::{fact_of, has_same_value};
use ipa_spec::{Action, Atom, Bound, Clause, Effect, Literal, Rule, Spec};

/// Whether the action makes the literal true.
pub fn makes_true(
    spec: &Spec,
    action: Action,
    args: &[u16; 4],
    values: &[u16; 4],
    literal: &Literal,
) -> bool
    ensures { result ≡ makes_true spec.now action args.now values.now literal.now }
{
    match literal {
        Literal::Holds(atom) => is_added(spec, action, args, &fact_of(spec, atom, values)),
        Literal::Fails(atom) => is_removed(spec, action, args, &fact_of(spec, atom, values)),
        Literal::Same(..) => false,
        Literal::Differ(..) => false,
    }
}

/// Whether the action makes the literal false.
pub fn makes_false(
    spec: &Spec,
    action: Action,
    args: &[u16; 4],
    values: &[u16; 4],
    literal: &Literal,
) -> bool
    ensures { result ≡ makes_false spec.now action args.now values.now literal.now }
{
    match literal {
        Literal::Holds(atom) => is_removed(spec, action, args, &fact_of(spec, atom, values)),
        Literal::Fails(atom) => is_added(spec, action, args, &fact_of(spec, atom, values)),
        Literal::Same(..) => false,
        Literal::Differ(..) => false,
    }
}

fn is_added(spec: &Spec, action: Action, args: &[u16; 4], fact: &Fact) -> bool
    ensures { result ≡ adds spec.now action args.now fact.now }
{
    effect_on(spec, action, args, fact) == Touch::Adds
}

fn is_removed(spec: &Spec, action: Action, args: &[u16; 4], fact: &Fact) -> bool
    ensures { result ≡ removes spec.now action args.now fact.now }
{
    effect_on(spec, action, args, fact) == Touch::Removes
}

/// Whether the action makes some literal false.
pub fn falsifies_some(
    spec: &Spec,
    action: Action,
    args: &[u16; 4],
    values: &[u16; 4],
    literals: &[Literal],
) -> bool
    ensures { result ≡ falsifies_some spec.now action args.now values.now literals.now }
{
    literals
        .iter()
        .any(|literal| makes_false(spec, action, args, values, literal))
}

/// Whether the action makes a winning literal true.
pub fn makes_winner_true(
    spec: &Spec,
    action: Action,
    args: &[u16; 4],
    values: &[u16; 4],
    literals: &[Literal],
) -> bool
    ensures { result ≡ makes_winner_true spec.now action args.now values.now literals.now }
{
    literals.iter().any(|literal| wins(spec, literal)
        && makes_true(spec, action, args, values, literal))
}

/// Whether making the literal true is the winning effect of its predicate.
pub fn wins(spec: &Spec, literal: &Literal) -> bool
    ensures { result ≡ wins spec.now literal.now }
{
    match literal {
        Literal::Holds(atom) => is_add_wins(spec, atom),
        Literal::Fails(atom) => is_remove_wins(spec, atom),
        Literal::Same(..) => false,
        Literal::Differ(..) => false,
    }
}

/// Whether it is a fact literal that does not win.
pub fn loses(spec: &Spec, literal: &Literal) -> bool
    ensures { result ≡ loses spec.now literal.now }
{
    is_of_fact(literal) && !wins(spec, literal)
}

fn is_of_fact(literal: &Literal) -> bool
    ensures { result ≡ is_of_fact literal.now }
{
    match literal {
        Literal::Holds(_) => true,
        Literal::Fails(_) => true,
        Literal::Same(..) => false,
        Literal::Differ(..) => false,
    }
}

/// Whether no comparison of the instance is true, and no literal stands beside its opposite.
pub fn is_undecided(spec: &Spec, values: &[u16; 4], literals: &[Literal]) -> bool
    ensures { result ≡ is_undecided spec.now values.now literals.now }
{
    !has_true_comparison(spec, values, literals) && !has_denied(spec, values, literals)
}

fn has_true_comparison(spec: &Spec, values: &[u16; 4], literals: &[Literal]) -> bool
    ensures { result ≡ list_any (is_true_comparison spec.now values.now) literals.now }
{
    literals
        .iter()
        .any(|literal| is_true_comparison(spec, values, literal))
}

fn is_true_comparison(spec: &Spec, values: &[u16; 4], literal: &Literal) -> bool
    ensures { result ≡ is_true_comparison spec.now values.now literal.now }
{
    match literal {
        Literal::Holds(_) => false,
        Literal::Fails(_) => false,
        Literal::Same(one, other) => has_same_value(spec, values, *one, *other),
        Literal::Differ(one, other) => !has_same_value(spec, values, *one, *other),
    }
}

fn has_denied(spec: &Spec, values: &[u16; 4], literals: &[Literal]) -> bool
    ensures { result ≡ list_any (is_denied_by spec.now values.now literals.now) literals.now }
{
    literals
        .iter()
        .any(|literal| is_denied_by(spec, values, literals, literal))
}

fn is_denied_by(spec: &Spec, values: &[u16; 4], literals: &[Literal], literal: &Literal) -> bool
    ensures { result ≡ is_denied_by spec.now values.now literals.now literal.now }
{
    match literal {
        Literal::Holds(atom) => is_denied(spec, values, literals, atom),
        Literal::Fails(_) => false,
        Literal::Same(..) => false,
        Literal::Differ(..) => false,
    }
}

fn is_denied(spec: &Spec, values: &[u16; 4], literals: &[Literal], atom: &Atom) -> bool
    ensures { result ≡ list_any (denies spec.now values.now atom.now) literals.now }
{
    literals
        .iter()
        .any(|literal| denies(spec, values, atom, literal))
}

fn denies(spec: &Spec, values: &[u16; 4], atom: &Atom, literal: &Literal) -> bool
    ensures { result ≡ denies spec.now values.now atom.now literal.now }
{
    match literal {
        Literal::Holds(_) => false,
        Literal::Fails(other) => fact_of(spec, atom, values)
            .cmp(&fact_of(spec, other, values))
            .is_eq(),
        Literal::Same(..) => false,
        Literal::Differ(..) => false,
    }
}

/// Whether some action of the specification has an effect of the kind that makes such a literal false.
pub fn can_be_falsified(spec: &Spec, literal: &Literal) -> bool
    ensures { result ≡ can_be_falsified spec.now literal.now }
{
    some_operation_can(spec, literal) || some_drop_can(spec, literal)
}

fn some_operation_can(spec: &Spec, literal: &Literal) -> bool
    ensures { result ≡ list_any (λ o. list_any (can_falsify literal.now) o.effects) spec.now.operations }
{
    spec.operations().as_slice().iter().any(|operation| some_can(
        operation.effects.as_slice(),
        literal,
    ))
}

fn some_drop_can(spec: &Spec, literal: &Literal) -> bool
    ensures { result ≡ list_any (λ b. list_any (can_falsify literal.now) (drop_effects spec.now.predicates b)) spec.now.bounds }
{
    spec.bounds()
        .as_slice()
        .iter()
        .any(|bound| drop_can(spec, bound, literal))
}

fn drop_can(spec: &Spec, bound: &Bound, literal: &Literal) -> bool
    ensures { result ≡ list_any (can_falsify literal.now) (drop_effects spec.now.predicates bound.now) }
{
    can_falsify(literal, &drop_effect(spec, bound)) || some_can(bound.removes.as_slice(), literal)
}

// Whether one of the action's effects is of the kind that makes such a literal false.
fn action_can(spec: &Spec, action: Action, literal: &Literal) -> bool
    ensures { result ≡ list_any (can_falsify literal.now) (effects_of spec.now action) }
{
    match action {
        Action::Op(number) => match spec.operations().get(number as usize) {
            Some(operation) => some_can(operation.effects.as_slice(), literal),
            None => false,
        },
        Action::Drop(number) => match spec.bounds().get(number as usize) {
            Some(bound) => drop_can(spec, bound, literal),
            None => false,
        },
    }
}

// Whether one of the effects is of the kind that makes such a literal false.
fn some_can(effects: &[Effect], literal: &Literal) -> bool
    ensures { result ≡ list_any (can_falsify literal.now) effects.now }
{
    effects.iter().any(|effect| can_falsify(literal, effect))
}

fn can_falsify(literal: &Literal, effect: &Effect) -> bool
    ensures { result ≡ can_falsify literal.now effect.now }
{
    match literal {
        Literal::Holds(atom) => !effect.add && effect.predicate == atom.predicate,
        Literal::Fails(atom) => effect.add && effect.predicate == atom.predicate,
        Literal::Same(..) => false,
        Literal::Differ(..) => false,
    }
}

/// Whether the action has an effect that, by its predicate and kind, makes a literal of the clause's form false.
pub fn can_break(spec: &Spec, action: Action, clause: &Clause) -> bool
    ensures { result ≡ can_break spec.now action clause.now }
{
    clause
        .literals
        .as_slice()
        .iter()
        .any(|literal| action_can(spec, action, literal))
}

/// Whether each of the two actions has such an effect.
pub fn is_live(spec: &Spec, left: Action, right: Action, clause: &Clause) -> bool
    ensures { result ≡ is_live spec.now left right clause.now }
{
    can_break(spec, left, clause) && can_break(spec, right, clause)
}

// Whether an add on the atom's predicate prevails over a concurrent remove.
fn is_add_wins(spec: &Spec, atom: &Atom) -> bool
    ensures { result ≡ has_rule is_add_wins spec.now atom.now.predicate }
{
    match spec.predicates().get(atom.predicate as usize) {
        Some(predicate) => predicate.rule == Rule::AddWins,
        None => false,
    }
}

// Whether a remove on the atom's predicate prevails over a concurrent add.
fn is_remove_wins(spec: &Spec, atom: &Atom) -> bool
    ensures { result ≡ has_rule (λ rule. not (is_add_wins rule)) spec.now atom.now.predicate }
{
    match spec.predicates().get(atom.predicate as usize) {
        Some(predicate) => predicate.rule == Rule::RemoveWins,
        None => false,
    }
}
