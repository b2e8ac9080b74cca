//! The candidates for a pair of actions, in their order.
ghost use Rattle.std.specs.Prelude.{◌≡◌, ◌≤◌, ◌&&◌, ◌==◌, ◌++◌, length, not, OnOk, IfOk};
ghost use Rattle.std.specs.List.{list_any, flat_map};
ghost use Rattle.ipa_repair.specs.Candidates.{literals_at, literals_of, same_arg, same_kind, same_effect, opposes, is_open_to, candidate_if, effect_candidates, operation_candidates, candidates_of_action, candidates_of_other, flip_of, same_action, same_candidate, with_candidate, each_once, candidates_for, candidates_of};

use crate::candidates::Candidate;
use crate::choices::push_effects_making;
use crate::counting::constants_are_few;
use ipa_spec::laws::spec_is_fit;
use ipa_spec::{Action, Arg, Effect, List, Literal, Operation, Spec};
use std::alloc::{AllocError, Global};

const MOST_EFFECTS: usize = 12;

/// The candidates for a pair of which these clauses are reported, each once.
pub(crate) fn candidates_of(
    alloc: Global,
    spec: &Spec,
    left: Action,
    right: Action,
    reported: &[u8],
) -> Result<List<Candidate>, AllocError>
    ensures { IfOk result (λ candidates. candidates ≡ candidates_of spec.now left right reported.now) }
{
    let literals = literals_of(alloc, spec, reported)?;
    let mut found = List::new(alloc);
    push_candidates_of_action(alloc, spec, left, literals.as_slice(), &mut found)?;
    push_candidates_of_other(alloc, spec, left, right, literals.as_slice(), &mut found)?;
    push_flips(literals.as_slice(), &mut found)?;
    each_once(alloc, found.as_slice())
}

// The literals of the clauses, in order.
fn literals_of(alloc: Global, spec: &Spec, reported: &[u8]) -> Result<List<Literal>, AllocError>
    ensures { IfOk result (λ literals. literals ≡ literals_of spec.now reported.now) }
{
    let mut literals = List::new(alloc);
    for number in reported {
        push_literals(spec, *number, &mut literals)?;
    }
    Ok(literals)
}

// Appends the literals of a clause.
fn push_literals(spec: &Spec, number: u8, literals: &mut List<Literal>) -> Result<(), AllocError>
    ensures { OnOk result (literals.new ≡ literals.old ++ literals_at spec.now number) }
{
    match spec.clauses().get(number as usize) {
        None => Ok(()),
        Some(clause) => push_all(clause.literals.as_slice(), literals),
    }
}

// Appends these literals.
fn push_all(added: &[Literal], literals: &mut List<Literal>) -> Result<(), AllocError>
    ensures { OnOk result (literals.new ≡ literals.old ++ added.now) }
{
    for literal in added {
        literals.push(*literal)?;
    }
    Ok(())
}

// Appends the candidates that are effects of the action.
fn push_candidates_of_action(
    alloc: Global,
    spec: &Spec,
    action: Action,
    literals: &[Literal],
    found: &mut List<Candidate>,
) -> Result<(), AllocError>
    ensures { OnOk result (found.new ≡ found.old ++ candidates_of_action spec.now action literals.now) }
{
    match action {
        Action::Drop(_) => Ok(()),
        Action::Op(number) => match spec.operations().get(number as usize) {
            None => Ok(()),
            Some(operation) => {
                spec_is_fit(spec);
                constants_are_few();
                push_operation_candidates(alloc, spec, number, operation, literals, found)
            }
        },
    }
}

// Appends those of right, where it is another action than left.
fn push_candidates_of_other(
    alloc: Global,
    spec: &Spec,
    left: Action,
    right: Action,
    literals: &[Literal],
    found: &mut List<Candidate>,
) -> Result<(), AllocError>
    ensures { OnOk result (found.new ≡ found.old ++ candidates_of_other spec.now left right literals.now) }
{
    if same_action(left, right) {
        return Ok(());
    }
    push_candidates_of_action(alloc, spec, right, literals, found)
}

// Appends the effects of an operation, for each literal in turn, where it has room for one.
fn push_operation_candidates(
    alloc: Global,
    spec: &Spec,
    number: u8,
    operation: &Operation,
    literals: &[Literal],
    found: &mut List<Candidate>,
) -> Result<(), AllocError>
    requires params { length operation.now.params ≤ 4 }
    requires constants { length spec.now.constants ≤ 32 }
    ensures { OnOk result (found.new ≡ found.old ++ operation_candidates spec.now number literals.now operation.now) }
{
    if operation.effects.len() >= MOST_EFFECTS {
        return Ok(());
    }
    push_candidates_for_all(alloc, spec, number, operation, literals, found)
}

// Appends the effects of an operation, for each literal in turn.
fn push_candidates_for_all(
    alloc: Global,
    spec: &Spec,
    number: u8,
    operation: &Operation,
    literals: &[Literal],
    found: &mut List<Candidate>,
) -> Result<(), AllocError>
    requires params { length operation.now.params ≤ 4 }
    requires constants { length spec.now.constants ≤ 32 }
    ensures { OnOk result (found.new ≡ found.old ++ flat_map (effect_candidates spec.now number operation.now) literals.now) }
{
    for literal in literals {
        push_effect_candidates(alloc, spec, number, operation, literal, found)?;
    }
    Ok(())
}

// Appends the effects of an operation for a literal.
fn push_effect_candidates(
    alloc: Global,
    spec: &Spec,
    number: u8,
    operation: &Operation,
    literal: &Literal,
    found: &mut List<Candidate>,
) -> Result<(), AllocError>
    requires params { length operation.now.params ≤ 4 }
    requires constants { length spec.now.constants ≤ 32 }
    ensures { OnOk result (found.new ≡ found.old ++ effect_candidates spec.now number operation.now literal.now) }
{
    let mut effects = List::new(alloc);
    push_effects_making(
        alloc,
        spec,
        operation.params.as_slice(),
        literal,
        &mut effects,
    )?;
    for effect in effects.as_slice() {
        push_candidate(number, operation, effect, found)?;
    }
    Ok(())
}

// Appends the effect, where it is open to the operation.
fn push_candidate(
    number: u8,
    operation: &Operation,
    effect: &Effect,
    found: &mut List<Candidate>,
) -> Result<(), AllocError>
    ensures { OnOk result (found.new ≡ found.old ++ candidate_if number operation.now effect.now) }
{
    if is_open_to(operation, effect) {
        return found.push(Candidate::Adds {
            op: number,
            effect: *effect,
        });
    }
    Ok(())
}

// Appends the flips of the rules of the fact literals' predicates.
fn push_flips(literals: &[Literal], found: &mut List<Candidate>) -> Result<(), AllocError>
    ensures { OnOk result (found.new ≡ found.old ++ flat_map flip_of literals.now) }
{
    for literal in literals {
        push_flip(literal, found)?;
    }
    Ok(())
}

// Appends the flip of the rule of a fact literal's predicate.
fn push_flip(literal: &Literal, found: &mut List<Candidate>) -> Result<(), AllocError>
    ensures { OnOk result (found.new ≡ found.old ++ flip_of literal.now) }
{
    match literal {
        Literal::Holds(atom) => found.push(Candidate::Flips {
            predicate: atom.predicate,
        }),
        Literal::Fails(atom) => found.push(Candidate::Flips {
            predicate: atom.predicate,
        }),
        Literal::Same(..) => Ok(()),
        Literal::Differ(..) => Ok(()),
    }
}

// The candidates, each at its first place.
fn each_once(alloc: Global, found: &[Candidate]) -> Result<List<Candidate>, AllocError>
    ensures { IfOk result (λ candidates. candidates ≡ each_once found.now) }
{
    let mut candidates = List::new(alloc);
    for candidate in found {
        push_once(candidate, &mut candidates)?;
    }
    Ok(candidates)
}

// Appends the candidate, where it is not among these.
fn push_once(candidate: &Candidate, candidates: &mut List<Candidate>) -> Result<(), AllocError>
    ensures { OnOk result (candidates.new ≡ with_candidate candidates.old candidate.now) }
{
    if is_among(candidate, candidates.as_slice()) {
        return Ok(());
    }
    candidates.push(*candidate)
}

fn is_among(candidate: &Candidate, candidates: &[Candidate]) -> bool
    ensures { result ≡ list_any (same_candidate candidate.now) candidates.now }
{
    candidates
        .iter()
        .any(|other| same_candidate(candidate, other))
}

fn same_candidate(one: &Candidate, other: &Candidate) -> bool
    ensures { result ≡ same_candidate one.now other.now }
{
    match (one, other) {
        (Candidate::Adds { op: m, effect: e }, Candidate::Adds { op: n, effect: f }) => {
            m == n && same_effect(e, f)
        }
        (Candidate::Flips { predicate: m }, Candidate::Flips { predicate: n }) => m == n,
        _ => false,
    }
}

/// Whether two actions are the same.
pub(crate) fn same_action(one: Action, other: Action) -> bool
    ensures { result ≡ same_action one other }
{
    match (one, other) {
        (Action::Op(m), Action::Op(n)) => m == n,
        (Action::Drop(m), Action::Drop(n)) => m == n,
        _ => false,
    }
}

// Whether the operation has neither the effect nor one that opposes it.
fn is_open_to(operation: &Operation, effect: &Effect) -> bool
    ensures { result ≡ is_open_to operation.now effect.now }
{
    !has_effect(operation, effect) && !has_opposite(operation, effect)
}

fn has_effect(operation: &Operation, effect: &Effect) -> bool
    ensures { result ≡ list_any (same_effect effect.now) operation.now.effects }
{
    let effects = operation.effects.as_slice();
    effects.iter().any(|other| same_effect(effect, other))
}

fn has_opposite(operation: &Operation, effect: &Effect) -> bool
    ensures { result ≡ list_any (opposes effect.now) operation.now.effects }
{
    let effects = operation.effects.as_slice();
    effects.iter().any(|other| opposes(effect, other))
}

// Whether one of the two adds and the other removes, on one predicate.
fn opposes(one: &Effect, other: &Effect) -> bool
    ensures { result ≡ opposes one.now other.now }
{
    !same_kind(one.add, other.add) && one.predicate == other.predicate
}

fn same_effect(one: &Effect, other: &Effect) -> bool
    ensures { result ≡ same_effect one.now other.now }
{
    same_kind(one.add, other.add)
        && one.predicate == other.predicate
        && same_arg(one.args[0], other.args[0])
        && same_arg(one.args[1], other.args[1])
        && same_arg(one.args[2], other.args[2])
}

pub(crate) fn same_kind(one: bool, other: bool) -> bool
    ensures { result ≡ same_kind one other }
{
    if one { other } else { !other }
}

fn same_arg(one: Arg, other: Arg) -> bool
    ensures { result ≡ same_arg one other }
{
    match (one, other) {
        (Arg::Var(v), Arg::Var(w)) => v == w,
        (Arg::Const(c), Arg::Const(d)) => c == d,
        (Arg::Any, Arg::Any) => true,
        _ => false,
    }
}
