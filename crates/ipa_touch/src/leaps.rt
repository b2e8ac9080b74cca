//! Leaps over elements of a variable under which a clause is sure to be true after an action.
//!
//! An instance is true where a fact that the clause denies is false. Where the first variables decide the
//! places of such a fact before that of the next variable, the view is asked for the elements with which it
//! is true, and no others are tried. A fact that the action adds is made of the action's arguments and of
//! constants, so these are tried too, and the element 0, which stands for an argument that is not given.
ghost use Rattle.std.specs.Prelude.{◌≡◌, ◌↔◌, IsTrue, ℕ, ◌<◌, ◌≤◌, true, not, [], ◌∷◌, List, MatchOption};
ghost use Rattle.ipa_logic.specs.Facts.{has};
ghost use Rattle.ipa_spec.specs.Constants.{element_of_constant};
ghost use Rattle.ipa_logic.specs.Truth.{value_at, fact_of, literal_true};
ghost use Rattle.ipa_logic.specs.Values.{Agrees};
ghost use Rattle.ipa_touch.specs.Turns.{holds_after, passes_after};
ghost use Rattle.ipa_touch.specs.Leaps.{Leaps, IsFree};
ghost use Rattle.ipa_spec.specs.declared.constants.Term.TheVariants.{Var as Variable};

use crate::known::{first_known, second_known, third_known};
use crate::settled::is_term_decided;
use crate::step::Step;
use ipa_logic::{View, arity_of, element_of};
use ipa_spec::laws::spec_is_fit;
use ipa_spec::{Atom, Clause, Literal, Spec, Term};

// An element of the variable `at`, from `from` on, where the clause is true after the action with each
// element that is leapt over. Where a denied fact is false with all further elements it is `end`.
pub(crate) fn leap<V: View>(
    step: &Step<'_, V>,
    clause: &Clause,
    at: u8,
    values: &[u16; 4],
    from: u16,
    end: u16,
) -> u16
    ensures { Leaps (passes_after step.now.spec.now step.now.action step.now.args.now (V.facts step.now.view.now) clause.now) at values.now from result }
{
    let mut next = from;
    for literal in clause.literals.as_slice() {
        next = leap_by_literal(step, literal, at, values, next, end);
    }
    next
}

// The same where one literal is true with each element that is leapt over.
fn leap_by_literal<V: View>(
    step: &Step<'_, V>,
    literal: &Literal,
    at: u8,
    values: &[u16; 4],
    from: u16,
    end: u16,
) -> u16
    ensures { Leaps (λ v. literal_true step.now.spec.now (holds_after step.now.spec.now step.now.action step.now.args.now (V.facts step.now.view.now)) v literal.now) at values.now from result }
{
    match literal {
        Literal::Fails(atom) => leap_by_atom(step, atom, at, values, from, end),
        Literal::Holds(_) | Literal::Same(_, _) | Literal::Differ(_, _) => from,
    }
}

// The same where the atom's fact is false with each element that is leapt over.
fn leap_by_atom<V: View>(
    step: &Step<'_, V>,
    atom: &Atom,
    at: u8,
    values: &[u16; 4],
    from: u16,
    end: u16,
) -> u16
    ensures { Leaps (λ v. not (holds_after step.now.spec.now step.now.action step.now.args.now (V.facts step.now.view.now) (fact_of step.now.spec.now v atom.now))) at values.now from result }
{
    if from < past_constants(step.spec) {
        return from;
    }
    match free_place(step.spec, atom, at) {
        None => from,
        Some(place) => {
            let known = least_known(step, atom, at, place, values, from, end);
            least_arg(step.args, from, later(from, known))
        }
    }
}

// The place of the atom that has the variable `at`, where the variables before that decide the places before it.
fn free_place(spec: &Spec, atom: &Atom, at: u8) -> Option<u8>
    ensures { MatchOption result (Unit {0}) (IsFree spec.now atom.now at) }
{
    let arity = arity_of(spec, atom.predicate);
    let [first, second, third] = atom.args;
    if is_variable(first, at) && arity > 0 {
        Some(0)
    } else if is_term_decided(first, at) && is_variable(second, at) && arity > 1 {
        Some(1)
    } else if is_term_decided(first, at)
        && is_term_decided(second, at)
        && is_variable(third, at)
        && arity > 2
    {
        Some(2)
    } else {
        None
    }
}

// Whether the term is the variable of this number.
fn is_variable(term: Term, number: u8) -> bool
    ensures { IsTrue result ↔ (term ≡ Variable number) }
{
    match term {
        Term::Var(variable) => variable == number,
        Term::Const(_) => false,
    }
}

// An element past 0 and past those of all constants.
fn past_constants(spec: &Spec) -> u16
    ensures some { 0 < result }
    ensures past { (k : ℕ) → element_of_constant spec.now k < result }
{
    spec_is_fit(spec);
    if spec.constants().is_empty() { 1 } else { 4 }
}

// The least element from `from` on in the place with which the atom's fact was true, or `end`.
fn least_known<V: View>(
    step: &Step<'_, V>,
    atom: &Atom,
    at: u8,
    place: u8,
    values: &[u16; 4],
    from: u16,
    end: u16,
) -> u16
    requires some { 0 < from }
    requires free { IsFree step.now.spec.now atom.now at place }
    ensures { (v : List ℕ) → Agrees at v values.now → from ≤ value_at v at → has (V.facts step.now.view.now) (fact_of step.now.spec.now v atom.now) ≡ true → result ≤ value_at v at }
{
    let one = element_of(step.spec, values, atom.args[0]);
    let two = element_of(step.spec, values, atom.args[1]);
    match place {
        0 => first_known(step.view, atom.predicate, from, end),
        1 => second_known(step.view, atom.predicate, one, from, end),
        _ => third_known(step.view, atom.predicate, one, two, from, end),
    }
}

// The least of the arguments from `from` on and before `end`, or `end`.
fn least_arg(args: &[u16; 4], from: u16, end: u16) -> u16
    requires some { 0 < from }
    requires ordered { from ≤ end }
    ensures on { from ≤ result }
    ensures within { result ≤ end }
    ensures all { (k : ℕ) → from ≤ value_at args.now k → result ≤ value_at args.now k }
{
    let [one, two, three, four] = *args;
    let last = lower(four, from, end);
    let middle = lower(three, from, last);
    let second = lower(two, from, middle);
    lower(one, from, second)
}

// The element, where it is from `from` on and before `end`, or `end`.
fn lower(element: u16, from: u16, end: u16) -> u16
    requires { from ≤ end }
    ensures on { from ≤ result }
    ensures within { result ≤ end }
    ensures own { from ≤ element → result ≤ element }
{
    if from <= element && element < end {
        element
    } else {
        end
    }
}

// The later of two elements.
fn later(one: u16, other: u16) -> u16
    ensures on { one ≤ result }
    ensures least { (x : ℕ) → one ≤ x → other ≤ x → result ≤ x }
{
    if one < other { other } else { one }
}
