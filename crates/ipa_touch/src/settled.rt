//! Whether the first variables alone make an instance true.
ghost use Rattle.std.specs.Prelude.{◌≡◌, ◌<◌};
ghost use Rattle.ipa_touch.specs.Turns.{holds_after};
ghost use Rattle.ipa_touch.specs.Decided.{is_term_decided, is_place_decided, is_atom_decided, is_decided, is_settled};

use crate::step::{Step, literal_holds_after};
use ipa_logic::{View, arity_of};
use ipa_spec::{Atom, Clause, Literal, Spec, Term};

// Whether some literal is true after the action whatever the values from the place `at` on are.
pub(crate) fn is_settled<V: View>(
    step: &Step<'_, V>,
    clause: &Clause,
    at: u8,
    values: &[u16; 4],
) -> bool
    ensures { result ≡ is_settled step.now.spec.now at (holds_after step.now.spec.now step.now.action step.now.args.now (V.facts step.now.view.now)) values.now clause.now }
{
    clause.literals.as_slice().iter().any(|literal| is_decided(step.spec, literal, at)
        && literal_holds_after(step, literal, values))
}

// Whether the first `at` variables decide all terms of the literal.
fn is_decided(spec: &Spec, literal: &Literal, at: u8) -> bool
    ensures { result ≡ is_decided spec.now at literal.now }
{
    match literal {
        Literal::Holds(atom) | Literal::Fails(atom) => is_atom_decided(spec, atom, at),
        Literal::Same(one, other) | Literal::Differ(one, other) => {
            is_term_decided(*one, at) && is_term_decided(*other, at)
        }
    }
}

// Whether they decide all places of the atom.
fn is_atom_decided(spec: &Spec, atom: &Atom, at: u8) -> bool
    ensures { result ≡ is_atom_decided spec.now at atom.now }
{
    is_place_decided(spec, atom, 0, at)
        && is_place_decided(spec, atom, 1, at)
        && is_place_decided(spec, atom, 2, at)
}

// Whether the place is past the arity, or they decide its term.
fn is_place_decided(spec: &Spec, atom: &Atom, place: usize, at: u8) -> bool
    requires { place < 3 }
    ensures { result ≡ is_place_decided spec.now at atom.now place }
{
    place >= arity_of(spec, atom.predicate) as usize || is_term_decided(atom.args[place], at)
}

// Whether the term is one of the first `at` variables, or a constant.
pub(crate) fn is_term_decided(term: Term, at: u8) -> bool
    ensures { result ≡ is_term_decided at term }
{
    match term {
        Term::Var(variable) => variable < at,
        Term::Const(_) => true,
    }
}
