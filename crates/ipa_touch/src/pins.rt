//! What an effect says of the values of an instance one of whose literals it turns false.
ghost use Rattle.std.specs.Prelude.{◌≡◌, ◌==◌, ◌<◌, ℕ, true, false, List, MatchOption};
ghost use Rattle.ipa_spec.specs.declared.specification.Specification.{Specification};
ghost use Rattle.ipa_logic.specs.Truth.{value_at, element_of, fact_of};
ghost use Rattle.ipa_logic.specs.Touches.{stands_for, matches_at, matches};
ghost use Rattle.ipa_touch.specs.Turns.{turns};
ghost use Rattle.ipa_touch.specs.Searches.{Fits};

use ipa_logic::{arity_of, element_of_constant, value_at};
use ipa_spec::{Arg, Atom, Effect, Literal, Spec, Term};

// The elements that the variables have wherever the effect turns the literal false, or `None` where it never does.
pub(crate) fn pins_of(
    spec: &Spec,
    args: &[u16; 4],
    literal: &Literal,
    effect: &Effect,
) -> Option<[Option<u16>; 4]>
    ensures { MatchOption result
        ((v : List ℕ) → turns spec.now args.now v literal.now effect.now ≡ false)
        (λ pins. (v : List ℕ) → turns spec.now args.now v literal.now effect.now ≡ true → Fits pins v) }
{
    let atom = turned_atom(literal, effect)?;
    if atom.predicate != effect.predicate {
        return None;
    }
    pins_of_atom(spec, args, &atom, effect)
}

// The atom of the literal, where an effect of this kind may turn such a literal false.
fn turned_atom(literal: &Literal, effect: &Effect) -> Option<Atom>
    ensures { MatchOption result
        ((s : Specification) (args v : List ℕ) → turns s args v literal.now effect.now ≡ false)
        (λ atom. (s : Specification) (args v : List ℕ) → turns s args v literal.now effect.now ≡ true → matches s args effect.now (fact_of s v atom) ≡ true) }
{
    match literal {
        Literal::Holds(atom) => { if effect.add { None } else { Some(*atom) } }
        Literal::Fails(atom) => { if effect.add { Some(*atom) } else { None } }
        Literal::Same(_, _) | Literal::Differ(_, _) => None,
    }
}

// The elements that the variables of the atom have where the effect matches its fact, or `None` where it never does.
fn pins_of_atom(
    spec: &Spec,
    args: &[u16; 4],
    atom: &Atom,
    effect: &Effect,
) -> Option<[Option<u16>; 4]>
    ensures { MatchOption result
        ((v : List ℕ) → matches spec.now args.now effect.now (fact_of spec.now v atom.now) ≡ false)
        (λ pins. (v : List ℕ) → matches spec.now args.now effect.now (fact_of spec.now v atom.now) ≡ true → Fits pins v) }
{
    let first = with_place(spec, args, atom, effect, [None; 4], 0)?;
    let second = with_place(spec, args, atom, effect, first, 1)?;
    with_place(spec, args, atom, effect, second, 2)
}

// The pins, and one more where the effect fixes the element in this place of the atom's fact, or `None` where it
// fixes another one than a constant's.
fn with_place(
    spec: &Spec,
    args: &[u16; 4],
    atom: &Atom,
    effect: &Effect,
    pins: [Option<u16>; 4],
    place: usize,
) -> Option<[Option<u16>; 4]>
    requires { place < 3 }
    ensures { MatchOption result
        ((v : List ℕ) → matches_at spec.now args.now effect.now (fact_of spec.now v atom.now) place ≡ false)
        (λ next. (v : List ℕ) → Fits pins v → matches_at spec.now args.now effect.now (fact_of spec.now v atom.now) place ≡ true → Fits next v) }
{
    if place >= arity_of(spec, atom.predicate) as usize {
        return Some(pins);
    }
    match element_fixed(spec, args, effect.args[place]) {
        None => Some(pins),
        Some(element) => with_element(spec, pins, atom.args[place], element),
    }
}

// The element that an argument of an effect stands for, or `None` for a `*`.
fn element_fixed(spec: &Spec, args: &[u16; 4], arg: Arg) -> Option<u16>
    ensures { result ≡ stands_for spec.now args.now arg }
{
    match arg {
        Arg::Var(parameter) => Some(value_at(args, parameter)),
        Arg::Const(constant) => Some(element_of_constant(spec, constant)),
        Arg::Any => None,
    }
}

// The pins, and one more where the term that is to stand for the element is a variable, or `None` where it is a
// constant that stands for another one.
fn with_element(
    spec: &Spec,
    pins: [Option<u16>; 4],
    term: Term,
    element: u16,
) -> Option<[Option<u16>; 4]>
    ensures { MatchOption result
        ((v : List ℕ) → (element == element_of spec.now v term) ≡ false)
        (λ next. (v : List ℕ) → Fits pins v → (element == element_of spec.now v term) ≡ true → Fits next v) }
{
    match term {
        Term::Var(variable) => Some(with_pin(pins, variable, element)),
        Term::Const(constant) => {
            if element == element_of_constant(spec, constant) {
                Some(pins)
            } else {
                None
            }
        }
    }
}

// The pins, and the variable pinned to the element.
fn with_pin(pins: [Option<u16>; 4], variable: u8, element: u16) -> [Option<u16>; 4]
    ensures { (v : List ℕ) → Fits pins v → (element == value_at v variable) ≡ true → Fits result v }
{
    let mut next = pins;
    if (variable as usize) < next.len() {
        next[variable as usize] = Some(element);
    }
    next
}
