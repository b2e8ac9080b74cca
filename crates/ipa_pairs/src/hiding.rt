//! The facts that are hidden: those that left or right makes true.
ghost use Rattle.std.specs.Prelude.{◌≡◌, IfOk, OnOk};
ghost use Rattle.ipa_logic.specs.Facts.{has};
ghost use Rattle.ipa_pairs.specs.Examples.{fact_of_literal, is_hidden, hidden_fact, hidden_facts, with_fact};

use crate::cases::Case;
use ipa_logic::{Fact, fact_of, makes_true};
use ipa_spec::{List, Literal, Spec};
use std::alloc::{AllocError, Global};

/// The facts of those literals of the instance, in clause order, that left or right makes true, each
/// once.
pub(crate) fn hidden_facts(
    alloc: Global,
    spec: &Spec,
    case: &Case,
    literals: &[Literal],
) -> Result<List<Fact>, AllocError>
    ensures { IfOk result (λ facts. facts ≡ hidden_facts spec.now case.now.left case.now.right case.now.left_args case.now.right_args case.now.values literals.now) }
{
    let mut facts = List::new(alloc);
    for literal in literals {
        add_once(&mut facts, hidden_fact(spec, case, literal))?;
    }
    Ok(facts)
}

// Adds the fact, if there is one and it is not there.
fn add_once(facts: &mut List<Fact>, fact: Option<Fact>) -> Result<(), AllocError>
    ensures { OnOk result (facts.new ≡ with_fact facts.old fact) }
{
    match fact {
        None => Ok(()),
        Some(fact) => {
            if contains(facts.as_slice(), &fact) {
                Ok(())
            } else {
                facts.push(fact)
            }
        }
    }
}

// The fact of a literal that left or right makes true.
fn hidden_fact(spec: &Spec, case: &Case, literal: &Literal) -> Option<Fact>
    ensures { result ≡ hidden_fact spec.now case.now.left case.now.right case.now.left_args case.now.right_args case.now.values literal.now }
{
    if is_hidden(spec, case, literal) {
        fact_of_literal(spec, &case.values, literal)
    } else {
        None
    }
}

// Whether left or right makes the literal true.
fn is_hidden(spec: &Spec, case: &Case, literal: &Literal) -> bool
    ensures { result ≡ is_hidden spec.now case.now.left case.now.right case.now.left_args case.now.right_args case.now.values literal.now }
{
    makes_true(spec, case.left, &case.left_args, &case.values, literal)
        || makes_true(spec, case.right, &case.right_args, &case.values, literal)
}

// The fact of a fact literal.
fn fact_of_literal(spec: &Spec, values: &[u16; 4], literal: &Literal) -> Option<Fact>
    ensures { result ≡ fact_of_literal spec.now values.now literal.now }
{
    match literal {
        Literal::Holds(atom) => Some(fact_of(spec, atom, values)),
        Literal::Fails(atom) => Some(fact_of(spec, atom, values)),
        Literal::Same(..) => None,
        Literal::Differ(..) => None,
    }
}

// Whether the fact is among these.
fn contains(facts: &[Fact], fact: &Fact) -> bool
    ensures { result ≡ has facts.now fact.now }
{
    facts.iter().any(|other| fact.cmp(other).is_eq())
}
