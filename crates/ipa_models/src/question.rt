//! Clauses that are added to a formula for one question.
//!
//! The first six variables are made to stand for the fact literals of an instance, in clause order,
//! and those that are left over to be false. Each demand is a clause of one literal.
ghost use Rattle.std.specs.Prelude.{◌≡◌, ◌+◌, ◌<◌, ◌≤◌, ℕ, false, IfOk, OnOk, MatchOption, length};
ghost use Rattle.ipa_spec.specs.Actions.{sorts_of_vars};
ghost use Rattle.ipa_sat.specs.Formula.{value, literal_true};
ghost use Rattle.ipa_logic.specs.Facts.{IsFact};
ghost use Rattle.ipa_logic.specs.Truth.{IsOver};
ghost use Rattle.ipa_logic.specs.Touches.{is_of_fact};
ghost use Rattle.ipa_ground.specs.Enumeration.{facts_over};
ghost use Rattle.ipa_ground.specs.Instances.{ClauseFits, FactFits};
ghost use Rattle.ipa_models.specs.Models.{AreFacts, AsDemanded};
ghost use Rattle.ipa_models.specs.Questions.{state_of, IsNumbered, Adds, fact_truths, AreTied, IsLiteralFor, IsLiteralOf, TiesMore};

use crate::demands::Demand;
use ipa_ground::fact_number;
use ipa_logic::{Fact, Universe, fact_of};
use ipa_sat::{Cnf, Lit};
use ipa_spec::{Clause, Literal, Spec};
use std::alloc::AllocError;

/// Makes the first six variables stand for the fact literals of the clause's instance with these
/// values, in clause order, and false past them.
pub(crate) fn tie_literals(
    formula: &mut Cnf,
    spec: &Spec,
    universe: &Universe,
    clause: &Clause,
    values: &[u16; 4],
) -> Result<(), AllocError>
    requires numbered { IsNumbered spec.now universe.now.sizes }
    requires room { formula.old.vars ≡ 6 + length (facts_over spec.now.predicates universe.now.sizes) }
    requires fits { ClauseFits spec.now clause.now }
    requires over { IsOver universe.now.sizes (sorts_of_vars clause.now.vars) values.now }
    ensures { OnOk result (Adds (λ a. AreTied 6 a (fact_truths spec.now values.now clause.now.literals (state_of spec.now universe.now.sizes a))) formula.old formula.new) }
{
    let mut count = 0;
    for literal in clause.literals.as_slice() {
        count = tie_literal(formula, spec, universe, literal, values, count)?;
    }
    deny_from(formula, count)
}

// Makes the next of the first variables stand for the literal, if it is one of a fact, and answers
// how many of them are taken then.
fn tie_literal(
    formula: &mut Cnf,
    spec: &Spec,
    universe: &Universe,
    literal: &Literal,
    values: &[u16; 4],
    count: u32,
) -> Result<u32, AllocError>
    requires numbered { IsNumbered spec.now universe.now.sizes }
    requires room { formula.old.vars ≡ 6 + length (facts_over spec.now.predicates universe.now.sizes) }
    requires fact { FactFits spec.now universe.now.sizes values.now literal.now }
    requires few { count < 6 }
    ensures { IfOk result (λ next. TiesMore spec.now universe.now.sizes values.now literal.now count next formula.old formula.new) }
{
    match literal_of(spec, universe, literal, values) {
        None => Ok(count),
        Some(lit) => {
            tie(formula, count, lit)?;
            Ok(count + 1)
        }
    }
}

// Makes the variable stand for the literal.
fn tie(formula: &mut Cnf, var: u32, lit: Lit) -> Result<(), AllocError>
    requires var { var < formula.old.vars }
    requires lit { lit.var < formula.old.vars }
    ensures { OnOk result (Adds (λ a. value a var ≡ literal_true a lit) formula.old formula.new) }
{
    let opposite = Lit {
        var: lit.var,
        positive: !lit.positive,
    };
    formula.add_clause(&[
        Lit {
            var,
            positive: true,
        },
        opposite,
    ])?;
    formula.add_clause(&[
        Lit {
            var,
            positive: false,
        },
        lit,
    ])
}

// Makes those of the first six variables false that are left over.
fn deny_from(formula: &mut Cnf, count: u32) -> Result<(), AllocError>
    requires room { 6 ≤ formula.old.vars }
    requires few { count ≤ 6 }
    ensures { OnOk result (Adds (λ a. (j : ℕ) → count ≤ j → j < 6 → value a j ≡ false) formula.old formula.new) }
{
    for var in count..6 {
        formula.add_clause(&[Lit {
            var,
            positive: false,
        }])?;
    }
    Ok(())
}

/// Asks that the facts are true or not, as they are demanded.
pub(crate) fn ask(
    formula: &mut Cnf,
    spec: &Spec,
    universe: &Universe,
    demands: &[Demand],
) -> Result<(), AllocError>
    requires numbered { IsNumbered spec.now universe.now.sizes }
    requires room { formula.old.vars ≡ 6 + length (facts_over spec.now.predicates universe.now.sizes) }
    requires facts { AreFacts spec.now universe.now.sizes demands.now }
    ensures { OnOk result (Adds (λ a. AsDemanded (state_of spec.now universe.now.sizes a) demands.now) formula.old formula.new) }
{
    for demand in demands {
        formula.add_clause(&[literal_for(spec, universe, demand.fact, demand.holds)])?;
    }
    Ok(())
}

// The literal of the formula for a fact literal of the instance, and `None` for a comparison.
fn literal_of(spec: &Spec, universe: &Universe, literal: &Literal, values: &[u16; 4]) -> Option<Lit>
    requires numbered { IsNumbered spec.now universe.now.sizes }
    requires fact { FactFits spec.now universe.now.sizes values.now literal.now }
    ensures { MatchOption result (is_of_fact literal.now ≡ false) (λ lit. IsLiteralOf spec.now universe.now.sizes values.now literal.now lit) }
{
    match literal {
        Literal::Holds(atom) => {
            let fact = fact_of(spec, atom, values);
            Some(literal_for(spec, universe, fact, true))
        }
        Literal::Fails(atom) => {
            let fact = fact_of(spec, atom, values);
            Some(literal_for(spec, universe, fact, false))
        }
        Literal::Same(_, _) => None,
        Literal::Differ(_, _) => None,
    }
}

// The literal of the formula for a fact, or for its opposite.
fn literal_for(spec: &Spec, universe: &Universe, fact: Fact, positive: bool) -> Lit
    requires numbered { IsNumbered spec.now universe.now.sizes }
    requires fact { IsFact spec.now universe.now.sizes fact }
    ensures { IsLiteralFor spec.now universe.now.sizes fact positive result }
{
    Lit {
        var: 6 + fact_number(spec, universe, &fact),
        positive,
    }
}
