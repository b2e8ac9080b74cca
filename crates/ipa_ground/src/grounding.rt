//! Clauses over a universe as a formula: one clause for each instance.
//!
//! Comparisons are decided while grounding. An instance that is true whatever the facts are adds
//! nothing: one with a true comparison, or with a fact and its opposite. A false comparison leaves
//! its instance.
ghost use Rattle.std.specs.Prelude.{◌≡◌, ◌+◌, ◌≤◌, ◌↔◌, Bool, List, length, OnOk, OnErr, IfOk, MatchOption};
ghost use Rattle.ipa_spec.specs.Actions.{sorts_of_vars};
ghost use Rattle.ipa_logic.specs.Truth.{IsOver, fact_of};
ghost use Rattle.ipa_sat.specs.Formula.{Satisfies};
ghost use Rattle.ipa_ground.specs.Enumeration.{facts_over, IsListed};
ghost use Rattle.ipa_ground.specs.Places.{AreSmall};
ghost use Rattle.ipa_ground.specs.Grounding.{Grounds, Narrows, KeepsClauses};
ghost use Rattle.ipa_ground.specs.GroundingSteps.{IsReady, IsLitOf, IsDecided, ComesTo, AreGround, IsAlwaysTrue, GroundsInstance, GroundsFrom};
ghost use Rattle.ipa_ground.specs.Instances.{FillsOver, ClauseFits, FactFits};
ghost use Rattle.ipa_logic.specs.Facts.{IsUniverse, IsFact};

use crate::disjunction::Disjunction;
use crate::numbering::{fact_count, number_from, starts};
use ipa_logic::{Universe, fact_of, has_same_value, size_of};
use ipa_sat::{Cnf, Lit};
use ipa_spec::laws::spec_is_fit;
use ipa_spec::{Atom, Clause, Literal, Spec};
use std::alloc::{AllocError, Global};

/// What a literal of an instance comes to.
#[derive(Clone, Copy)]
pub(crate) enum Ground {
    /// It is true, whatever the facts are.
    True,
    /// It is false, whatever the facts are.
    False,
    /// It is what this literal of the formula is.
    Depends(Lit),
}

// What a grounding reads, and where its facts are among the formula's variables.
#[derive(Drop)]
struct Grounder<'a> {
    spec: &'a Spec,
    universe: &'a Universe,
    starts: [u32; 33],
    first: u32,
    vars: u32,
}

/// The clauses of the specification over the universe as a formula, whose variables stand for the
/// facts over the universe, in their order. Each size is at most 16, and no less than the number of the sort's constants.
pub fn ground_clauses(alloc: Global, spec: &Spec, universe: &Universe) -> Result<Cnf, AllocError>
    requires universe { IsUniverse spec.now universe.now.sizes }
    requires sizes { AreSmall universe.now.sizes }
    ensures vars { IfOk result (λ formula. formula.vars ≡ length (facts_over spec.now.predicates universe.now.sizes)) }
    ensures satisfied { IfOk result (λ formula. (a : List Bool) → Satisfies formula a ↔ ((length a ≡ length (facts_over spec.now.predicates universe.now.sizes)) × KeepsClauses spec.now universe.now.sizes 0 a)) }
{
    let mut cnf = Cnf::new(alloc, fact_count(spec, universe));
    ground_clauses_into(&mut cnf, 0, spec, universe)?;
    Ok(cnf)
}

/// Adds the clauses of the specification over the universe to a formula, in which the variables from
/// `first` on stand for the facts over the universe, in their order. Each size is at most 16, and no
/// less than the number of the sort's constants. Where memory is wanting, some of the clauses may be
/// added.
pub fn ground_clauses_into(
    cnf: &mut Cnf,
    first: u32,
    spec: &Spec,
    universe: &Universe,
) -> Result<(), AllocError>
    requires universe { IsUniverse spec.now universe.now.sizes }
    requires sizes { AreSmall universe.now.sizes }
    requires room { first + length (facts_over spec.now.predicates universe.now.sizes) ≤ cnf.old.vars }
    requires range { first + length (facts_over spec.now.predicates universe.now.sizes) ≤ u32.MAX }
    ensures ok { OnOk result (Grounds spec.now universe.now.sizes first cnf.old cnf.new) }
    ensures refused { OnErr result (Narrows spec.now universe.now.sizes first cnf.old cnf.new) }
{
    spec_is_fit(spec);
    let grounder = Grounder {
        spec,
        universe,
        starts: starts(spec, universe),
        first,
        vars: first + fact_count(spec, universe),
    };
    for clause in spec.clauses().as_slice() {
        ground_values(&grounder, cnf, clause, 0, [0; 4])?;
    }
    Ok(())
}

// Adds the instances of the clause with these values before the place `at`.
fn ground_values(
    grounder: &Grounder,
    cnf: &mut Cnf,
    clause: &Clause,
    at: u8,
    values: [u16; 4],
) -> Result<(), AllocError>
    requires ready { IsReady grounder.now.spec.now grounder.now.universe.now.sizes grounder.now.starts grounder.now.first grounder.now.vars }
    requires room { grounder.now.vars ≤ cnf.old.vars }
    requires declared { IsListed grounder.now.spec.now.clauses clause.now }
    requires fits { ClauseFits grounder.now.spec.now clause.now }
    requires over { FillsOver grounder.now.universe.now.sizes (sorts_of_vars clause.now.vars) at values }
    ensures narrows { Narrows grounder.now.spec.now grounder.now.universe.now.sizes grounder.now.first cnf.old cnf.new }
    ensures ok { OnOk result (GroundsFrom grounder.now.spec.now grounder.now.universe.now.sizes grounder.now.first clause.now at values cnf.new) }
{
    let Some(variable) = clause.vars.get(at as usize) else {
        return ground_instance(grounder, cnf, clause, &values);
    };
    for element in 0..size_of(grounder.universe, variable.sort) {
        let mut next = values;
        next[at as usize] = element;
        ground_values(grounder, cnf, clause, at + 1, next)?;
    }
    Ok(())
}

// Adds the instance of the clause with these values, unless it is always true.
fn ground_instance(
    grounder: &Grounder,
    cnf: &mut Cnf,
    clause: &Clause,
    values: &[u16; 4],
) -> Result<(), AllocError>
    requires ready { IsReady grounder.now.spec.now grounder.now.universe.now.sizes grounder.now.starts grounder.now.first grounder.now.vars }
    requires room { grounder.now.vars ≤ cnf.old.vars }
    requires declared { IsListed grounder.now.spec.now.clauses clause.now }
    requires fits { ClauseFits grounder.now.spec.now clause.now }
    requires over { IsOver grounder.now.universe.now.sizes (sorts_of_vars clause.now.vars) values.now }
    ensures narrows { Narrows grounder.now.spec.now grounder.now.universe.now.sizes grounder.now.first cnf.old cnf.new }
    ensures ok { OnOk result (GroundsInstance grounder.now.spec.now grounder.now.universe.now.sizes grounder.now.first clause.now values.now cnf.new) }
{
    match ground_literals(grounder, clause, values) {
        None => Ok(()),
        Some(lits) => cnf.add_clause(lits.as_slice()),
    }
}

// The literals of an instance that depend on facts, or `None` where the instance is always true.
fn ground_literals(grounder: &Grounder, clause: &Clause, values: &[u16; 4]) -> Option<Disjunction>
    requires ready { IsReady grounder.now.spec.now grounder.now.universe.now.sizes grounder.now.starts grounder.now.first grounder.now.vars }
    requires fits { ClauseFits grounder.now.spec.now clause.now }
    requires over { IsOver grounder.now.universe.now.sizes (sorts_of_vars clause.now.vars) values.now }
    ensures { MatchOption result
        (IsAlwaysTrue grounder.now.spec.now grounder.now.universe.now.sizes grounder.now.first values.now clause.now.literals)
        (λ lits. AreGround grounder.now.spec.now grounder.now.universe.now.sizes grounder.now.first values.now clause.now.literals lits) }
{
    let mut lits = Disjunction::new();
    for literal in clause.literals.as_slice() {
        match ground_literal(grounder, literal, values) {
            Ground::True => return None,
            Ground::False => {}
            Ground::Depends(lit) => {
                if lits.has_opposite(lit) {
                    return None;
                }
                lits.push(lit);
            }
        }
    }
    Some(lits)
}

// What a literal of the instance comes to.
fn ground_literal(grounder: &Grounder, literal: &Literal, values: &[u16; 4]) -> Ground
    requires ready { IsReady grounder.now.spec.now grounder.now.universe.now.sizes grounder.now.starts grounder.now.first grounder.now.vars }
    requires fact { FactFits grounder.now.spec.now grounder.now.universe.now.sizes values.now literal.now }
    ensures { ComesTo grounder.now.spec.now grounder.now.universe.now.sizes grounder.now.first values.now literal.now result }
{
    match literal {
        Literal::Holds(atom) => Ground::Depends(ground_atom(grounder, atom, values, true)),
        Literal::Fails(atom) => Ground::Depends(ground_atom(grounder, atom, values, false)),
        Literal::Same(one, other) => decided(has_same_value(grounder.spec, values, *one, *other)),
        Literal::Differ(one, other) => decided(!has_same_value(
            grounder.spec,
            values,
            *one,
            *other,
        )),
    }
}

// The literal of the formula for a fact, or for its opposite.
fn ground_atom(grounder: &Grounder, atom: &Atom, values: &[u16; 4], positive: bool) -> Lit
    requires ready { IsReady grounder.now.spec.now grounder.now.universe.now.sizes grounder.now.starts grounder.now.first grounder.now.vars }
    requires fact { IsFact grounder.now.spec.now grounder.now.universe.now.sizes (fact_of grounder.now.spec.now values.now atom.now) }
    ensures { IsLitOf grounder.now.spec.now grounder.now.universe.now.sizes grounder.now.first (fact_of grounder.now.spec.now values.now atom.now) positive result }
{
    let fact = fact_of(grounder.spec, atom, values);
    Lit {
        var: grounder.first
            + number_from(grounder.spec, grounder.universe, &grounder.starts, &fact),
        positive,
    }
}

// What a comparison comes to.
fn decided(holds: bool) -> Ground
    ensures { IsDecided holds result }
{
    if holds { Ground::True } else { Ground::False }
}
