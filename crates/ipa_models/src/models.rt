//! The states over a small universe that keep all clauses.
//!
//! The clauses are grounded once for a universe: the formula's variables from 6 on stand for the
//! facts over it, in order. For each question the first six variables are made to stand for the
//! fact literals of an instance, in clause order, and the demands are added as clauses of one
//! literal. The least assignment is then the first state in the order of the truths of the
//! instance's fact literals and of all facts.
ghost use Rattle.std.specs.Prelude.{◌≡◌, IfOk, MatchOption};
ghost use Rattle.ipa_spec.specs.Actions.{sorts_of_vars};
ghost use Rattle.ipa_ground.specs.Enumeration.{IsListed, facts_over};
ghost use Rattle.ipa_ground.specs.Places.{AreSmall};
ghost use Rattle.ipa_logic.specs.Facts.{IsUniverse};
ghost use Rattle.ipa_logic.specs.Truth.{IsOver};
ghost use Rattle.ipa_models.specs.Models.{AreFacts, Meets, IsFirstMeeting};
ghost use Rattle.ipa_models.specs.Questions.{IsQuestion};

use crate::answer::state_of;
use crate::demands::Demand;
use crate::enumeration::facts_over;
use crate::question::{ask, tie_literals};
use ipa_ground::{fact_count, ground_clauses_into};
use ipa_logic::{Fact, State, Universe};
use ipa_sat::{Cnf, least};
use ipa_spec::laws::spec_is_fit;
use ipa_spec::{Clause, List, Spec};
use std::alloc::{AllocError, Global};
use std::marker::Model;

/// The states over a universe that keep all clauses of a specification.
#[derive(Drop)]
pub struct Models<'a> {
    spec: &'a Spec,
    universe: Universe,
    facts: List<Fact>,
    formula: Cnf,
}

impl<'a> Model for Models<'a> {
    ghost use Rattle.ipa_models.specs.Models.{Setting};
    ghost use Rattle.ipa_models.specs.Questions.{IsGrounded};

    ghost Value = { Setting };

    ghost view = { λ a. record { spec = a.spec.now; universe = a.universe.sizes } };

    ghost invariant = { λ a. IsGrounded a.spec.now a.universe.sizes a.facts a.formula };
}

impl<'a> Models<'a> {
    /// The states over the universe that keep all clauses of the specification. Each size is at most 16, and no less
    /// than the number of the sort's constants.
    pub fn new(alloc: Global, spec: &'a Spec, universe: Universe) -> Result<Models<'a>, AllocError>
        requires universe { IsUniverse spec.now universe.sizes }
        requires small { AreSmall universe.sizes }
        ensures { IfOk result (λ models. models ≡ record { spec = spec.now; universe = universe.sizes }) }
    {
        spec_is_fit(spec);
        let facts = facts_over(alloc, spec, &universe)?;
        let mut formula = Cnf::new(alloc, 6 + fact_count(spec, &universe));
        ground_clauses_into(&mut formula, 6, spec, &universe)?;
        Ok(Models {
            spec,
            universe,
            facts,
            formula,
        })
    }

    /// All facts over the universe, in order.
    pub fn facts(&self) -> &[Fact]
        ensures { result.now ≡ facts_over self.now.spec.predicates self.now.universe }
    {
        self.facts.as_slice()
    }

    /// The first state over the universe that keeps all clauses and meets the demands, and `None`
    /// where there is none. States are ordered by the truth of the fact literals of the clause's
    /// instance with these values, in clause order, and then by that of all facts, in order, false
    /// before true.
    pub fn first(
        &self,
        alloc: Global,
        clause: &Clause,
        values: &[u16; 4],
        demands: &[Demand],
    ) -> Result<Option<State>, AllocError>
        requires declared { IsListed self.now.spec.clauses clause.now }
        requires values { IsOver self.now.universe (sorts_of_vars clause.now.vars) values.now }
        requires facts { AreFacts self.now.spec self.now.universe demands.now }
        ensures { IfOk result (λ found. MatchOption found
            ((state : List Fact) → Meets self.now.spec self.now.universe demands.now state → ⊥)
            (λ state. IsFirstMeeting self.now.spec self.now.universe values.now clause.now.literals demands.now state)) }
    {
        let question = self.question(clause, values, demands)?;
        match least(alloc, &question)? {
            None => Ok(None),
            Some(assignment) => Ok(Some(state_of(alloc, self.facts(), assignment.as_slice())?)),
        }
    }

    // The formula that asks for the states that keep all clauses and meet the demands.
    fn question(
        &self,
        clause: &Clause,
        values: &[u16; 4],
        demands: &[Demand],
    ) -> Result<Cnf, AllocError>
        requires declared { IsListed self.now.spec.clauses clause.now }
        requires values { IsOver self.now.universe (sorts_of_vars clause.now.vars) values.now }
        requires facts { AreFacts self.now.spec self.now.universe demands.now }
        ensures { IfOk result (λ question. IsQuestion self.now.spec self.now.universe values.now clause.now.literals demands.now question) }
    {
        let mut formula = self.formula.copy()?;
        tie_literals(&mut formula, self.spec, &self.universe, clause, values)?;
        ask(&mut formula, self.spec, &self.universe, demands)?;
        Ok(formula)
    }
}
