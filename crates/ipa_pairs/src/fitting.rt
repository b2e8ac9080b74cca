//! The first state that an action can have left, with a literal as it is wanted.
ghost use Rattle.std.specs.Prelude.{◌≡◌, ◌↔◌, Bool, List as Items, IfOk, MatchOption};
ghost use Rattle.ipa_spec.specs.Actions.{sorts_of, sorts_of_vars};
ghost use Rattle.ipa_spec.specs.Fits.{IsFit};
ghost use Rattle.ipa_logic.specs.Facts.{IsUniverse};
ghost use Rattle.ipa_logic.specs.Truth.{IsOver};
ghost use Rattle.ipa_logic.specs.declared.facts.Fact.{Fact as TheFact};
ghost use Rattle.ipa_ground.specs.Enumeration.{IsListed};
ghost use Rattle.ipa_pairs.specs.Asked.{IsFitting, IsFirstFitting};

use crate::gathering::{asks_of_fitting, demands_of};
use ipa_logic::State;
use ipa_models::Models;
use ipa_spec::laws::spec_is_fit;
use ipa_spec::{Action, Clause, Literal, Spec};
use std::alloc::{AllocError, Global};

/// The first state over the universe of the models that keeps all clauses, can stand after the
/// action, and in which the literal is as it is wanted, if anything is wanted of it; `None` where
/// there is none.
pub(crate) fn first_fitting(
    alloc: Global,
    spec: &Spec,
    models: &Models,
    action: Action,
    args: &[u16; 4],
    clause: &Clause,
    values: &[u16; 4],
    literal: &Literal,
    wanted: Option<bool>,
) -> Result<Option<State>, AllocError>
    requires spec { models.now.spec ≡ spec.now }
    requires universe { IsUniverse spec.now models.now.universe }
    requires args { IsOver models.now.universe (sorts_of spec.now action) args.now }
    requires declared { IsListed spec.now.clauses clause.now }
    requires values { IsOver models.now.universe (sorts_of_vars clause.now.vars) values.now }
    requires literal { IsListed clause.now.literals literal.now }
    ensures { IfOk result (λ found. MatchOption found
        ((state : Items TheFact) → IsFitting spec.now models.now.universe action args.now values.now literal.now wanted state → ⊥)
        (λ state. IsFirstFitting spec.now models.now.universe action args.now values.now clause.now.literals literal.now wanted state)) }
{
    spec_is_fit(spec);
    let asks = asks_of_fitting(
        alloc,
        spec,
        models.facts(),
        action,
        args,
        values,
        literal,
        wanted,
    )?;
    match demands_of(alloc, asks.as_slice())? {
        None => Ok(None),
        Some(demands) => models.first(alloc, clause, values, demands.as_slice()),
    }
}
