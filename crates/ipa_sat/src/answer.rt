//! The answers of the search: the first satisfying assignment, any one, or one that shows itself.

ghost use Rattle.std.specs.Prelude.{◌≡◌, ◌++◌, [], ◌∷◌, IfOk, IfSome, IfNone, drop};
ghost use Rattle.ipa_sat.specs.Formula.{IsInRange, IsLeast, IsUnsatisfiable, Satisfies};
ghost use Rattle.ipa_sat.specs.Refutation.{clauses_of};
ghost use Rattle.ipa_sat.specs.Answers.{IsAnswer};

use crate::cnf::{Cnf, Lit};
use crate::growing::Growing;
use crate::list::List;
use crate::refutation::{Solved, Step};
use crate::search::search_anew;
use std::alloc::{AllocError, Global};

/// The first assignment, in lexicographic order from variable 0 with false before true, that makes
/// each clause of the formula true; None exactly where there is none.
pub fn least(alloc: Global, cnf: &Cnf) -> Result<Option<Vec<bool>>, AllocError>
    ensures found { IfOk result (λ answer. IfSome answer (λ a. IsLeast cnf.now a.items)) }
    ensures none { IfOk result (λ answer. IfNone answer (IsUnsatisfiable cnf.now)) }
{
    let mut grown = Growing::new(alloc, cnf);
    search_anew(alloc, &mut grown)
}

/// An assignment that makes each clause of the formula true; None exactly where there is none.
pub fn solve(alloc: Global, cnf: &Cnf) -> Result<Option<Vec<bool>>, AllocError>
    ensures found { IfOk result (λ answer. IfSome answer (λ a. Satisfies cnf.now a.items)) }
    ensures none { IfOk result (λ answer. IfNone answer (IsUnsatisfiable cnf.now)) }
{
    least(alloc, cnf)
}

/// The step that is a clause.
fn step_of(alloc: Global, clause: &[Lit]) -> Result<Step, AllocError>
    ensures { IfOk result (λ step. step.lits ≡ clause.now) }
{
    Ok(Step {
        lits: List::from_vec(clause.to_vec(alloc)?),
    })
}

/// The steps that are the clauses of a formula from a place on, and at the end the empty one.
fn steps_from(alloc: Global, cnf: &Growing<'_>, from: usize) -> Result<List<Step>, AllocError>
    ensures clauses { IfOk result (λ steps. clauses_of steps ≡ drop from cnf.now.clauses ++ [] ∷ []) }
    ensures range { IfOk result (λ steps. IsInRange cnf.now.vars (clauses_of steps)) }
{
    let mut steps = List::new(alloc);
    for place in from..cnf.len() {
        let Some(clause) = cnf.clause(place) else {
            unreachable!();
        };
        steps.push(step_of(alloc, clause)?)?;
    }
    steps.push(step_of(alloc, &[])?)?;
    Ok(steps)
}

/// An assignment that makes each clause of the formula true, or a refutation where there is none.
pub fn solve_shown(alloc: Global, cnf: &Cnf) -> Result<Solved, AllocError>
    ensures { IfOk result (IsAnswer cnf.now) }
{
    let mut grown = Growing::new(alloc, cnf);
    match search_anew(alloc, &mut grown)? {
        Some(values) => Ok(Solved::Model(values)),
        None => Ok(Solved::Refuted(steps_from(alloc, &grown, cnf.len())?)),
    }
}
