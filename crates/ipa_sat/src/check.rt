//! The check of a refutation, apart from the search.
//!
//! A step is right where its denial leads to an empty clause by unit propagation over the formula
//! and the earlier steps: from the denial on, wherever all literals of a clause but one are false,
//! that one is taken to be true, until all literals of some clause are false. Then each assignment
//! that satisfies the formula makes the step true. The last step has no literals, and nothing makes
//! it true. This file, the look at one clause and the trail are all that the check stands on.

ghost use Rattle.std.specs.Prelude.{◌≡◌, ◌<◌, ◌≤◌, ◌↔◌, ◌++◌, [], ◌∷◌, All, IfOk, OnOk, IsTrue, Some, length};
ghost use Rattle.std.specs.Bool.{OnTrue, OnFalse};
ghost use Rattle.ipa_sat.specs.Formula.{IsInRange, IsUnsatisfiable};
ghost use Rattle.ipa_sat.specs.Checking.{FindsAmong, Finds, lits, SameLiterals, DeniesMore, Clashes};
ghost use Rattle.ipa_sat.specs.Trail.{known};
ghost use Rattle.ipa_sat.specs.Refutation.{Refutes, FollowsByUnits, denials, clauses_of, IsRefutation};

use crate::cnf::{Cnf, Lit};
use crate::list::List;
use crate::look::{Status, look};
use crate::refutation::Step;
use crate::trail::{Taken, Trail};
use std::alloc::{AllocError, Global};

/// What unit propagation finds among clauses.
#[derive(Clone, Copy)]
enum Found {
    /// A clause whose literals are all false.
    Empty,
    /// A literal that is the last open one of the clause at this place.
    Takes(Lit, usize),
    /// Nothing.
    Rests,
}

/// Looks among the clauses from place `from` on up to `to` for the first that is false or forces a
/// literal.
fn find_among(cnf: &Cnf, trail: &Trail, from: usize, to: usize) -> Found
    requires vars { cnf.now.vars ≡ trail.now.vars }
    requires within { to ≤ length cnf.now.clauses }
    ensures { FindsAmong cnf.now.clauses trail.now.vars trail.now.steps from to result }
{
    for place in from..to {
        let Some(clause) = cnf.clause(place) else {
            unreachable!();
        };
        match look(clause, trail) {
            Status::Broken => return Found::Empty,
            Status::Forced(lit) => return Found::Takes(lit, place),
            Status::Open(_) => {}
        }
    }
    Found::Rests
}

/// Looks among all clauses, those from place `from` on first.
fn find(cnf: &Cnf, trail: &Trail, from: usize) -> Found
    requires { cnf.now.vars ≡ trail.now.vars }
    ensures { Finds cnf.now.clauses trail.now.vars trail.now.steps result }
{
    let count = cnf.len();
    match find_among(cnf, trail, from, count) {
        Found::Rests => find_among(cnf, trail, 0, from.min(count)),
        found => found,
    }
}

/// Whether unit propagation from the steps of a trail leads to an empty clause.
fn leads_to_empty(cnf: &Cnf, trail: &mut Trail) -> Result<bool, AllocError>
    requires { cnf.now.vars ≡ trail.old.vars }
    ensures { IfOk result (λ yes. IsTrue yes ↔ Refutes cnf.now.clauses (lits trail.old.steps)) }
{
    let mut from = 0;
    'turns: loop {
        let _steps = trail.len();
        match find(cnf, trail, from) {
            Found::Empty => return Ok(true),
            Found::Rests => return Ok(false),
            Found::Takes(lit, place) => {
                trail.push(Taken {
                    lit,
                    decided: false,
                    reason: place,
                })?;
                from = place;
            }
        }
    }
}

/// Takes the denial of a literal. Answers false where the literal is known to be true.
fn deny(trail: &mut Trail, lit: Lit) -> Result<bool, AllocError>
    requires { lit.var < trail.old.vars }
    ensures denied { IfOk result (λ fine. OnTrue fine (DeniesMore trail.old trail.new lit)) }
    ensures clash { IfOk result (λ fine. OnFalse fine (known trail.old.steps lit.var ≡ Some lit.positive)) }
    ensures vars { OnOk result (trail.new.vars ≡ trail.old.vars) }
{
    match trail.value(lit.var) {
        Some(sign) => Ok(sign != lit.positive),
        None => {
            trail.push(Taken {
                lit: lit.opposite(),
                decided: false,
                reason: 0,
            })?;
            Ok(true)
        }
    }
}

/// Takes the denial of each literal of a clause. Answers false where one of them is the opposite of another.
fn deny_all(trail: &mut Trail, clause: &[Lit]) -> Result<bool, AllocError>
    requires empty { trail.old.steps ≡ [] }
    requires range { All (λ l. l.var < trail.old.vars) clause.now }
    ensures vars { OnOk result (trail.new.vars ≡ trail.old.vars) }
    ensures taken { IfOk result (λ fine. OnTrue fine (SameLiterals (lits trail.new.steps) (denials clause.now))) }
    ensures clash { IfOk result (λ fine. OnFalse fine (Clashes (denials clause.now))) }
{
    for lit in clause {
        if !deny(trail, *lit)? {
            return Ok(false);
        }
    }
    Ok(true)
}

/// Whether the denial of a clause leads to an empty clause.
fn follows(alloc: Global, cnf: &Cnf, clause: &[Lit]) -> Result<bool, AllocError>
    requires { All (λ l. l.var < cnf.now.vars) clause.now }
    ensures { IfOk result (λ yes. IsTrue yes ↔ FollowsByUnits cnf.now.clauses clause.now) }
{
    let mut trail = Trail::new(alloc, cnf.vars())?;
    if deny_all(&mut trail, clause)? {
        leads_to_empty(cnf, &mut trail)
    } else {
        Ok(true)
    }
}

/// Whether the steps are a refutation of the formula: each follows by unit propagation from the
/// formula and the earlier steps, and the last has no literals. Then nothing satisfies the formula.
pub fn check_steps(alloc: Global, cnf: &Cnf, steps: &List<Step>) -> Result<bool, AllocError>
    requires { IsInRange cnf.now.vars (clauses_of steps.now) }
    ensures exact { IfOk result (λ yes. IsTrue yes ↔ IsRefutation cnf.now.clauses (clauses_of steps.now)) }
    ensures sound { IfOk result (λ yes. OnTrue yes (IsUnsatisfiable cnf.now)) }
{
    let mut known = cnf.copy()?;
    let mut ends = false;
    for step in steps.as_slice() {
        let clause = step.lits.as_slice();
        if !follows(alloc, &known, clause)? {
            return Ok(false);
        }
        known.add_clause(clause)?;
        ends = clause.is_empty();
    }
    Ok(ends)
}
