//! Formulas and steps written as text: variable 0 is 1 and its opposite -1, and a 0 ends each clause.

ghost use Rattle.std.specs.Prelude.{◌≡◌, ◌<◌, ◌↔◌, All, IfOk, IsTrue};
ghost use Rattle.std.specs.Bool.{OnTrue};
ghost use Rattle.ipa_sat.specs.Formula.{IsInRange};
ghost use Rattle.ipa_sat.specs.Refutation.{clauses_of};

use ipa_sat::{Cnf, List, Lit, Step, check_steps};
use std::alloc::{AllocError, Global};

/// The literal of a number that is not 0.
fn lit_of(number: i32) -> Lit {
    Lit {
        var: number.unsigned_abs().saturating_sub(1),
        positive: number > 0,
    }
}

/// The steps of a text.
pub fn steps_of(alloc: Global, text: &str) -> Result<List<Step>, AllocError> {
    let mut steps = List::new(alloc);
    let mut lits = List::new(alloc);
    for word in text.split_whitespace() {
        match word.parse::<i32>() {
            Ok(0) | Err(_) => {
                steps.push(Step { lits })?;
                lits = List::new(alloc);
            }
            Ok(number) => lits.push(lit_of(number))?,
        }
    }
    Ok(steps)
}

/// Whether each literal is of one of `vars` variables.
fn are_over(lits: &[Lit], vars: u32) -> bool
    ensures { IsTrue result ↔ All (λ l. l.var < vars) lits.now }
{
    lits.iter().all(|lit| lit.var < vars)
}

/// Whether the literals of each step are.
fn are_steps_over(steps: &[Step], vars: u32) -> bool
    ensures { IsTrue result ↔ All (λ s. All (λ l. l.var < vars) s.lits) steps.now }
{
    steps
        .iter()
        .all(|step| are_over(step.lits.as_slice(), vars))
}

/// The formula whose clauses are the steps of a text, as far as they are over its variables.
pub fn formula(alloc: Global, vars: u32, text: &str) -> Result<Cnf, AllocError> {
    let mut cnf = Cnf::new(alloc, vars);
    let steps = steps_of(alloc, text)?;
    for step in steps.as_slice() {
        add(&mut cnf, step.lits.as_slice())?;
    }
    Ok(cnf)
}

/// Adds a clause, if it is over the formula's variables.
pub fn add(cnf: &mut Cnf, lits: &[Lit]) -> Result<(), AllocError> {
    if are_over(lits, cnf.vars()) {
        cnf.add_clause(lits)?;
    }
    Ok(())
}

/// Whether steps over the formula's variables are a refutation of it.
pub fn are_shown(alloc: Global, cnf: &Cnf, steps: &List<Step>) -> Result<bool, AllocError> {
    if are_steps_over(steps.as_slice(), cnf.vars()) {
        check_steps(alloc, cnf, steps)
    } else {
        Ok(false)
    }
}
