//! Learned clauses.

ghost use Rattle.std.specs.Prelude.{◌≡◌, ◌<◌, ◌++◌, [], ◌∷◌, true, All, IfOk, OnOk, IfSome, IfNone, slice_get, take, IsTrue};
ghost use Rattle.ipa_sat.specs.Refutation.{has, FollowsByUnits};
ghost use Rattle.ipa_sat.specs.Trail.{EachStep};
ghost use Rattle.ipa_sat.specs.Looking.{are_false};
ghost use Rattle.ipa_sat.specs.Explaining.{HasReason, Gathers, Resolves, IsLearned, IsFree, Jumps};

use crate::cnf::Lit;
use crate::growing::Growing;
use crate::trail::Trail;
use std::alloc::{AllocError, Global};

/// A learned clause, and the literal that it forces.
#[derive(Drop)]
pub(crate) struct Learned {
    pub clause: Vec<Lit>,
    pub lit: Lit,
}

/// Whether a literal is among others.
pub(crate) fn contains(lits: &[Lit], lit: Lit) -> bool
    ensures { result ≡ has lits.now lit }
{
    lits.iter().any(|m| *m == lit)
}

/// Puts a literal to others, if it is not this one and not among them.
fn gather_one(into: &mut Vec<Lit>, lit: Lit, but: Lit) -> Result<(), AllocError>
    ensures { OnOk result (Gathers (lit ∷ []) but into.old.items into.new.items) }
{
    if but == lit || contains(into.as_slice(), lit) {
        return Ok(());
    }
    into.push(lit)?;
    Ok(())
}

/// Puts the literals of a clause but one to others.
fn gather(into: &mut Vec<Lit>, from: &[Lit], but: Lit) -> Result<(), AllocError>
    ensures { OnOk result (Gathers from.now but into.old.items into.new.items) }
{
    for lit in from {
        gather_one(into, *lit, but)?;
    }
    Ok(())
}

/// Puts a literal to others, if it is not this one.
fn push_but(into: &mut Vec<Lit>, lit: Lit, but: Lit) -> Result<(), AllocError>
    ensures { OnOk result (Gathers (lit ∷ []) but into.old.items into.new.items) }
{
    if but != lit {
        into.push(lit)?;
    }
    Ok(())
}

/// The literals of a clause but one, with room for so many more.
fn without(alloc: Global, clause: &[Lit], but: Lit, more: usize) -> Result<Vec<Lit>, AllocError>
    ensures { IfOk result (λ new. Gathers clause.now but [] new.items) }
{
    let mut new = Vec::with_capacity(alloc, clause.len().saturating_add(more))?;
    for lit in clause {
        push_but(&mut new, *lit, but)?;
    }
    Ok(new)
}

/// The resolvent of two clauses on a literal of the second.
fn resolve(alloc: Global, clause: &[Lit], reason: &[Lit], lit: Lit) -> Result<Vec<Lit>, AllocError>
    ensures { IfOk result (λ new. Resolves clause.now reason.now lit new.items) }
{
    let mut new = without(alloc, clause, lit.opposite(), reason.len())?;
    gather(&mut new, reason, lit)?;
    Ok(new)
}

/// Takes steps back until a decision is refuted, and learns a clause that says so.
pub(crate) fn explain(
    alloc: Global,
    cnf: &Growing<'_>,
    trail: &mut Trail,
    broken: Vec<Lit>,
) -> Result<Option<Learned>, AllocError>
    requires reasons { EachStep (HasReason cnf.now.clauses) trail.old.steps }
    requires follows { FollowsByUnits cnf.now.clauses broken.items }
    requires is_broken { are_false trail.old.steps broken.items ≡ true }
    ensures learned { IfOk result (λ answer. IfSome answer (IsLearned cnf.now.clauses trail.old trail.new)) }
    ensures refuted { IfOk result (λ answer. IfNone answer (FollowsByUnits cnf.now.clauses [])) }
{
    let mut clause = broken;
    'steps: while let Some(step) = trail.pop() {
        let denied = step.lit.opposite();
        if contains(clause.as_slice(), denied) {
            if step.decided {
                return Ok(Some(Learned {
                    clause,
                    lit: denied,
                }));
            }
            if let Some(place) = last_level(trail, clause.as_slice()) {
                cut(trail, place);
                return Ok(Some(Learned {
                    clause,
                    lit: denied,
                }));
            }
            let Some(reason) = cnf.clause(step.reason) else {
                unreachable!();
            };
            clause = resolve(alloc, clause.as_slice(), reason, step.lit)?;
        }
    }
    Ok(None)
}

/// The place of the last decision, if no step from it on makes a literal of the clause false.
pub(crate) fn last_level(trail: &Trail, clause: &[Lit]) -> Option<usize>
    ensures { IfSome result (IsFree trail.now.steps clause.now) }
{
    let mut at = trail.len();
    'steps: while at > 0 {
        at -= 1;
        let Some(step) = trail.step(at) else {
            unreachable!();
        };
        if contains(clause, step.lit.opposite()) {
            return None;
        }
        if step.decided {
            return Some(at);
        }
    }
    None
}

/// Takes steps back until only so many are left.
fn cut(trail: &mut Trail, place: usize)
    ensures vars { trail.new.vars ≡ trail.old.vars }
    ensures steps { trail.new.steps ≡ take place trail.old.steps }
{
    'steps: while trail.len() > place {
        trail.pop();
    }
}

/// Takes back the levels that leave a learned clause alone.
pub(crate) fn jump(trail: &mut Trail, learned: &Learned)
    ensures { Jumps learned.now trail.old trail.new }
{
    'levels: while let Some(place) = last_level(trail, learned.clause.as_slice()) {
        cut(trail, place);
    }
}
