//! Learning: a false clause is explained, and what was learned is put to the formula.

ghost use Rattle.std.specs.Prelude.{◌≡◌, true, [], IfOk, IfSome};
ghost use Rattle.std.specs.Bool.{OnTrue, OnFalse};
ghost use Rattle.ipa_sat.specs.Refutation.{has, FollowsByUnits};
ghost use Rattle.ipa_sat.specs.Search.{IsReasoned, IsBrokenAt};
ghost use Rattle.ipa_sat.specs.Learning.{Learns};

use crate::cnf::Lit;
use crate::explain::{Learned, contains, explain, jump};
use crate::growing::Growing;
use crate::look::Pair;
use crate::trail::{Taken, Trail};
use crate::watches::Watches;
use std::alloc::{AllocError, Global};

/// The literal of a clause that became false last.
fn last_false(trail: &Trail, clause: &[Lit]) -> Option<Lit>
    ensures { IfSome result (λ lit. has clause.now lit ≡ true) }
{
    let mut at = trail.len();
    'steps: while at > 0 {
        at -= 1;
        let Some(step) = trail.step(at) else {
            unreachable!();
        };
        let denied = step.lit.opposite();
        if contains(clause, denied) {
            return Some(denied);
        }
    }
    None
}

/// The two literals that a learned clause watches: the one that it forces, and the one that will be
/// open first when steps are taken back.
fn watched(trail: &Trail, learned: &Learned) -> Option<Pair> {
    let second = last_false(trail, learned.clause.as_slice())?;
    Some(Pair {
        first: learned.lit,
        second,
    })
}

/// How many of the last learned clauses are watched, however long they are.
const RECENT: usize = 1000;

/// How many literals a learned clause has at most that is watched for good.
const SHORT: usize = 5;

/// Takes the watches from a long clause that was learned long ago: looking after it would cost more
/// than it tells.
fn forget_one(cnf: &Growing<'_>, watches: &mut Watches) {
    let Some(place) = cnf.len().checked_sub(RECENT) else {
        return;
    };
    if cnf.clause(place).is_some_and(|clause| clause.len() > SHORT) {
        watches.forget(place);
    }
}

/// Learns from a false clause, given by its place, and goes on where the learned clause forces a
/// literal. Answers false where the formula is refuted.
pub(crate) fn learn(
    alloc: Global,
    cnf: &mut Growing<'_>,
    trail: &mut Trail,
    watches: &mut Watches,
    place: usize,
) -> Result<bool, AllocError>
    requires reasoned { IsReasoned cnf.old trail.old }
    requires is_broken { IsBrokenAt cnf.old trail.old place }
    ensures learned { IfOk result (λ fine. OnTrue fine (Learns cnf.old cnf.new trail.old trail.new)) }
    ensures refuted { IfOk result (λ fine. OnFalse fine (FollowsByUnits cnf.old.clauses [])) }
    ensures same { IfOk result (λ fine. OnFalse fine (cnf.new ≡ cnf.old)) }
{
    let Some(clause) = cnf.clause(place) else {
        unreachable!();
    };
    let broken = clause.to_vec(alloc)?;
    let Some(learned) = explain(alloc, cnf, trail, broken)? else {
        return Ok(false);
    };
    jump(trail, &learned);
    watches.rewind(trail.len());
    watches.add(watched(trail, &learned))?;
    forget_one(cnf, watches);
    let reason = cnf.len();
    cnf.add_clause(learned.clause.as_slice())?;
    trail.push(Taken {
        lit: learned.lit,
        decided: false,
        reason,
    })?;
    Ok(true)
}
