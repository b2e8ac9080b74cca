//! The search for the first satisfying assignment: variables are denied in order, and each conflict
//! teaches a clause.
//!
//! The trail holds the decided literals, each the denial of the first variable that was open, and
//! between them the literals that follow from the formula and the decisions before. Where a clause
//! is false, the clauses that the false literals follow from are resolved with it, until the
//! resolvent has one literal of the last level alone. It follows from the formula and is put to it,
//! and the search goes back to the level of its second last literal, where it forces the last. So
//! each assignment that the search has passed by does not satisfy the formula or comes later, and
//! the one that it finds is the first. It ends, since with each conflict a step that follows takes
//! the place of a decision.

ghost use Rattle.std.specs.Prelude.{◌≡◌, ◌<◌, [], ◌∷◌, ◌++◌, None, IfOk, OnOk, IfSome, IfNone};
ghost use Rattle.ipa_sat.specs.Formula.{IsLeast, IsUnsatisfiable, Satisfies};
ghost use Rattle.ipa_sat.specs.Trail.{known, denial};
ghost use Rattle.ipa_sat.specs.Search.{IsReasoned, IsBrokenAt};
ghost use Rattle.ipa_sat.specs.Learning.{IsRefutedBy};
ghost use Rattle.ipa_sat.specs.Turns.{IsPosition, IsFirstOpen, AreKnown, Turns};

use crate::cnf::Lit;
use crate::growing::Growing;
use crate::learn::learn;
use crate::propagate::{propagate, start};
use crate::trail::{Taken, Trail};
use crate::watches::Watches;
use std::alloc::{AllocError, Global};

/// What one turn of the search came to.
#[derive(Drop)]
enum Turn {
    /// The first satisfying assignment.
    Found(Vec<bool>),
    /// There is none.
    Impossible,
    /// The search goes on; each variable below this one has a value.
    Next(u32),
}

/// Learns from a false clause, given by its place.
fn turn_round(
    alloc: Global,
    cnf: &mut Growing<'_>,
    trail: &mut Trail,
    watches: &mut Watches,
    place: usize,
) -> Result<Turn, AllocError>
    requires reasoned { IsReasoned cnf.old trail.old }
    requires is_broken { IsBrokenAt cnf.old trail.old place }
    ensures { IfOk result (Turns cnf.old cnf.new trail.old trail.new) }
{
    if learn(alloc, cnf, trail, watches, place)? {
        Ok(Turn::Next(0))
    } else {
        Ok(Turn::Impossible)
    }
}

/// The first variable below `end` without a value, where each below `from` has one.
fn first_open(trail: &Trail, from: u32, end: u32) -> Option<u32>
    requires vars { end ≡ trail.now.vars }
    requires lower { AreKnown trail.now.steps from }
    ensures all { IfNone result (AreKnown trail.now.steps end) }
    ensures first { IfSome result (IsFirstOpen trail.now.steps end) }
{
    for var in from..end {
        if trail.value(var).is_none() {
            return Some(var);
        }
    }
    None
}

/// Reads the assignment off a trail that has a value for each variable.
fn finish(
    alloc: Global,
    cnf: &mut Growing<'_>,
    trail: &mut Trail,
    watches: &mut Watches,
) -> Result<Turn, AllocError>
    requires reasoned { IsReasoned cnf.old trail.old }
    requires all { AreKnown trail.old.steps cnf.old.vars }
    ensures { IfOk result (Turns cnf.old cnf.new trail.old trail.new) }
{
    let values = trail.read(alloc)?;
    match cnf.first_false(values.as_slice()) {
        None => Ok(Turn::Found(values)),
        Some(place) => turn_round(alloc, cnf, trail, watches, place),
    }
}

/// Denies a variable, the first that is open.
fn deny(trail: &mut Trail, var: u32) -> Result<(), AllocError>
    requires in_range { var < trail.old.vars }
    requires open_yet { known trail.old.steps var ≡ None }
    ensures { OnOk result (trail.new ≡ record trail.old { steps = trail.old.steps ++ denial var ∷ [] }) }
{
    trail.push(Taken {
        lit: Lit {
            var,
            positive: false,
        },
        decided: true,
        reason: 0,
    })?;
    Ok(())
}

/// Decides the first open variable, or finishes where there is none.
fn decide(
    alloc: Global,
    cnf: &mut Growing<'_>,
    trail: &mut Trail,
    watches: &mut Watches,
    at: u32,
) -> Result<Turn, AllocError>
    requires { IsPosition cnf.old trail.old at }
    ensures { IfOk result (Turns cnf.old cnf.new trail.old trail.new) }
{
    match first_open(trail, at, cnf.vars()) {
        Some(var) => {
            let _steps = trail.len();
            deny(trail, var)?;
            Ok(Turn::Next(var + 1))
        }
        None => finish(alloc, cnf, trail, watches),
    }
}

/// One turn of the search: propagates, and then learns, decides or finishes.
fn turn_once(
    alloc: Global,
    cnf: &mut Growing<'_>,
    trail: &mut Trail,
    watches: &mut Watches,
    at: u32,
) -> Result<Turn, AllocError>
    requires { IsPosition cnf.old trail.old at }
    ensures { IfOk result (Turns cnf.old cnf.new trail.old trail.new) }
{
    let broken = propagate(cnf, trail, watches)?;
    let _steps = trail.len();
    match broken {
        Some(place) => turn_round(alloc, cnf, trail, watches, place),
        None => decide(alloc, cnf, trail, watches, at),
    }
}

/// The first satisfying assignment of a formula from a trail on whose steps follow; the formula
/// grows by what is learned.
fn search(
    alloc: Global,
    cnf: &mut Growing<'_>,
    trail: &mut Trail,
    watches: &mut Watches,
) -> Result<Option<Vec<bool>>, AllocError>
    requires { IsReasoned cnf.old trail.old }
    ensures found { IfOk result (λ answer. IfSome answer (λ a. IsLeast cnf.old a.items)) }
    ensures none { IfOk result (λ answer. IfNone answer (IsRefutedBy cnf.old cnf.new)) }
{
    let mut at = 0;
    'turns: loop {
        match turn_once(alloc, cnf, trail, watches, at)? {
            Turn::Found(values) => return Ok(Some(values)),
            Turn::Impossible => return Ok(None),
            Turn::Next(next) => at = next,
        }
    }
}

/// The first satisfying assignment of a formula from a trail on under which a clause is false.
fn search_after(
    alloc: Global,
    cnf: &mut Growing<'_>,
    trail: &mut Trail,
    watches: &mut Watches,
    place: usize,
) -> Result<Option<Vec<bool>>, AllocError>
    requires reasoned { IsReasoned cnf.old trail.old }
    requires is_broken { IsBrokenAt cnf.old trail.old place }
    ensures found { IfOk result (λ answer. IfSome answer (λ a. IsLeast cnf.old a.items)) }
    ensures none { IfOk result (λ answer. IfNone answer (IsRefutedBy cnf.old cnf.new)) }
{
    if learn(alloc, cnf, trail, watches, place)? {
        search(alloc, cnf, trail, watches)
    } else {
        Ok(None)
    }
}

/// The first satisfying assignment of a formula, from a trail without steps and without watches.
fn search_with(
    alloc: Global,
    cnf: &mut Growing<'_>,
    trail: &mut Trail,
    watches: &mut Watches,
) -> Result<Option<Vec<bool>>, AllocError>
    requires { trail.old ≡ record { vars = cnf.old.vars; steps = [] } }
    ensures found { IfOk result (λ answer. IfSome answer (λ a. IsLeast cnf.old a.items)) }
    ensures none { IfOk result (λ answer. IfNone answer (IsRefutedBy cnf.old cnf.new)) }
{
    match start(cnf, trail, watches)? {
        None => search(alloc, cnf, trail, watches),
        Some(place) => search_after(alloc, cnf, trail, watches, place),
    }
}

/// The first satisfying assignment of a formula. Where there is none, the formula has grown by
/// clauses that show it.
pub(crate) fn search_anew(
    alloc: Global,
    cnf: &mut Growing<'_>,
) -> Result<Option<Vec<bool>>, AllocError>
    ensures found { IfOk result (λ answer. IfSome answer (λ a. IsLeast cnf.old a.items)) }
    ensures none { IfOk result (λ answer. IfNone answer (IsRefutedBy cnf.old cnf.new)) }
{
    let mut trail = Trail::new(alloc, cnf.vars())?;
    let mut watches = Watches::new(alloc, cnf.vars())?;
    search_with(alloc, cnf, &mut trail, &mut watches)
}
