//! The examples of all triples and of all drops, collected in order.
//!
//! Each function appends the examples of its cases to a list that it is lent.
ghost use Rattle.std.specs.Prelude.{◌≡◌, ◌<◌, length, IfOk, OnOk};
ghost use Rattle.ipa_spec.specs.Actions.{IsAction};
ghost use Rattle.ipa_pairs.specs.Width.{IsDeclared, IsOfPair};
ghost use Rattle.ipa_pairs.specs.Analyses.{AreReported, AreReportedDrops};
ghost use Rattle.ipa_pairs.specs.Told.{AreBreakable};
ghost use Rattle.ipa_pairs.specs.Grounded.{AreOf};
ghost use Rattle.ipa_pairs.specs.Triples.{triple, IsOfLeft};
ghost use Rattle.ipa_pairs.specs.Collecting.{ExtendsConflicts, ExtendsDrops, IsDeclaredDrop, IsOfBound, bound_clause};

use crate::actions::{action_at, action_count, bound_count, clause_count};
use crate::analysis::{Conflict, UnsafeDrop};
use crate::breaking::breakable_clauses;
use crate::drops::find_unsafe_drop;
use crate::groundings::Grounding;
use crate::triples::find_conflict;
use ipa_reduction::laws::conflicts_are_live;
use ipa_spec::laws::spec_is_fit;
use ipa_spec::{Action, List, Spec};
use std::alloc::{AllocError, Global};

/// The examples of all triples, one after the other.
pub(crate) fn conflicts_in_turn(alloc: Global, spec: &Spec) -> Result<List<Conflict>, AllocError>
    ensures { IfOk result (AreReported spec.now (IsDeclared spec.now)) }
{
    let mut grounded = List::new(alloc);
    let mut conflicts = List::new(alloc);
    push_conflicts(alloc, spec, &mut grounded, &mut conflicts)?;
    Ok(conflicts)
}

/// The examples of all drops that can break a clause.
pub(crate) fn all_unsafe_drops(alloc: Global, spec: &Spec) -> Result<List<UnsafeDrop>, AllocError>
    ensures { IfOk result (AreReportedDrops spec.now) }
{
    let mut grounded = List::new(alloc);
    let mut unsafe_drops = List::new(alloc);
    push_unsafe_drops(alloc, spec, &mut grounded, &mut unsafe_drops)?;
    Ok(unsafe_drops)
}

// Appends the examples of all triples.
fn push_conflicts<'a>(
    alloc: Global,
    spec: &'a Spec,
    grounded: &mut List<Grounding<'a>>,
    conflicts: &mut List<Conflict>,
) -> Result<(), AllocError>
    requires of { AreOf spec.now grounded.old }
    ensures of { AreOf spec.now grounded.new }
    ensures extends { OnOk result (ExtendsConflicts spec.now (IsDeclared spec.now) conflicts.old conflicts.new) }
{
    for place in 0..action_count(spec) {
        push_conflicts_of_left(alloc, spec, grounded, action_at(spec, place), conflicts)?;
    }
    Ok(())
}

/// Appends the examples of the triples with this action on the left.
pub(crate) fn push_conflicts_of_left<'a>(
    alloc: Global,
    spec: &'a Spec,
    grounded: &mut List<Grounding<'a>>,
    left: Action,
    conflicts: &mut List<Conflict>,
) -> Result<(), AllocError>
    requires left { IsAction spec.now left }
    requires of { AreOf spec.now grounded.old }
    ensures of { AreOf spec.now grounded.new }
    ensures extends { OnOk result (ExtendsConflicts spec.now (IsOfLeft spec.now left) conflicts.old conflicts.new) }
{
    let breakable = breakable_clauses(spec, left);
    for place in 0..action_count(spec) {
        push_conflicts_of_pair(
            alloc,
            spec,
            grounded,
            left,
            action_at(spec, place),
            &breakable,
            conflicts,
        )?;
    }
    Ok(())
}

/// Appends the examples of an ordered pair's triples, where it is told which clauses left could break.
pub(crate) fn push_conflicts_of_pair<'a>(
    alloc: Global,
    spec: &'a Spec,
    grounded: &mut List<Grounding<'a>>,
    left: Action,
    right: Action,
    breakable: &[bool; 32],
    conflicts: &mut List<Conflict>,
) -> Result<(), AllocError>
    requires left { IsAction spec.now left }
    requires right { IsAction spec.now right }
    requires breakable { AreBreakable spec.now left breakable.now }
    requires of { AreOf spec.now grounded.old }
    ensures of { AreOf spec.now grounded.new }
    ensures extends { OnOk result (ExtendsConflicts spec.now (IsOfPair spec.now left right) conflicts.old conflicts.new) }
{
    for number in 0..clause_count(spec) {
        push_conflict(
            alloc, spec, grounded, left, right, number, breakable, conflicts,
        )?;
    }
    Ok(())
}

// Appends the example of a triple, where it is in conflict.
fn push_conflict<'a>(
    alloc: Global,
    spec: &'a Spec,
    grounded: &mut List<Grounding<'a>>,
    left: Action,
    right: Action,
    number: u8,
    breakable: &[bool; 32],
    conflicts: &mut List<Conflict>,
) -> Result<(), AllocError>
    requires left { IsAction spec.now left }
    requires right { IsAction spec.now right }
    requires clause { number < length spec.now.clauses }
    requires breakable { AreBreakable spec.now left breakable.now }
    requires of { AreOf spec.now grounded.old }
    ensures of { AreOf spec.now grounded.new }
    ensures extends { OnOk result (ExtendsConflicts spec.now (λ t. t ≡ triple left right number) conflicts.old conflicts.new) }
{
    spec_is_fit(spec);
    conflicts_are_live();
    if !breakable[number as usize] {
        return Ok(());
    }
    match find_conflict(alloc, spec, grounded, left, right, number)? {
        Some(conflict) => conflicts.push(conflict),
        None => Ok(()),
    }
}

// Appends the examples of all drops that can break a clause.
fn push_unsafe_drops<'a>(
    alloc: Global,
    spec: &'a Spec,
    grounded: &mut List<Grounding<'a>>,
    unsafe_drops: &mut List<UnsafeDrop>,
) -> Result<(), AllocError>
    requires of { AreOf spec.now grounded.old }
    ensures of { AreOf spec.now grounded.new }
    ensures extends { OnOk result (ExtendsDrops spec.now (IsDeclaredDrop spec.now) unsafe_drops.old unsafe_drops.new) }
{
    for bound in 0..bound_count(spec) {
        push_unsafe_drops_of_bound(alloc, spec, grounded, bound, unsafe_drops)?;
    }
    Ok(())
}

// Appends the examples of the clauses that the drop of this bound can break.
fn push_unsafe_drops_of_bound<'a>(
    alloc: Global,
    spec: &'a Spec,
    grounded: &mut List<Grounding<'a>>,
    bound: u8,
    unsafe_drops: &mut List<UnsafeDrop>,
) -> Result<(), AllocError>
    requires bound { bound < length spec.now.bounds }
    requires of { AreOf spec.now grounded.old }
    ensures of { AreOf spec.now grounded.new }
    ensures extends { OnOk result (ExtendsDrops spec.now (IsOfBound spec.now bound) unsafe_drops.old unsafe_drops.new) }
{
    for number in 0..clause_count(spec) {
        push_unsafe_drop(alloc, spec, grounded, bound, number, unsafe_drops)?;
    }
    Ok(())
}

// Appends the example of a drop and a clause, where the drop can break it.
fn push_unsafe_drop<'a>(
    alloc: Global,
    spec: &'a Spec,
    grounded: &mut List<Grounding<'a>>,
    bound: u8,
    number: u8,
    unsafe_drops: &mut List<UnsafeDrop>,
) -> Result<(), AllocError>
    requires bound { bound < length spec.now.bounds }
    requires clause { number < length spec.now.clauses }
    requires of { AreOf spec.now grounded.old }
    ensures of { AreOf spec.now grounded.new }
    ensures extends { OnOk result (ExtendsDrops spec.now (λ t. t ≡ bound_clause bound number) unsafe_drops.old unsafe_drops.new) }
{
    match find_unsafe_drop(alloc, spec, grounded, bound, number)? {
        Some(unsafe_drop) => unsafe_drops.push(unsafe_drop),
        None => Ok(()),
    }
}
