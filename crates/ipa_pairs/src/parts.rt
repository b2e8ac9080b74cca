//! The examples of all triples, by several threads.
//!
//! There is a part for each action: the triples that have it on the left. The parts are gone through side by side, each
//! with groundings of its own, and their examples are joined in the order of the actions. So the answer is that of one
//! thread.
ghost use Rattle.std.specs.Prelude.{◌≡◌, List as Items, IfOk};
ghost use Rattle.std.specs.List.{AllZip, flat_map, range_with_len};
ghost use Rattle.ipa_pairs.specs.Width.{IsDeclared};
ghost use Rattle.ipa_pairs.specs.Analyses.{AreReported};
ghost use Rattle.ipa_pairs.specs.Collecting.{IsPart};
ghost use Rattle.ipa_pairs.specs.declared.analysis.Conflict.{Conflict as Example};

use crate::actions::{action_at, action_count};
use crate::analysis::Conflict;
use crate::collecting::push_conflicts_of_left;
use ipa_spec::{List, Spec};
use rayon::prelude::*;
use std::alloc::{AllocError, Global};
use std::thread::Threads;

/// The examples of all triples, ordered by left, right and clause.
pub(crate) fn conflicts_by_parts(
    rt: &(impl Threads + Sync),
    alloc: Global,
    spec: &Spec,
) -> Result<List<Conflict>, AllocError>
    ensures { IfOk result (AreReported spec.now (IsDeclared spec.now)) }
{
    let places = places_below(alloc, action_count(spec))?;
    let parts = parts_at(rt, alloc, spec, places.as_slice())?;
    joined(alloc, parts)
}

// The places below a number, in order.
fn places_below(alloc: Global, count: usize) -> Result<Vec<usize>, AllocError>
    ensures { IfOk result (λ places. places.items ≡ range_with_len 0 count) }
{
    (0..count).collect(alloc)
}

// The part of the action in each of these places.
fn parts_at(
    rt: &(impl Threads + Sync),
    alloc: Global,
    spec: &Spec,
    places: &[usize],
) -> Result<Vec<List<Conflict>>, AllocError>
    ensures { IfOk result (λ parts. AllZip (IsPart spec.now) places.now parts.items) }
{
    let parts: Result<Vec<List<Conflict>>, AllocError> = places
        .par_iter()
        .with_min_len(1)
        .map(
            |place: &usize| -> Result<List<Conflict>, AllocError>
                ensures { IfOk result (IsPart spec.entry.now place.now) }
            { part_at(alloc, spec, *place) },
        )
        .collect(rt, alloc)?;
    parts
}

// The examples of the triples whose left action has this place among all.
fn part_at(alloc: Global, spec: &Spec, place: usize) -> Result<List<Conflict>, AllocError>
    ensures { IfOk result (IsPart spec.now place) }
{
    if place >= action_count(spec) {
        return Ok(List::new(alloc));
    }
    let mut grounded = List::new(alloc);
    let mut conflicts = List::new(alloc);
    push_conflicts_of_left(
        alloc,
        spec,
        &mut grounded,
        action_at(spec, place),
        &mut conflicts,
    )?;
    Ok(conflicts)
}

// The examples of the parts, one part after the other.
fn joined(alloc: Global, parts: Vec<List<Conflict>>) -> Result<List<Conflict>, AllocError>
    ensures { IfOk result (λ found. found ≡ flat_map (λ (part : Items Example). part) parts.items) }
{
    let mut found = Vec::new(alloc);
    for part in parts {
        let mut part = part.into_vec();
        found.append(&mut part)?;
    }
    Ok(List::from_vec(found))
}
