//! The order of the lines of a journal.
ghost use Rattle.std.specs.Prelude.{◌≡◌, ◌≤◌, IfOk, Some};
ghost use Rattle.std.specs.List.{list_all, zip};
ghost use Rattle.std.specs.Option.{option_map};
ghost use Rattle.ipa_journal.specs.Parts.{number_at};
ghost use Rattle.ipa_journal.specs.Order.{after_sessions, all_greatest, are_picks, entry_standing, final_standing, is_bounds, is_count, is_end, is_greatest, is_sessions, moved, next_place, next_standing, result_standing, say_picks, says_pick, version_in, version_of};

use crate::answers::{behind, out_in};
use crate::facts::{is_empty_list, state_in};
use crate::journal::TxLine;
use crate::keywords::Keyword;
use crate::lookups::Elements;
use crate::naming::pick_key;
use crate::parts::{Part, is_key, is_said, number_at};
use crate::standing::{Place, Standing, Version};
use crate::transactions::tx_in;
use ipa_spec::{Bound, Pick, Spec};
use std::alloc::{AllocError, Global};

fn is_greatest(pick: Pick) -> bool
    ensures { result ≡ is_greatest pick }
{
    match pick {
        Pick::Greatest => true,
        Pick::Youngest => false,
    }
}

/// Whether every bound picks the greatest fact.
fn all_greatest(bounds: &[Bound]) -> bool
    ensures { result ≡ all_greatest bounds.now }
{
    bounds.iter().all(|bound| is_greatest(bound.pick))
}

fn version_of(spec: &Spec, number: u32) -> Option<Version>
    ensures { result ≡ version_of spec.now (Some number) }
{
    if number == 1 && all_greatest(spec.bounds().as_slice()) {
        Some(Version::One)
    } else if number == 2 {
        Some(Version::Two)
    } else {
        None
    }
}

/// The version that a `journal` line begins.
fn version_in(spec: &Spec, parts: &[Part]) -> Option<Version>
    ensures { result ≡ version_in spec.now parts.now }
{
    if parts.len() != 2 || !is_key(parts, 0, Keyword::Journal) {
        return None;
    }
    match number_at(parts, 1) {
        Some(number) => version_of(spec, number),
        None => None,
    }
}

fn has_count(parts: &[Part], sessions: usize) -> bool
    ensures { result ≡ is_count sessions (number_at parts.now 1) }
{
    match number_at(parts, 1) {
        Some(number) => number as usize == sessions,
        None => false,
    }
}

/// Whether this is a `sessions` line of so many sessions.
fn is_sessions(sessions: usize, parts: &[Part]) -> bool
    ensures { result ≡ is_sessions sessions parts.now }
{
    parts.len() == 2 && is_key(parts, 0, Keyword::Sessions) && has_count(parts, sessions)
}

fn says_pick(part: &Part, bound: &Bound) -> bool
    ensures { result ≡ says_pick part.now bound.now }
{
    match part {
        Part::Word(name) => is_said(pick_key(bound.pick), *name),
        Part::Number(_) => false,
        Part::Group(_) => false,
    }
}

fn each_says_pick(parts: &[Part], bounds: &[Bound]) -> bool
    ensures { result ≡ list_all (λ x. says_pick x.0 x.1) (zip parts.now bounds.now) }
{
    parts
        .iter()
        .zip(bounds.iter())
        .all(|(part, bound)| says_pick(part, bound))
}

fn say_picks(bounds: &[Bound], parts: &[Part]) -> bool
    ensures { result ≡ say_picks bounds.now parts.now }
{
    parts.len() == bounds.len() && each_says_pick(parts, bounds)
}

fn are_picks(bounds: &[Bound], parts: &[Part]) -> bool
    ensures { result ≡ are_picks bounds.now parts.now }
{
    if bounds.is_empty() {
        return is_empty_list(parts);
    }
    say_picks(bounds, parts)
}

/// Whether this is the `bounds` line of the specification.
fn is_bounds(spec: &Spec, parts: &[Part]) -> bool
    ensures { result ≡ is_bounds spec.now parts.now }
{
    is_key(parts, 0, Keyword::Bounds) && are_picks(spec.bounds().as_slice(), behind(parts))
}

fn is_end(parts: &[Part]) -> bool
    ensures { result ≡ is_end parts.now }
{
    parts.len() == 1 && is_key(parts, 0, Keyword::End)
}

fn after_sessions(version: Version) -> Place
    ensures { result ≡ after_sessions version }
{
    match version {
        Version::One => Place::Entries,
        Version::Two => Place::Bounds,
    }
}

fn moved(standing: Standing, place: Place) -> Standing
    ensures { result ≡ moved standing place }
{
    Standing {
        place,
        transactions: standing.transactions,
        outcomes: standing.outcomes,
        last: standing.last,
        last_line: standing.last_line,
    }
}

/// Behind a line that is to be `final`.
fn final_standing(
    alloc: Global,
    spec: &Spec,
    elements: &Elements,
    line: u32,
    standing: Standing,
    parts: &[Part],
) -> Result<Option<Standing>, AllocError>
    ensures { IfOk result (λ next. next ≡ final_standing spec.now elements.now line standing parts.now) }
{
    if !is_key(parts, 0, Keyword::Final) {
        return Ok(None);
    }
    let Some(last) = state_in(alloc, spec, elements, behind(parts))? else {
        return Ok(None);
    };
    Ok(Some(Standing {
        place: Place::End,
        transactions: standing.transactions,
        outcomes: standing.outcomes,
        last,
        last_line: line,
    }))
}

/// Behind a line that is to be `out` or `final`.
fn result_standing(
    alloc: Global,
    spec: &Spec,
    elements: &Elements,
    sessions: usize,
    line: u32,
    standing: Standing,
    parts: &[Part],
) -> Result<Option<Standing>, AllocError>
    requires { sessions ≤ 16 }
    ensures { IfOk result (λ next. next ≡ result_standing spec.now elements.now sessions line standing parts.now) }
{
    if !is_key(parts, 0, Keyword::Out) {
        return final_standing(alloc, spec, elements, line, standing, parts);
    }
    let Some(outcome) = out_in(alloc, spec, elements, sessions, line, parts)? else {
        return Ok(None);
    };
    let mut outcomes = standing.outcomes;
    outcomes.push(outcome)?;
    Ok(Some(Standing {
        place: Place::Outcomes,
        transactions: standing.transactions,
        outcomes,
        last: standing.last,
        last_line: standing.last_line,
    }))
}

/// Behind a line that is to be `tx`, `out` or `final`.
fn entry_standing(
    alloc: Global,
    spec: &Spec,
    elements: &Elements,
    sessions: usize,
    line: u32,
    standing: Standing,
    parts: &[Part],
) -> Result<Option<Standing>, AllocError>
    requires { sessions ≤ 16 }
    ensures { IfOk result (λ next. next ≡ entry_standing spec.now elements.now sessions line standing parts.now) }
{
    if !is_key(parts, 0, Keyword::Tx) {
        return result_standing(alloc, spec, elements, sessions, line, standing, parts);
    }
    let Some(tx) = tx_in(spec, elements, sessions, parts) else {
        return Ok(None);
    };
    let mut transactions = standing.transactions;
    transactions.push(TxLine { line, tx })?;
    Ok(Some(Standing {
        place: Place::Entries,
        transactions,
        outcomes: standing.outcomes,
        last: standing.last,
        last_line: standing.last_line,
    }))
}

/// Whether the line may stand in one of the places where it says nothing that is kept, and the place behind it.
fn next_place(spec: &Spec, sessions: usize, place: Place, parts: &[Part]) -> Option<Place>
    ensures { result ≡ next_place spec.now sessions place parts.now }
{
    match place {
        Place::Head => match version_in(spec, parts) {
            Some(version) => Some(Place::Sessions(version)),
            None => None,
        },
        Place::Sessions(version) => {
            if is_sessions(sessions, parts) {
                Some(after_sessions(version))
            } else {
                None
            }
        }
        Place::Bounds => {
            if is_bounds(spec, parts) {
                Some(Place::Entries)
            } else {
                None
            }
        }
        Place::End => {
            if is_end(parts) {
                Some(Place::Done)
            } else {
                None
            }
        }
        Place::Entries => None,
        Place::Outcomes => None,
        Place::Done => None,
    }
}

/// What is read behind a line of these parts and this number, or `None` where the line stands against the order of
/// lines or lacks the form of its place.
pub(crate) fn next_standing(
    alloc: Global,
    spec: &Spec,
    elements: &Elements,
    sessions: usize,
    line: u32,
    standing: Standing,
    parts: &[Part],
) -> Result<Option<Standing>, AllocError>
    requires { sessions ≤ 16 }
    ensures { IfOk result (λ next. next ≡ next_standing spec.now elements.now sessions line standing parts.now) }
{
    match standing.place {
        Place::Entries => entry_standing(alloc, spec, elements, sessions, line, standing, parts),
        Place::Outcomes => result_standing(alloc, spec, elements, sessions, line, standing, parts),
        _ => Ok(plain_standing(spec, sessions, standing, parts)),
    }
}

/// Behind a line of which nothing is kept but its place.
fn plain_standing(
    spec: &Spec,
    sessions: usize,
    standing: Standing,
    parts: &[Part],
) -> Option<Standing>
    ensures { result ≡ option_map (moved standing) (next_place spec.now sessions standing.place parts.now) }
{
    match next_place(spec, sessions, standing.place, parts) {
        Some(place) => Some(moved(standing, place)),
        None => None,
    }
}
