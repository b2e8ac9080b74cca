//! The analysis of a whole specification, and of one ordered pair of actions.
ghost use Rattle.std.specs.Prelude.{IfOk, IfErr};
ghost use Rattle.ipa_spec.specs.Actions.{IsAction};
ghost use Rattle.ipa_pairs.specs.Width.{IsDeclared, IsOfPair};
ghost use Rattle.ipa_pairs.specs.Analyses.{AreReported, IsAnalysis, IsPairAnalysis, IsPairFault};

use crate::analysis::{Analysis, Conflict, PairFault};
use crate::breaking::breakable_clauses;
use crate::collecting::{all_unsafe_drops, conflicts_in_turn, push_conflicts_of_pair};
use crate::parts::conflicts_by_parts;
use crate::width::{first_wide, first_wide_of_pair};
use ipa_spec::{Action, List, Spec};
use std::alloc::{AllocError, Global};
use std::thread::Threads;

// Where no more patterns than these are to be gone through, no thread is started.
const FEW_PATTERNS: u64 = 1000;

/// The first example of each triple in conflict, ordered by left, right and clause, and of each
/// bound and clause whose drop can break the clause, by bound and clause. It is sought on all
/// processors, unless there is little to do, and the answer is that of one thread.
///
/// Refused exactly where a live triple has more than 30000 patterns, with the first such triple; or
/// for want of memory.
pub fn analyse(
    rt: &(impl Threads + Sync),
    alloc: Global,
    spec: &Spec,
) -> Result<Analysis, PairFault>
    ensures analysis { IfOk result (IsAnalysis spec.now) }
    ensures fault { IfErr result (IsPairFault spec.now (IsDeclared spec.now)) }
{
    let mut patterns = 0;
    if let Some(wide) = first_wide(spec, &mut patterns) {
        return Err(wide.fault());
    }
    let conflicts = all_conflicts(rt, alloc, spec, patterns)?;
    let unsafe_drops = all_unsafe_drops(alloc, spec)?;
    Ok(Analysis {
        conflicts,
        unsafe_drops,
    })
}

// The examples of all triples, which have so many patterns.
fn all_conflicts(
    rt: &(impl Threads + Sync),
    alloc: Global,
    spec: &Spec,
    patterns: u64,
) -> Result<List<Conflict>, AllocError>
    ensures { IfOk result (AreReported spec.now (IsDeclared spec.now)) }
{
    if patterns <= FEW_PATTERNS {
        conflicts_in_turn(alloc, spec)
    } else {
        conflicts_by_parts(rt, alloc, spec)
    }
}

/// The same for the conflicts of one ordered pair of actions.
pub fn analyse_pair(
    alloc: Global,
    spec: &Spec,
    left: Action,
    right: Action,
) -> Result<List<Conflict>, PairFault>
    requires left { IsAction spec.now left }
    requires right { IsAction spec.now right }
    ensures conflicts { IfOk result (λ es. IsPairAnalysis spec.now left right es) }
    ensures fault { IfErr result (IsPairFault spec.now (IsOfPair spec.now left right)) }
{
    let breakable = breakable_clauses(spec, left);
    let mut patterns = 0;
    if let Some(wide) = first_wide_of_pair(spec, left, right, &breakable, &mut patterns) {
        return Err(wide.fault());
    }
    let mut grounded = List::new(alloc);
    let mut conflicts = List::new(alloc);
    push_conflicts_of_pair(
        alloc,
        spec,
        &mut grounded,
        left,
        right,
        &breakable,
        &mut conflicts,
    )?;
    Ok(conflicts)
}
