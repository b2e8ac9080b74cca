//! The greedy repair of a specification.
//!
//! While two actions conflict, the pairs that do are gone through in order, and the offers of each, and
//! the first offer is applied that leaves fewer conflicting pairs. So the repair ends.
ghost use Rattle.std.specs.Prelude.{◌≡◌, ◌<◌, ◌++◌, ◌∷◌, [], suc, length, IfOk, IfErr, MatchOption};
ghost use Rattle.std.specs.List.{All};
ghost use Rattle.ipa_spec.specs.Limits.{IsFaultless};
ghost use Rattle.ipa_spec.specs.declared.specification.Specification.{Specification};
ghost use Rattle.ipa_pairs.specs.Width.{IsNarrow, IsDeclared};
ghost use Rattle.ipa_pairs.specs.Analyses.{IsPairFault};
ghost use Rattle.ipa_repair.specs.Applying.{applied};
ghost use Rattle.ipa_repair.specs.Greedy.{AreConflicting, PairConflicts, LessensNothing, Lessens, Reaches, IsRepaired};
ghost use Rattle.ipa_repair.specs.Showing.{AreClashes};
ghost use Rattle.ipa_repair.specs.Stepping.{IsLessened, IsFirstLessened, IsTaken, IsFirstTaken};

use crate::applying::apply;
use crate::candidates::Offer;
use crate::changing::clashes_after;
use crate::clashes::{Clash, clashes_of};
use crate::offering::offers_by;
use crate::pairs::{Pair, conflicting_pairs};
use crate::steps::{RepairStep, Repaired};
use ipa_pairs::{AcceptFault, PairFault, accept, analyse};
use ipa_spec::{List, Spec};
use std::alloc::{AllocError, Global};
use std::thread::Threads;

/// A specification that an offer leads to, its triples in conflict, and its conflicting pairs.
#[derive(Drop)]
pub(crate) struct Lessened {
    pub(crate) next: Spec,
    pub(crate) clashes: List<Clash>,
    pub(crate) pairs: List<Pair>,
}

/// The place of an offer, from 1, and what it leads to.
#[derive(Drop)]
pub(crate) struct Applied {
    pub(crate) place: u32,
    pub(crate) lessened: Lessened,
}

/// A step, and what it leads to.
#[derive(Drop)]
pub(crate) struct Taken {
    pub(crate) step: RepairStep,
    pub(crate) lessened: Lessened,
}

/// The greedy repair of a specification: done, where its steps lead to an accepted one, and else stuck.
/// Conflicts are sought on all processors, and the answer is that of one thread.
///
/// Refused exactly where a live triple of the given specification has more than 30000 patterns, with
/// the first such triple; or for want of memory.
pub fn repair(rt: &(impl Threads + Sync), alloc: Global, spec: Spec) -> Result<Repaired, PairFault>
    ensures repaired { IfOk result (IsRepaired spec) }
    ensures narrow { IfOk result (λ _. IsNarrow spec (IsDeclared spec)) }
    ensures fault { IfErr result (IsPairFault spec (IsDeclared spec)) }
{
    let analysis = analyse(rt, alloc, &spec)?;
    let clashes = clashes_of(alloc, &spec, analysis.conflicts.as_slice())?;
    let pairs = conflicting_pairs(alloc, &spec, clashes.as_slice())?;
    let repaired = repaired_from(rt, alloc, spec, clashes, pairs, List::new(alloc))?;
    Ok(repaired)
}

// Goes on from a specification with these conflicting pairs, which these steps lead to.
fn repaired_from(
    rt: &(impl Threads + Sync),
    alloc: Global,
    spec: Spec,
    clashes: List<Clash>,
    pairs: List<Pair>,
    steps: List<RepairStep>,
) -> Result<Repaired, AllocError>
    requires narrow { IsNarrow spec (IsDeclared spec) }
    requires clashes { AreClashes spec clashes }
    requires pairs { AreConflicting spec pairs }
    ensures { (start : Specification) → Reaches start steps spec → IfOk result (IsRepaired start) }
{
    match first_step(alloc, &spec, clashes.as_slice(), pairs.as_slice())? {
        None => ended(rt, alloc, spec, pairs, steps),
        Some(Taken { step, lessened }) => {
            let grown = with_step(steps, step)?;
            let Lessened {
                next,
                clashes,
                pairs,
            } = lessened;
            repaired_from(rt, alloc, next, clashes, pairs, grown)
        }
    }
}

// The steps, and one more behind them.
fn with_step(steps: List<RepairStep>, step: RepairStep) -> Result<List<RepairStep>, AllocError>
    ensures { IfOk result (λ grown. grown ≡ steps ++ step ∷ []) }
{
    let mut grown = steps;
    grown.push(step)?;
    Ok(grown)
}

// The end, where no pair has an offer that lessens the conflicting ones.
fn ended(
    rt: &(impl Threads + Sync),
    alloc: Global,
    spec: Spec,
    pairs: List<Pair>,
    steps: List<RepairStep>,
) -> Result<Repaired, AllocError>
    requires narrow { IsNarrow spec (IsDeclared spec) }
    requires pairs { AreConflicting spec pairs }
    requires none { All (LessensNothing spec) pairs }
    ensures { (start : Specification) → Reaches start steps spec → IfOk result (IsRepaired start) }
{
    let copy = spec.copy()?;
    match accept(rt, alloc, copy) {
        Ok(accepted) => Ok(Repaired::Done(accepted, steps)),
        Err(AcceptFault::Rejected(analysis)) => Ok(Repaired::Stuck(spec, steps, analysis)),
        Err(AcceptFault::TooWide { .. }) => unreachable!(),
        Err(AcceptFault::NoMemory) => Err(AllocError),
    }
}

// The step of the first pair that has an offer which lessens the conflicting pairs.
fn first_step(
    alloc: Global,
    spec: &Spec,
    clashes: &[Clash],
    pairs: &[Pair],
) -> Result<Option<Taken>, AllocError>
    requires clashes { AreClashes spec.now clashes.now }
    requires pairs { AreConflicting spec.now pairs.now }
    ensures { IfOk result (λ found. MatchOption found (All (LessensNothing spec.now) pairs.now) (IsFirstTaken spec.now pairs.now)) }
{
    for pair in pairs {
        if let Some(taken) = step_of(alloc, spec, clashes, pairs, *pair)? {
            return Ok(Some(taken));
        }
    }
    Ok(None)
}

// The step of a pair, where it has such an offer.
fn step_of(
    alloc: Global,
    spec: &Spec,
    clashes: &[Clash],
    pairs: &[Pair],
    pair: Pair,
) -> Result<Option<Taken>, AllocError>
    requires clashes { AreClashes spec.now clashes.now }
    requires pairs { AreConflicting spec.now pairs.now }
    requires conflicts { PairConflicts spec.now pair }
    ensures { IfOk result (λ found. MatchOption found (LessensNothing spec.now pair) (IsTaken spec.now pairs.now pair)) }
{
    let offers = offers_by(alloc, spec, clashes, pair.left, pair.right)?;
    match first_lessening(alloc, spec, clashes, pairs, offers.as_slice())? {
        None => Ok(None),
        Some(applied) => Ok(Some(Taken {
            step: RepairStep {
                left: pair.left,
                right: pair.right,
                offers,
                applied: applied.place,
            },
            lessened: applied.lessened,
        })),
    }
}

// The first of the offers that lessens the conflicting pairs.
fn first_lessening(
    alloc: Global,
    spec: &Spec,
    clashes: &[Clash],
    pairs: &[Pair],
    offers: &[Offer],
) -> Result<Option<Applied>, AllocError>
    requires clashes { AreClashes spec.now clashes.now }
    requires pairs { AreConflicting spec.now pairs.now }
    requires faultless { All (λ o. IsFaultless (applied spec.now o.parts)) offers.now }
    ensures { IfOk result (λ found. MatchOption found (All (λ o. Lessens spec.now o.parts → ⊥) offers.now) (IsFirstLessened spec.now pairs.now offers.now)) }
{
    for (place, offer) in offers.iter().enumerate() {
        if let Some(lessened) = less_after(alloc, spec, clashes, pairs, offer)? {
            return Ok(Some(Applied {
                place: counted(place)?,
                lessened,
            }));
        }
    }
    Ok(None)
}

// The place counted from 1. So many offers that it would be no number of 32 bits fit in no memory.
fn counted(place: usize) -> Result<u32, AllocError>
    ensures { IfOk result (λ number. number ≡ suc place) }
{
    if place < u32::MAX as usize {
        Ok(place as u32 + 1)
    } else {
        Err(AllocError)
    }
}

// What the offer leads to, where that has no triple that is too wide, and fewer conflicting pairs.
fn less_after(
    alloc: Global,
    spec: &Spec,
    clashes: &[Clash],
    pairs: &[Pair],
    offer: &Offer,
) -> Result<Option<Lessened>, AllocError>
    requires clashes { AreClashes spec.now clashes.now }
    requires pairs { AreConflicting spec.now pairs.now }
    requires faultless { IsFaultless (applied spec.now offer.now.parts) }
    ensures { IfOk result (λ found. MatchOption found (Lessens spec.now offer.now.parts → ⊥) (IsLessened spec.now pairs.now offer.now)) }
{
    let next = apply(spec, offer)?;
    let clashes = match clashes_after(alloc, spec, clashes, offer.parts.as_slice(), &next)? {
        None => return Ok(None),
        Some(clashes) => clashes,
    };
    let left = conflicting_pairs(alloc, &next, clashes.as_slice())?;
    if left.len() >= pairs.len() {
        return Ok(None);
    }
    Ok(Some(Lessened {
        next,
        clashes,
        pairs: left,
    }))
}
