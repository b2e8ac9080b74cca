//! The offers of a pair of actions.
ghost use Rattle.std.specs.Prelude.{◌≤◌, IfOk, IfErr};
ghost use Rattle.ipa_spec.specs.Actions.{IsAction};
ghost use Rattle.ipa_pairs.specs.Width.{action_place, IsNarrow, IsDeclared};
ghost use Rattle.ipa_pairs.specs.Analyses.{IsPairFault};
ghost use Rattle.ipa_repair.specs.Offers.{AreOffers};
ghost use Rattle.ipa_repair.specs.Showing.{AreClashes};

use crate::candidates::Offer;
use crate::clashes::{Clash, clashes_of};
use crate::listing::candidates_of;
use crate::reporting::reported_clauses;
use crate::trying::offers_of;
use ipa_pairs::{PairFault, analyse};
use ipa_spec::{Action, List, Spec};
use std::alloc::{AllocError, Global};
use std::thread::Threads;

/// The offers of a pair of actions, of which left is not after right: the single changes that clear
/// the pair alone, and then the sets of two that clear it and of which neither does alone. None where
/// the two do not conflict. Conflicts are sought on all processors.
///
/// Refused exactly where a live triple of the specification has more than 30000 patterns, with the
/// first such triple; or for want of memory.
pub fn offers(
    rt: &(impl Threads + Sync),
    alloc: Global,
    spec: &Spec,
    left: Action,
    right: Action,
) -> Result<List<Offer>, PairFault>
    requires left { IsAction spec.now left }
    requires right { IsAction spec.now right }
    requires order { action_place spec.now left ≤ action_place spec.now right }
    ensures offers { IfOk result (AreOffers spec.now left right) }
    ensures narrow { IfOk result (λ _. IsNarrow spec.now (IsDeclared spec.now)) }
    ensures fault { IfErr result (IsPairFault spec.now (IsDeclared spec.now)) }
{
    let analysis = analyse(rt, alloc, spec)?;
    let clashes = clashes_of(alloc, spec, analysis.conflicts.as_slice())?;
    let offers = offers_by(alloc, spec, clashes.as_slice(), left, right)?;
    Ok(offers)
}

/// The same, by all triples in conflict.
pub(crate) fn offers_by(
    alloc: Global,
    spec: &Spec,
    clashes: &[Clash],
    left: Action,
    right: Action,
) -> Result<List<Offer>, AllocError>
    requires left { IsAction spec.now left }
    requires right { IsAction spec.now right }
    requires clashes { AreClashes spec.now clashes.now }
    ensures { IfOk result (AreOffers spec.now left right) }
{
    let reported = reported_clauses(alloc, spec, clashes, left, right)?;
    let candidates = candidates_of(alloc, spec, left, right, reported.as_slice())?;
    offers_of(alloc, spec, left, right, candidates.as_slice())
}
