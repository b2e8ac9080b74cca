//! Specifications that are accepted, by their type.
ghost use Rattle.std.specs.Prelude.{◌≡◌, ℕ, IfOk, IfErr, MatchBool};
ghost use Rattle.ipa_spec.specs.declared.operations.Action.{Action};
ghost use Rattle.ipa_logic.specs.Conflicts.{Conflict};
ghost use Rattle.ipa_logic.specs.Acceptance.{IsSafeDrop};
ghost use Rattle.ipa_pairs.specs.Width.{IsDeclared, IsNarrow};
ghost use Rattle.ipa_pairs.specs.Analyses.{IsAnalysis, IsAcceptFault, IsClean};

use crate::analysing::analyse;
use crate::analysis::{AcceptFault, Analysis, PairFault};
use ipa_reduction::laws::{conflicts_are_on_patterns, unsafe_drops_are_on_patterns};
use ipa_spec::Spec;
use std::alloc::{AllocError, Global};
use std::marker::Model;
use std::thread::Threads;

/// An accepted specification: no two actions of it conflict on a clause, and every drop is safe.
#[derive(Drop)]
pub struct Accepted {
    spec: Spec,
}

impl Model for Accepted {
    ghost use Rattle.ipa_spec.specs.declared.specification.Specification.{Specification};
    ghost use Rattle.ipa_logic.specs.Acceptance.{IsAccepted};

    ghost Value = { Specification };

    ghost view = { λ a. a.spec };

    ghost invariant = { λ a. IsAccepted a.spec };
}

impl Accepted {
    ghost use Rattle.ipa_logic.specs.Acceptance.{IsAccepted};

    /// The specification.
    pub fn spec(&self) -> &Spec
        ensures spec { result.now ≡ self.now }
        ensures accepted { IsAccepted self.now }
    {
        &self.spec
    }

    /// A copy, or want of memory.
    pub fn copy(&self) -> Result<Accepted, AllocError>
        ensures { IfOk result (λ copy. copy ≡ self.now) }
    {
        Ok(Accepted {
            spec: self.spec.copy()?,
        })
    }
}

/// The specification as an accepted one, exactly where no two of its actions conflict on a clause
/// and every drop is safe, which is sought on all processors; else it is given up, and the analysis
/// is answered. Refused too, before that, exactly where a live triple has more than 30000 patterns,
/// with the first such triple; or for want of memory.
pub fn accept(
    rt: &(impl Threads + Sync),
    alloc: Global,
    spec: Spec,
) -> Result<Accepted, AcceptFault>
    ensures accepted { IfOk result (λ accepted. accepted ≡ spec) }
    ensures narrow { IfOk result (λ accepted. IsNarrow spec (IsDeclared spec)) }
    ensures fault { IfErr result (IsAcceptFault spec) }
{
    let analysis = analysed(rt, alloc, &spec)?;
    if is_clean(&analysis) {
        return Ok(Accepted { spec });
    }
    conflicts_are_on_patterns();
    unsafe_drops_are_on_patterns();
    Err(AcceptFault::Rejected(analysis))
}

// The analysis, or why there is none.
fn analysed(rt: &(impl Threads + Sync), alloc: Global, spec: &Spec) -> Result<Analysis, AcceptFault>
    ensures analysis { IfOk result (IsAnalysis spec.now) }
    ensures fault { IfErr result (IsAcceptFault spec.now) }
{
    match analyse(rt, alloc, spec) {
        Ok(analysis) => Ok(analysis),
        Err(
            PairFault::TooWide {
                left,
                right,
                clause,
                count,
            },
        ) => Err(AcceptFault::TooWide {
            left,
            right,
            clause,
            count,
        }),
        Err(PairFault::NoMemory) => Err(AcceptFault::NoMemory),
    }
}

// Whether the analysis found nothing.
fn is_clean(analysis: &Analysis) -> bool
    ensures { MatchBool result (IsClean analysis.now) (IsClean analysis.now → ⊥) }
{
    analysis.conflicts.is_empty() && analysis.unsafe_drops.is_empty()
}

/// No two actions of an accepted specification conflict on a clause, over any universe, and every
/// drop is safe.
pub fn accepted_actions_do_not_conflict(accepted: &Accepted)
    ensures apart { (left right : Action) (k : ℕ) → Conflict accepted.now left right k → ⊥ }
    ensures safe { (n : ℕ) → IsSafeDrop accepted.now n }
{
    let _spec = accepted.spec();
}
