//! Candidates that are tried alone, and in sets of two.
ghost use Rattle.std.specs.Prelude.{◌≡◌, ◌∷◌, [], ◌<◌, length, IfOk, OnOk};
ghost use Rattle.std.specs.List.{All};
ghost use Rattle.ipa_spec.specs.Actions.{IsAction};
ghost use Rattle.ipa_repair.specs.Chosen.{Gains};
ghost use Rattle.ipa_repair.specs.Offers.{IsClearing, ClearsAsTwo, AreOffersOf, offer_of, alone, two_at, twos_from, twos};
ghost use Rattle.ipa_repair.specs.Trying.{IsTold, tried_of};

use crate::candidates::{Candidate, Offer};
use crate::clearing::clears;
use ipa_spec::{Action, List, Spec};
use std::alloc::{AllocError, Global};

/// A candidate, and whether it clears the pair alone.
#[derive(Clone, Copy)]
pub(crate) struct Tried {
    pub(crate) candidate: Candidate,
    pub(crate) clears: bool,
}

/// The offers among these candidates: those that clear the pair alone, and then sets of two.
pub(crate) fn offers_of(
    alloc: Global,
    spec: &Spec,
    left: Action,
    right: Action,
    candidates: &[Candidate],
) -> Result<List<Offer>, AllocError>
    requires left { IsAction spec.now left }
    requires right { IsAction spec.now right }
    ensures { IfOk result (AreOffersOf spec.now left right candidates.now) }
{
    let mut offers = List::new(alloc);
    let tried = push_ones(alloc, spec, left, right, candidates, &mut offers)?;
    push_twos(alloc, spec, left, right, tried.as_slice(), &mut offers)?;
    Ok(offers)
}

// Appends the candidates that clear the pair alone, and tells of each whether it does.
fn push_ones(
    alloc: Global,
    spec: &Spec,
    left: Action,
    right: Action,
    candidates: &[Candidate],
    offers: &mut List<Offer>,
) -> Result<List<Tried>, AllocError>
    requires left { IsAction spec.now left }
    requires right { IsAction spec.now right }
    ensures gains { OnOk result (Gains (IsClearing spec.now left right) (alone candidates.now) offers.old offers.new) }
    ensures of { IfOk result (λ tried. tried_of tried ≡ candidates.now) }
    ensures told { IfOk result (λ tried. All (IsTold spec.now left right) tried) }
{
    let mut tried = List::new(alloc);
    for candidate in candidates {
        tried.push(push_one(alloc, spec, left, right, *candidate, offers)?)?;
    }
    Ok(tried)
}

// Appends the candidate where it clears the pair alone, and tells whether it does.
fn push_one(
    alloc: Global,
    spec: &Spec,
    left: Action,
    right: Action,
    candidate: Candidate,
    offers: &mut List<Offer>,
) -> Result<Tried, AllocError>
    requires left { IsAction spec.now left }
    requires right { IsAction spec.now right }
    ensures gains { OnOk result (Gains (IsClearing spec.now left right) (offer_of (candidate ∷ []) ∷ []) offers.old offers.new) }
    ensures of { IfOk result (λ tried. tried.candidate ≡ candidate) }
    ensures told { IfOk result (λ tried. IsTold spec.now left right tried) }
{
    let parts = one(alloc, candidate)?;
    if clears(alloc, spec, left, right, parts.as_slice())? {
        offers.push(Offer { parts })?;
        return Ok(Tried {
            candidate,
            clears: true,
        });
    }
    Ok(Tried {
        candidate,
        clears: false,
    })
}

// Appends the sets of two that clear the pair and of which neither does alone.
fn push_twos(
    alloc: Global,
    spec: &Spec,
    left: Action,
    right: Action,
    tried: &[Tried],
    offers: &mut List<Offer>,
) -> Result<(), AllocError>
    requires left { IsAction spec.now left }
    requires right { IsAction spec.now right }
    requires told { All (IsTold spec.now left right) tried.now }
    ensures { OnOk result (Gains (ClearsAsTwo spec.now left right) (twos (tried_of tried.now)) offers.old offers.new) }
{
    for place in 0..tried.len() {
        push_twos_from(alloc, spec, left, right, tried, place, offers)?;
    }
    Ok(())
}

// Appends those of the candidate in this place and a later one.
fn push_twos_from(
    alloc: Global,
    spec: &Spec,
    left: Action,
    right: Action,
    tried: &[Tried],
    place: usize,
    offers: &mut List<Offer>,
) -> Result<(), AllocError>
    requires left { IsAction spec.now left }
    requires right { IsAction spec.now right }
    requires told { All (IsTold spec.now left right) tried.now }
    ensures { OnOk result (Gains (ClearsAsTwo spec.now left right) (twos_from (tried_of tried.now) place) offers.old offers.new) }
{
    for later in 0..tried.len() {
        push_two_at(alloc, spec, left, right, tried, place, later, offers)?;
    }
    Ok(())
}

// Appends that of the candidates in these places, where the one comes before the other.
fn push_two_at(
    alloc: Global,
    spec: &Spec,
    left: Action,
    right: Action,
    tried: &[Tried],
    place: usize,
    later: usize,
    offers: &mut List<Offer>,
) -> Result<(), AllocError>
    requires left { IsAction spec.now left }
    requires right { IsAction spec.now right }
    requires told { All (IsTold spec.now left right) tried.now }
    requires later { later < length tried.now }
    ensures { OnOk result (Gains (ClearsAsTwo spec.now left right) (two_at (tried_of tried.now) place later) offers.old offers.new) }
{
    if place >= later {
        return Ok(());
    }
    push_two(alloc, spec, left, right, tried[place], tried[later], offers)
}

// Appends the set of two, where it clears the pair and neither does alone.
fn push_two(
    alloc: Global,
    spec: &Spec,
    left: Action,
    right: Action,
    first: Tried,
    second: Tried,
    offers: &mut List<Offer>,
) -> Result<(), AllocError>
    requires left { IsAction spec.now left }
    requires right { IsAction spec.now right }
    requires first { IsTold spec.now left right first }
    requires second { IsTold spec.now left right second }
    ensures { OnOk result (Gains (ClearsAsTwo spec.now left right) (offer_of (first.candidate ∷ second.candidate ∷ []) ∷ []) offers.old offers.new) }
{
    if first.clears {
        return Ok(());
    }
    if second.clears {
        return Ok(());
    }
    let parts = two(alloc, first.candidate, second.candidate)?;
    if !clears(alloc, spec, left, right, parts.as_slice())? {
        return Ok(());
    }
    offers.push(Offer { parts })
}

fn one(alloc: Global, candidate: Candidate) -> Result<List<Candidate>, AllocError>
    ensures { IfOk result (λ parts. parts ≡ candidate ∷ []) }
{
    let mut parts = List::new(alloc);
    parts.push(candidate)?;
    Ok(parts)
}

fn two(alloc: Global, first: Candidate, second: Candidate) -> Result<List<Candidate>, AllocError>
    ensures { IfOk result (λ parts. parts ≡ first ∷ second ∷ []) }
{
    let mut parts = List::new(alloc);
    parts.push(first)?;
    parts.push(second)?;
    Ok(parts)
}
