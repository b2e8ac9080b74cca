//! The unordered pairs of actions, and those of them that conflict.
ghost use Rattle.std.specs.Prelude.{◌≡◌, ◌∷◌, [], ◌≤◌, ◌<◌, length, IfOk, OnOk, MatchBool};
ghost use Rattle.ipa_repair.specs.Chosen.{Gains};
ghost use Rattle.ipa_repair.specs.Greedy.{action_count, action_at, pair, pair_if, pairs_from, PairConflicts, AreConflicting};
ghost use Rattle.ipa_repair.specs.Showing.{AreClashes};

use crate::clashes::{Clash, has_clash};
use ipa_spec::laws::spec_is_fit;
use ipa_spec::{Action, List, Spec};
use std::alloc::{AllocError, Global};

/// Two actions, of which the first is not after the second.
#[derive(Clone, Copy)]
pub(crate) struct Pair {
    pub(crate) left: Action,
    pub(crate) right: Action,
}

/// The pairs that conflict, by all triples in conflict, in order.
pub(crate) fn conflicting_pairs(
    alloc: Global,
    spec: &Spec,
    clashes: &[Clash],
) -> Result<List<Pair>, AllocError>
    requires { AreClashes spec.now clashes.now }
    ensures { IfOk result (AreConflicting spec.now) }
{
    let mut pairs = List::new(alloc);
    for first in 0..action_count(spec) {
        push_pairs_from(spec, clashes, first, &mut pairs)?;
    }
    Ok(pairs)
}

// Appends those with the action of this place first.
fn push_pairs_from(
    spec: &Spec,
    clashes: &[Clash],
    first: u8,
    pairs: &mut List<Pair>,
) -> Result<(), AllocError>
    requires { AreClashes spec.now clashes.now }
    ensures { OnOk result (Gains (PairConflicts spec.now) (pairs_from spec.now first) pairs.old pairs.new) }
{
    for second in 0..action_count(spec) {
        push_pair_if(spec, clashes, first, second, pairs)?;
    }
    Ok(())
}

// Appends the pair of the actions in these places, where it is one and conflicts.
fn push_pair_if(
    spec: &Spec,
    clashes: &[Clash],
    first: u8,
    second: u8,
    pairs: &mut List<Pair>,
) -> Result<(), AllocError>
    requires { AreClashes spec.now clashes.now }
    ensures { OnOk result (Gains (PairConflicts spec.now) (pair_if spec.now first second) pairs.old pairs.new) }
{
    if first > second {
        return Ok(());
    }
    let left = action_at(spec, first);
    let right = action_at(spec, second);
    push_pair(spec, clashes, left, right, pairs)
}

// Appends the pair, where it conflicts.
fn push_pair(
    spec: &Spec,
    clashes: &[Clash],
    left: Action,
    right: Action,
    pairs: &mut List<Pair>,
) -> Result<(), AllocError>
    requires { AreClashes spec.now clashes.now }
    ensures { OnOk result (Gains (PairConflicts spec.now) (pair left right ∷ []) pairs.old pairs.new) }
{
    if !pair_conflicts(spec, clashes, left, right) {
        return Ok(());
    }
    pairs.push(Pair { left, right })
}

// Whether the pair conflicts on some clause, in some order.
fn pair_conflicts(spec: &Spec, clashes: &[Clash], left: Action, right: Action) -> bool
    requires { AreClashes spec.now clashes.now }
    ensures { MatchBool result (PairConflicts spec.now (pair left right)) (PairConflicts spec.now (pair left right) → ⊥) }
{
    has_clash(clashes, left, right) || has_clash(clashes, right, left)
}

/// The number of actions.
pub(crate) fn action_count(spec: &Spec) -> u8
    ensures { result ≡ action_count spec.now }
{
    spec_is_fit(spec);
    spec.operations().len() as u8 + spec.bounds().len() as u8
}

/// The action in a place among all.
pub(crate) fn action_at(spec: &Spec, place: u8) -> Action
    ensures { result ≡ action_at spec.now place }
{
    spec_is_fit(spec);
    let operations = spec.operations().len() as u8;
    if place < operations {
        Action::Op(place)
    } else {
        Action::Drop(place - operations)
    }
}
