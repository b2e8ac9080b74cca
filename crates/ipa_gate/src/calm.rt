//! Whether the state at a closed cut is within the bounds, mostly without a look at all groups.
//!
//! The state at the cut of an operation and all that it has seen is within the bounds, since the operation is legal. So
//! the last operation of an origin tells this of a lower cut, and it is enough to count the groups of what the few
//! transactions add that the greater cut has besides. Where the last of the origin is a drop, where they are many, or
//! where one of them overfills a bound, all groups are counted.
ghost use Rattle.std.specs.Prelude.{◌≡◌, ◌↔◌, ◌+◌, ◌^◌, ◌<◌, ◌≤◌, IsTrue, IfSome, MatchBool, List};
ghost use Rattle.std.specs.List.{sum};
ghost use Rattle.ipa_logic.specs.Facts.{IsStateOf};
ghost use Rattle.ipa_logic.specs.Groups.{Within};
ghost use Rattle.ipa_logic.specs.declared.facts.Fact.{Fact as TheFact};
ghost use Rattle.ipa_history.specs.Values.{value_at};
ghost use Rattle.ipa_sets.specs.Indexes.{IsIndexOf};
ghost use Rattle.ipa_gate.specs.Calms.{IsLegalCut, IsCalmBelow, MemberSpares, OriginSpares, AllSpare};

use ipa_bounds::within;
use ipa_clock::{Cut, Dot};
use ipa_logic::{State, Universe, View};
use ipa_overfill::spares;
use ipa_sets::Index;
use ipa_spec::{Action, Spec};

// The most transactions between two cuts that are looked at one by one.
const NEAR: u64 = 64;

/// Whether the state at the closed cut is within the bounds. It asks first what the last operation of this origin tells
/// of it. It takes no memory.
pub fn is_calm_at(
    spec: &Spec,
    universe: &Universe,
    base: &State,
    index: &Index,
    cut: &Cut,
    origin: u8,
) -> bool
    requires indexed { IsIndexOf spec.now index.now }
    requires at { IsLegalCut spec.now universe.now.sizes base.now index.now.entries cut.now }
    requires origin { origin < 16 }
    ensures { (state : List TheFact) → IsStateOf (value_at spec.now base.now index.now.entries cut.now) state →
        MatchBool result (Within spec.now.bounds state) (Within spec.now.bounds state → ⊥) }
{
    let view = index.at(base, cut);
    if is_known_calm(spec, universe, base, index, &view, cut, origin) {
        return true;
    }
    within(spec, &view)
}

// Whether it is known by the last operation of this origin that the state at the closed cut, which the view stands
// for, is within the bounds.
pub(crate) fn is_known_calm<V: View>(
    spec: &Spec,
    universe: &Universe,
    base: &State,
    index: &Index,
    view: &V,
    cut: &Cut,
    origin: u8,
) -> bool
    requires indexed { IsIndexOf spec.now index.now }
    requires at { IsLegalCut spec.now universe.now.sizes base.now index.now.entries cut.now }
    requires state { IsStateOf (value_at spec.now base.now index.now.entries cut.now) (V.facts view.now) }
    requires origin { origin < 16 }
    ensures { IsTrue result → Within spec.now.bounds (V.facts view.now) }
{
    match calm_start(spec, universe, base, index, cut, origin) {
        Some(low) => is_near(&low, cut) && spares_all(spec, index, view, &low, cut),
        None => false,
    }
}

// The cut of the last member of this origin and all that it has seen, where it is an operation, and the empty cut where
// the origin has no member. `None` where the last is a drop.
fn calm_start(
    spec: &Spec,
    universe: &Universe,
    base: &State,
    index: &Index,
    cut: &Cut,
    origin: u8,
) -> Option<Cut>
    requires indexed { IsIndexOf spec.now index.now }
    requires at { IsLegalCut spec.now universe.now.sizes base.now index.now.entries cut.now }
    requires origin { origin < 16 }
    ensures { IfSome result (λ low. IsCalmBelow spec.now base.now index.now.entries cut.now low) }
{
    let number = cut.counts[origin as usize];
    if number == 0 {
        return Some(Cut::empty());
    }
    let last = index.find(Dot { origin, number })?;
    let seen = last.cut;
    match last.action {
        Action::Op(_) => Some(seen.raised(last.dot)),
        Action::Drop(_) => None,
    }
}

// Whether the greater cut has few transactions more.
fn is_near(low: &Cut, high: &Cut) -> bool
    ensures { IsTrue result ↔ (sum high.now.counts ≤ sum low.now.counts + 64) }
{
    size_of(high) <= size_of(low) + NEAR
}

// The number of transactions in the cut.
fn size_of(cut: &Cut) -> u64
    ensures sum { result ≡ sum cut.now.counts }
    ensures small { result < 2 ^ 40 }
{
    let mut members: u64 = 0;
    for origin in 0..16usize {
        members += u64::from(cut.counts[origin]);
    }
    members
}

// Whether each transaction that the greater cut alone has spares the bounds of the viewed state.
fn spares_all<V: View>(spec: &Spec, index: &Index, view: &V, low: &Cut, high: &Cut) -> bool
    requires { IsIndexOf spec.now index.now }
    ensures { IsTrue result ↔ AllSpare spec.now index.now.entries (V.facts view.now) low.now high.now }
{
    for origin in 0..16u8 {
        let from = low.counts[origin as usize];
        let to = high.counts[origin as usize];
        if !origin_spares(spec, index, view, origin, from, to) {
            return false;
        }
    }
    true
}

// Whether each of this origin with a number above `from` and at most `to` does.
fn origin_spares<V: View>(
    spec: &Spec,
    index: &Index,
    view: &V,
    origin: u8,
    from: u32,
    to: u32,
) -> bool
    requires { IsIndexOf spec.now index.now }
    ensures { IsTrue result ↔ OriginSpares spec.now index.now.entries (V.facts view.now) origin from to }
{
    for before in from..to {
        let number = before + 1;
        if !member_spares(spec, index, view, Dot { origin, number }) {
            return false;
        }
    }
    true
}

// Whether the one with this dot does, if there is one.
fn member_spares<V: View>(spec: &Spec, index: &Index, view: &V, dot: Dot) -> bool
    requires { IsIndexOf spec.now index.now }
    ensures { IsTrue result ↔ MemberSpares spec.now index.now.entries (V.facts view.now) dot }
{
    match index.find(dot) {
        Some(tx) => spares(spec, view, tx.action, &tx.args),
        None => true,
    }
}
