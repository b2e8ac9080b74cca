//! Whether a transaction has the right shape for a setting.
ghost use Rattle.std.specs.Prelude.{◌≡◌, ◌↔◌, ◌+◌, ◌<◌, ◌≤◌, IsTrue, length};
ghost use Rattle.ipa_clock.specs.Cut.{count_of};
ghost use Rattle.ipa_spec.specs.Actions.{sorts_of};
ghost use Rattle.ipa_logic.specs.Truth.{IsArguments};
ghost use Rattle.ipa_gate.specs.Shapes.{IsWithinSessions, IsArgumentAt, IsShaped};

use crate::setting::Setting;
use ipa_clock::Cut;
use ipa_history::Tx;
use ipa_logic::{Universe, argument_sort, is_action, size_of};
use ipa_spec::laws::spec_is_fit;
use ipa_spec::{Action, Spec};

// Whether the transaction has the right shape.
pub(crate) fn is_shaped(setting: &Setting, tx: &Tx) -> bool
    ensures { IsTrue result ↔ IsShaped setting.now tx.now }
{
    let spec = setting.accepted().spec();
    has_dot(tx, setting.sessions())
        && is_within_sessions(&tx.cut, setting.sessions())
        && is_action(spec, tx.action)
        && tx.count == argument_count(spec, tx.action)
        && are_arguments(spec, setting.universe(), tx.action, &tx.args)
}

// Whether its origin is a session, its number is above 0, and its cut has number - 1 at its own origin.
fn has_dot(tx: &Tx, sessions: u8) -> bool
    requires { sessions ≤ 16 }
    ensures { IsTrue result ↔ (tx.now.dot.origin < sessions) × (0 < tx.now.dot.number)
        × (count_of tx.now.cut tx.now.dot.origin + 1 ≡ tx.now.dot.number) }
{
    tx.dot.origin < sessions
        && tx.dot.number > 0
        && tx.dot.number - 1 == tx.cut.counts[tx.dot.origin as usize]
}

// Whether the cut has no transaction of an origin that is no session.
fn is_within_sessions(cut: &Cut, sessions: u8) -> bool
    ensures { IsTrue result ↔ IsWithinSessions sessions cut.now }
{
    let _counts = cut.counts;
    for origin in 0..16u8 {
        if origin >= sessions && cut.counts[origin as usize] > 0 {
            return false;
        }
    }
    true
}

/// The number of arguments of the action, at most 4.
pub fn argument_count(spec: &Spec, action: Action) -> u8
    ensures { result ≡ length (sorts_of spec.now action) }
{
    spec_is_fit(spec);
    for place in 0..4u8 {
        match argument_sort(spec, action, place as usize) {
            Some(_) => {}
            None => return place,
        }
    }
    4
}

// Whether these are arguments of the action.
fn are_arguments(spec: &Spec, universe: &Universe, action: Action, args: &[u16; 4]) -> bool
    ensures { IsTrue result ↔ IsArguments spec.now universe.now.sizes action args.now }
{
    spec_is_fit(spec);
    let _args = *args;
    for place in 0..4usize {
        if !is_argument(spec, universe, action, args, place) {
            return false;
        }
    }
    true
}

// Whether what stands in the place is an element of its sort, or 0 past the last argument.
fn is_argument(
    spec: &Spec,
    universe: &Universe,
    action: Action,
    args: &[u16; 4],
    place: usize,
) -> bool
    requires { place < 4 }
    ensures { IsTrue result ↔ IsArgumentAt spec.now universe.now.sizes action args.now place }
{
    match argument_sort(spec, action, place) {
        Some(sort) => args[place] < size_of(universe, sort),
        None => args[place] == 0,
    }
}
