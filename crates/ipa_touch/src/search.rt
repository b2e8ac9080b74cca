//! The search of the first values under which a clause is not true after an action.
//!
//! The instances that fit the pins are gone through in lexicographic order of their values, one
//! variable at a level of the recursion. A pinned variable has one element to try. Where the
//! variables so far make the instance true, no more of them are tried, and elements with which a denied
//! fact of the clause is sure to be false are leapt over.
ghost use Rattle.std.specs.Prelude.{◌≡◌, ℕ, ◌<◌, ◌≤◌, None, List, length, slice_index_or, MatchOption};
ghost use Rattle.ipa_spec.specs.Actions.{sorts_of_vars};
ghost use Rattle.ipa_logic.specs.Truth.{value_at};
ghost use Rattle.ipa_logic.specs.Values.{IsPartial};
ghost use Rattle.ipa_touch.specs.Turns.{passes_after};
ghost use Rattle.ipa_touch.specs.Searches.{Fits, PassPinned, FirstPinned, Covers};

use crate::leaps::leap;
use crate::settled::is_settled;
use crate::step::{Step, passes_after};
use ipa_logic::{View, size_of};
use ipa_spec::Clause;

// The first values that agree with these before the place `at`, are among those that fit the pins or
// before them, and under which the clause is not true after the action.
pub(crate) fn first_pinned<V: View>(
    step: &Step<'_, V>,
    clause: &Clause,
    pins: &[Option<u16>; 4],
    at: u8,
    values: [u16; 4],
) -> Option<[u16; 4]>
    requires short { length clause.now.vars ≤ 4 }
    requires partial { IsPartial step.now.universe.now.sizes (sorts_of_vars clause.now.vars) values at }
    ensures { MatchOption result
        (PassPinned (passes_after step.now.spec.now step.now.action step.now.args.now (V.facts step.now.view.now) clause.now) step.now.universe.now.sizes (sorts_of_vars clause.now.vars) pins.now values at)
        (FirstPinned (passes_after step.now.spec.now step.now.action step.now.args.now (V.facts step.now.view.now) clause.now) step.now.universe.now.sizes (sorts_of_vars clause.now.vars) pins.now values at) }
{
    let Some(variable) = clause.vars.get(at as usize) else {
        return if passes_after(step, clause, &values) {
            None
        } else {
            Some(values)
        };
    };
    if is_settled(step, clause, at, &values) {
        return None;
    }
    let elements = elements_to_try(pins, at, size_of(step.universe, variable.sort));
    let mut element = leap(step, clause, at, &values, elements.first, elements.end);
    while element < elements.end {
        let mut next = values;
        next[at as usize] = element;
        if let Some(found) = first_pinned(step, clause, pins, at + 1, next) {
            return Some(found);
        }
        element = leap(step, clause, at, &values, element + 1, elements.end);
    }
    None
}

// Elements that follow each other: the first, and the one past the last.
#[derive(Clone, Copy)]
struct Elements {
    first: u16,
    end: u16,
}

// The elements, of a sort of this size, that the variable of this number has where values fit the pins.
fn elements_to_try(pins: &[Option<u16>; 4], variable: u8, size: u16) -> Elements
    ensures within { result.end ≤ size }
    ensures ordered { result.first ≤ result.end }
    ensures all { (v : List ℕ) → Fits pins.now v → value_at v variable < size → Covers result.first result.end (value_at v variable) }
{
    match pin_of(pins, variable) {
        None => Elements {
            first: 0,
            end: size,
        },
        Some(element) => {
            if element < size {
                Elements {
                    first: element,
                    end: element + 1,
                }
            } else {
                Elements { first: 0, end: 0 }
            }
        }
    }
}

// The element that the variable of this number is pinned to.
fn pin_of(pins: &[Option<u16>; 4], variable: u8) -> Option<u16>
    ensures { result ≡ slice_index_or pins.now variable None }
{
    match pins.get(variable as usize) {
        Some(pin) => *pin,
        None => None,
    }
}
