//! Whether a state keeps all clauses.
//!
//! The instances of a clause are gone through in lexicographic order of their values, one variable
//! at a level of the recursion, up to the first that is not true.
ghost use Rattle.std.specs.Prelude.{◌≡◌, ℕ, ◌<◌, ◌≤◌, Some, length, slice_get, MatchOption};
ghost use Rattle.ipa_spec.specs.Actions.{sorts_of_vars};
ghost use Rattle.ipa_logic.specs.Facts.{has, size_of};
ghost use Rattle.ipa_logic.specs.Truth.{value_at, instance_true, IsOver, Keeps, KeepsClause, IsFirstBroken};
ghost use Rattle.ipa_logic.specs.Values.{IsPartial, PassFrom, IsFirstFrom};

use crate::facts::{Broken, Universe};
use crate::literals::holds_instance;
use crate::state::State;
use crate::view::View;
use ipa_spec::laws::spec_is_fit;
use ipa_spec::{Clause, Spec};

/// The first instance that is not true in the state, by clause and then by values, or `None` where
/// the state keeps all clauses.
pub fn keeps(spec: &Spec, universe: &Universe, state: &State) -> Option<Broken>
    ensures { MatchOption result (Keeps spec.now universe.now.sizes (has state.now)) (λ broken. IsFirstBroken spec.now universe.now.sizes (has state.now) broken.clause broken.values) }
{
    spec_is_fit(spec);
    for (number, clause) in spec.clauses().as_slice().iter().enumerate() {
        if let Some(values) = first_broken_values(spec, universe, state, clause, 0, [0; 4]) {
            return Some(Broken {
                clause: number as u8,
                values,
            });
        }
    }
    None
}

// The first values that agree with these before the place `at` and under which the clause is not true.
fn first_broken_values<V: View>(
    spec: &Spec,
    universe: &Universe,
    view: &V,
    clause: &Clause,
    at: u8,
    values: [u16; 4],
) -> Option<[u16; 4]>
    requires short { length clause.now.vars ≤ 4 }
    requires partial { IsPartial universe.now.sizes (sorts_of_vars clause.now.vars) values at }
    ensures { MatchOption result
        (PassFrom (λ v. instance_true spec.now (has (V.facts view.now)) v clause.now) universe.now.sizes (sorts_of_vars clause.now.vars) values at)
        (IsFirstFrom (λ v. instance_true spec.now (has (V.facts view.now)) v clause.now) universe.now.sizes (sorts_of_vars clause.now.vars) values at) }
{
    let Some(variable) = clause.vars.get(at as usize) else {
        return if holds_instance(spec, view, clause, &values) {
            None
        } else {
            Some(values)
        };
    };
    for element in 0..size_of(universe, variable.sort) {
        let mut next = values;
        next[at as usize] = element;
        if let Some(found) = first_broken_values(spec, universe, view, clause, at + 1, next) {
            return Some(found);
        }
    }
    None
}

/// The number of elements of a sort, 0 for a sort that the universe does not name.
pub fn size_of(universe: &Universe, sort: u8) -> u16
    ensures { result ≡ size_of universe.now.sizes sort }
{
    match universe.sizes.get(sort as usize) {
        Some(size) => *size,
        None => 0,
    }
}
