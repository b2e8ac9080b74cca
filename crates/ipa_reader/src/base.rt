//! The base of a document, and the refusals at the end of a document.
ghost use Rattle.std.specs.Prelude.{◌≡◌, ℕ, ◌*◌, ◌<◌, ◌≤◌, length, slice_get, IfOk, MatchOption};
ghost use Rattle.std.specs.Option.{option_map_or};
ghost use Rattle.ipa_spec.specs.Actions.{sorts_of_vars};
ghost use Rattle.ipa_logic.specs.Facts.{size_of, has, IsStateOf};
ghost use Rattle.ipa_reader.specs.Setups.{element_count, size_list, element_name, element_names, value_count, instance_count, IsRefusedAtEnd, IsKept};
ghost use Rattle.ipa_reader.specs.Soundness.{IsWithinElements};

use crate::elements::elements_at;
use crate::names::Names;
use crate::refusals::DocKind;
use ipa_bounds::first_drop;
use ipa_logic::{Fact, State, Universe, keeps, size_of};
use ipa_spec::laws::spec_is_fit;
use ipa_spec::{List, Name, Spec, Var};
use std::alloc::{AllocError, Global};

/// The greatest number of instances of all clauses.
const GREATEST_INSTANCE_COUNT: u64 = 16777216;

/// The number of elements of a sort.
fn element_count(elements: &List<Names>, sort: usize) -> u16
    requires { IsWithinElements elements.now }
    ensures { result ≡ element_count elements.now sort }
{
    elements_at(elements, sort).len() as u16
}

/// The number of elements of each sort.
pub(crate) fn universe_of(elements: &List<Names>) -> Universe
    requires { IsWithinElements elements.now }
    ensures { result.sizes ≡ size_list elements.now }
{
    Universe {
        sizes: [
            element_count(elements, 0),
            element_count(elements, 1),
            element_count(elements, 2),
            element_count(elements, 3),
            element_count(elements, 4),
            element_count(elements, 5),
            element_count(elements, 6),
            element_count(elements, 7),
        ],
    }
}

/// The state in which these facts are true.
pub(crate) fn state_of(alloc: Global, facts: &[Fact]) -> Result<State, AllocError>
    ensures { IfOk result (IsStateOf (has facts.now)) }
{
    let mut state = State::new(alloc);
    for fact in facts {
        let _changed = state.insert(*fact)?;
    }
    Ok(state)
}

/// The number of elements of a variable's sort, and 1 where there is no variable.
fn size_at(universe: &Universe, vars: &[Var], place: usize) -> u16
    requires { (sort : ℕ) → size_of universe.now.sizes sort ≤ 256 }
    ensures value { result ≡ option_map_or (size_of universe.now.sizes) (slice_get (sorts_of_vars vars.now) place) 1 }
    ensures within { result ≤ 256 }
{
    match sort_at(vars, place) {
        Some(sort) => size_of(universe, sort),
        None => 1,
    }
}

/// The sort of a variable.
fn sort_at(vars: &[Var], place: usize) -> Option<u8>
    ensures { result ≡ slice_get (sorts_of_vars vars.now) place }
{
    vars.get(place).map(|var| var.sort)
}

/// A count of values, times the number of elements of one more variable.
fn times(count: u64, size: u16) -> u64
    requires count { count ≤ 16777216 }
    requires size { size ≤ 256 }
    ensures value { result ≡ count * size }
    ensures within { result ≤ count * 256 }
{
    count * size as u64
}

/// The number of values of a clause's variables.
fn value_count(universe: &Universe, vars: &[Var]) -> u64
    requires sizes { (sort : ℕ) → size_of universe.now.sizes sort ≤ 256 }
    requires short { length vars.now ≤ 4 }
    ensures value { result ≡ value_count universe.now.sizes (sorts_of_vars vars.now) }
    ensures within { result ≤ 4294967296 }
{
    let first = times(1, size_at(universe, vars, 0));
    let second = times(first, size_at(universe, vars, 1));
    let third = times(second, size_at(universe, vars, 2));
    times(third, size_at(universe, vars, 3))
}

/// The number of instances of all clauses.
fn instance_count(spec: &Spec, universe: &Universe) -> u64
    requires { (sort : ℕ) → size_of universe.now.sizes sort ≤ 256 }
    ensures { result ≡ instance_count spec.now universe.now.sizes }
{
    spec_is_fit(spec);
    let mut total: u64 = 0;
    for clause in spec.clauses().as_slice() {
        total += value_count(universe, clause.vars.as_slice());
    }
    total
}

/// The name of the element that a variable stands for.
fn element_name(
    elements: &List<Names>,
    vars: &[Var],
    values: &[u16; 4],
    place: usize,
) -> Option<Name>
    requires { place < 4 }
    ensures { result ≡ element_name elements.now (sorts_of_vars vars.now) values.now place }
{
    match sort_at(vars, place) {
        Some(sort) => elements_at(elements, sort as usize)
            .get(values[place] as usize)
            .copied(),
        None => None,
    }
}

/// The names of the elements that the variables stand for.
fn element_names(elements: &List<Names>, vars: &[Var], values: &[u16; 4]) -> [Option<Name>; 4]
    ensures { result ≡ element_names elements.now (sorts_of_vars vars.now) values.now }
{
    [
        element_name(elements, vars, values, 0),
        element_name(elements, vars, values, 1),
        element_name(elements, vars, values, 2),
        element_name(elements, vars, values, 3),
    ]
}

/// The refusal of a base that breaks a clause, or that has a group over a bound.
fn base_refusal(
    spec: &Spec,
    elements: &List<Names>,
    universe: &Universe,
    base: &State,
) -> Option<DocKind>
    requires sizes { universe.now.sizes ≡ size_list elements.now }
    requires instances { instance_count spec.now (size_list elements.now) ≤ 16777216 }
    ensures { MatchOption result (IsKept spec.now (size_list elements.now) base.now) (IsRefusedAtEnd spec.now elements.now base.now) }
{
    if let Some(broken) = keeps(spec, universe, base) {
        let clause = spec.clauses().get(broken.clause as usize)?;
        return Some(DocKind::BaseClause {
            broken,
            clause: clause.name,
            elements: element_names(elements, clause.vars.as_slice(), &broken.values),
        });
    }
    let drop = first_drop(spec, base)?;
    let bound = spec.bounds().get(drop.bound as usize)?;
    Some(DocKind::BaseOver {
        bound: drop.bound,
        name: bound.name,
    })
}

/// The refusal at the end of a document.
pub(crate) fn refusal_at_end(
    spec: &Spec,
    elements: &List<Names>,
    universe: &Universe,
    base: &State,
) -> Option<DocKind>
    requires within { IsWithinElements elements.now }
    requires sizes { universe.now.sizes ≡ size_list elements.now }
    ensures { MatchOption result (IsKept spec.now (size_list elements.now) base.now) (IsRefusedAtEnd spec.now elements.now base.now) }
{
    let instances = instance_count(spec, universe);
    if instances > GREATEST_INSTANCE_COUNT {
        return Some(DocKind::SetupLimit {
            which: 18,
            found: instances,
        });
    }
    base_refusal(spec, elements, universe, base)
}
