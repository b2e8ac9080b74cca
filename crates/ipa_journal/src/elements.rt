//! The sorts of places, and the names of the elements in them.
ghost use Rattle.std.specs.Prelude.{◌≡◌, ◌++◌, IfOk, OnOk, slice_get, take};
ghost use Rattle.ipa_spec.specs.Actions.{sorts_of_vars};
ghost use Rattle.ipa_journal.specs.Naming.{action_sorts, clause_sorts, element_at, elements_in, four_of, predicate_sorts};

use ipa_logic::argument_sort;
use ipa_spec::{Action, List, Name, Predicate, Spec, Var};
use std::alloc::{AllocError, Global};

/// The sorts of the arguments of an action.
pub(crate) fn action_sorts(spec: &Spec, action: Action) -> [Option<u8>; 4]
    ensures { result ≡ action_sorts spec.now action }
{
    [
        argument_sort(spec, action, 0),
        argument_sort(spec, action, 1),
        argument_sort(spec, action, 2),
        argument_sort(spec, action, 3),
    ]
}

fn sort_within(predicate: &Predicate, place: usize) -> Option<u8>
    ensures { result ≡ slice_get (take predicate.now.arity predicate.now.sorts) place }
{
    if place < predicate.arity as usize {
        predicate.sorts.get(place).copied()
    } else {
        None
    }
}

/// The sorts of the places of a predicate.
pub(crate) fn predicate_sorts(spec: &Spec, number: u8) -> [Option<u8>; 4]
    ensures { result ≡ predicate_sorts spec.now number }
{
    match spec.predicates().get(number as usize) {
        Some(predicate) => [
            sort_within(predicate, 0),
            sort_within(predicate, 1),
            sort_within(predicate, 2),
            sort_within(predicate, 3),
        ],
        None => [None, None, None, None],
    }
}

fn variable_sort(variables: &List<Var>, place: usize) -> Option<u8>
    ensures { result ≡ slice_get (sorts_of_vars variables.now) place }
{
    variables.get(place).map(|variable| variable.sort)
}

/// The sorts of the variables of a clause.
pub(crate) fn clause_sorts(spec: &Spec, number: u8) -> [Option<u8>; 4]
    ensures { result ≡ clause_sorts spec.now number }
{
    match spec.clauses().get(number as usize) {
        Some(clause) => [
            variable_sort(&clause.vars, 0),
            variable_sort(&clause.vars, 1),
            variable_sort(&clause.vars, 2),
            variable_sort(&clause.vars, 3),
        ],
        None => [None, None, None, None],
    }
}

/// One more name, that of the element of a place, if the place has a sort.
fn push_element(
    names: &mut List<Name>,
    elements: &List<List<Name>>,
    sort: Option<u8>,
    element: u16,
) -> Result<(), AllocError>
    ensures { OnOk result (names.new ≡ names.old ++ element_at elements.now sort element) }
{
    let Some(sort) = sort else {
        return Ok(());
    };
    let Some(list) = elements.get(sort as usize) else {
        return Ok(());
    };
    match list.get(element as usize) {
        Some(name) => names.push(*name),
        None => Ok(()),
    }
}

/// The names of the elements of four places.
pub(crate) fn elements_in(
    alloc: Global,
    elements: &List<List<Name>>,
    sorts: [Option<u8>; 4],
    values: [u16; 4],
) -> Result<List<Name>, AllocError>
    ensures { IfOk result (λ names. names ≡ elements_in elements.now sorts values) }
{
    let mut names = List::new(alloc);
    push_element(&mut names, elements, sorts[0], values[0])?;
    push_element(&mut names, elements, sorts[1], values[1])?;
    push_element(&mut names, elements, sorts[2], values[2])?;
    push_element(&mut names, elements, sorts[3], values[3])?;
    Ok(names)
}
