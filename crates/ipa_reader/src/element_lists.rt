//! The lists of elements, one for each sort.
ghost use Rattle.std.specs.Prelude.{◌≡◌, ℕ, ◌<◌, ◌++◌, List, false, IfOk, length};
ghost use Rattle.ipa_spec.specs.Faults.{has_repeat};
ghost use Rattle.ipa_spec.specs.declared.names.Name.{Name};
ghost use Rattle.ipa_reader.specs.Arrangements.{elements_at, elements_of, with_more, with_elements};

use crate::names::Names;
use ipa_names::{Declared, number_in};
use ipa_spec::{List, Name};
use std::alloc::{AllocError, Global};

/// Empty lists behind the others, until a list of this number stands.
fn padded(alloc: Global, mut lists: Vec<Names>, number: usize) -> Result<Vec<Names>, AllocError>
    ensures within { IfOk result (λ all. number < length all.items) }
    ensures own { IfOk result (λ all. elements_at all.items number ≡ elements_at lists.items number) }
    ensures more { (names : List Name) → IfOk result (λ all. with_more number names all.items ≡ with_more number names lists.items) }
{
    'padding: while lists.len() <= number {
        lists.push(Names::new(alloc))?;
    }
    Ok(lists)
}

/// A list of names with others behind it, none of which stands twice.
fn extended(own: Names, names: &[Name]) -> Result<Names, AllocError>
    requires { has_repeat (λ name. name) (own ++ names.now) ≡ false }
    ensures { IfOk result (λ all. all ≡ own ++ names.now) }
{
    let mut all = own;
    for name in names {
        all.push(*name)?;
    }
    Ok(all)
}

/// More names in the list of a number.
fn with_more(
    alloc: Global,
    elements: List<Names>,
    number: usize,
    names: &[Name],
) -> Result<List<Names>, AllocError>
    requires { has_repeat (λ name. name) (elements_at elements number ++ names.now) ≡ false }
    ensures { IfOk result (λ now. now ≡ with_more number names.now elements) }
{
    let mut lists = padded(alloc, elements.into_vec(), number)?;
    let own = lists.remove(number);
    let grown = extended(own, names)?;
    lists.insert(number, grown)?;
    Ok(List::from_vec(lists))
}

/// More elements of a sort.
pub(crate) fn with_elements(
    alloc: Global,
    declared: &Declared,
    elements: List<Names>,
    sort: &Name,
    names: &[Name],
) -> Result<List<Names>, AllocError>
    requires { has_repeat (λ name. name) (elements_of declared.now elements sort.now ++ names.now) ≡ false }
    ensures { IfOk result (λ now. now ≡ with_elements declared.now elements sort.now names.now) }
{
    match number_in(declared.sorts.as_slice(), sort) {
        Some(number) => with_more(alloc, elements, number, names),
        None => Ok(elements),
    }
}

/// The names of the elements alone, without their index.
pub(crate) fn lists_of(
    alloc: Global,
    elements: &List<Names>,
) -> Result<List<List<Name>>, AllocError>
    ensures { IfOk result (λ all. all ≡ elements.now) }
{
    let mut all = List::new(alloc);
    for names in elements.as_slice() {
        let copied = Vec::from_slice(alloc, names.as_slice())?;
        all.push(List::from_vec(copied))?;
    }
    Ok(all)
}

/// The names of elements with an index for each sort, where no name stands twice in its sort.
pub fn element_index(alloc: Global, elements: &List<List<Name>>) -> Result<List<Names>, AllocError>
    requires { (n : ℕ) → has_repeat (λ name. name) (elements_at elements.now n) ≡ false }
    ensures { IfOk result (λ all. all ≡ elements.now) }
{
    let mut all = List::new(alloc);
    for names in elements.as_slice() {
        let indexed = extended(Names::new(alloc), names.as_slice())?;
        all.push(indexed)?;
    }
    Ok(all)
}
