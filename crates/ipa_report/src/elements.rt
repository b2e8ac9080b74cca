//! Elements, as reports name them: a constant by its name, any other by its sort and its number.
ghost use Rattle.std.specs.Prelude.{◌≡◌, ◌+◌, ◌++◌, IfOk, OnOk, slice_get};
ghost use Rattle.ipa_spec.specs.Actions.{place_sorts, sorts_of_vars};
ghost use Rattle.ipa_spec.specs.Constants.{constants_of};
ghost use Rattle.ipa_report.specs.Elements.{constant_at, element_text, element_of_sort, elements_of, elements_text, found_name_text};

use ipa_forms::{Printed, write_list, write_name};
use ipa_spec::{Constant, List, Name, Spec, Var};
use ipa_text::Page;
use std::alloc::{AllocError, Global};

/// An element of a sort.
#[derive(Clone, Copy)]
pub enum Element {
    /// The constant of this name.
    Constant(Name),
    /// An element that is no constant.
    Numbered {
        /// The name of its sort, where the specification has such a sort.
        sort: Option<Name>,
        /// Its number among all elements of the sort, from 0.
        number: u16,
    },
}

/// Prints a name, and nothing where there is none.
fn write_found_name(page: &mut Page, name: Option<Name>) -> Result<(), AllocError>
    ensures { OnOk result (page.new ≡ page.old ++ found_name_text name) }
{
    match name {
        Some(name) => write_name(page, name),
        None => Ok(()),
    }
}

/// Prints an element by its sort and its number.
fn write_number(page: &mut Page, sort: Option<Name>, number: u16) -> Result<(), AllocError>
    ensures { OnOk result (page.new ≡ page.old ++ element_text (Element.Numbered sort number)) }
{
    write_found_name(page, sort)?;
    page.text("#")?;
    page.number(u64::from(number) + 1)
}

impl Printed for Element {
    ghost shown = { element_text };

    fn write(&self, page: &mut Page) -> Result<(), AllocError> {
        match self {
            Element::Constant(name) => write_name(page, *name),
            Element::Numbered { sort, number } => write_number(page, *sort, *number),
        }
    }
}

/// The sorts of some variables.
pub(crate) fn sorts_of_vars(alloc: Global, vars: &[Var]) -> Result<Vec<u8>, AllocError>
    ensures { IfOk result (λ sorts. sorts.items ≡ sorts_of_vars vars.now) }
{
    vars.iter().map(|var| var.sort).collect(alloc)
}

/// The sorts of the places of a predicate.
pub(crate) fn place_sorts(alloc: Global, spec: &Spec, predicate: u8) -> Result<Vec<u8>, AllocError>
    ensures { IfOk result (λ sorts. sorts.items ≡ place_sorts spec.now.predicates predicate) }
{
    match spec.predicates().get(usize::from(predicate)) {
        Some(predicate) => predicate
            .sorts
            .iter()
            .take(usize::from(predicate.arity))
            .copied()
            .collect(alloc),
        None => Ok(Vec::new(alloc)),
    }
}

/// The constant that is the element of a sort with this number, or `None` where that is no constant.
fn constant_at(spec: &Spec, sort: u8, number: u16) -> Option<Constant>
    ensures { result ≡ constant_at spec.now sort number }
{
    constant_behind(spec.constants().as_slice(), sort, number)
}

/// The constant of a sort behind this many others of the sort, or `None` where there are no more.
fn constant_behind(constants: &[Constant], sort: u8, number: u16) -> Option<Constant>
    ensures { result ≡ slice_get (constants_of constants.now sort) number }
{
    let mut left = number;
    for constant in constants {
        if constant.sort == sort {
            if left == 0 {
                return Some(*constant);
            }
            left -= 1;
        }
    }
    None
}

/// The element of a sort with a number from 0.
fn element_of_sort(spec: &Spec, sort: u8, number: u16) -> Element
    ensures { result ≡ element_of_sort spec.now (sort, number) }
{
    match constant_at(spec, sort, number) {
        Some(constant) => Element::Constant(constant.name),
        None => Element::Numbered {
            sort: spec.sorts().get(usize::from(sort)).copied(),
            number,
        },
    }
}

/// The elements of these sorts with these numbers.
fn elements_of(
    alloc: Global,
    spec: &Spec,
    sorts: &[u8],
    numbers: &[u16],
) -> Result<Vec<Element>, AllocError>
    ensures { IfOk result (λ elements. elements.items ≡ elements_of spec.now sorts.now numbers.now) }
{
    sorts
        .iter()
        .zip(numbers.iter())
        .map(|(sort, number)| element_of_sort(spec, *sort, *number))
        .collect(alloc)
}

/// Prints the elements of these sorts with these numbers.
pub(crate) fn write_elements(
    alloc: Global,
    page: &mut Page,
    spec: &Spec,
    sorts: &[u8],
    numbers: &[u16],
) -> Result<(), AllocError>
    ensures { OnOk result (page.new ≡ page.old ++ elements_text spec.now sorts.now numbers.now) }
{
    let elements = List::from_vec(elements_of(alloc, spec, sorts, numbers)?);
    write_list(page, &elements)
}
