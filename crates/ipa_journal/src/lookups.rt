//! The names of a document, looked up.
ghost use Rattle.std.specs.Prelude.{◌≡◌, ◌<◌, IfOk, IfSome, length};
ghost use Rattle.std.specs.List.{position};
ghost use Rattle.ipa_spec.specs.Faults.{same_name};
ghost use Rattle.ipa_names.specs.Naming.{number_in};
ghost use Rattle.ipa_reader.specs.Arrangements.{elements_at};
ghost use Rattle.ipa_journal.specs.Meaning.{bound_named, clause_named, operation_named, predicate_named};

use ipa_names::same_name;
use ipa_reader::{Names, Setup, element_index};
use ipa_spec::laws::spec_is_fit;
use ipa_spec::{Bound, Clause, List, Name, Operation, Predicate, Spec};
use std::alloc::{AllocError, Global};
use std::marker::Model;

/// The names of elements by sorts, with an index. Contracts see the lists of names.
#[derive(Drop)]
pub(crate) struct Elements {
    lists: List<Names>,
}

impl Model for Elements {
    ghost use Rattle.std.specs.Prelude.{List};
    ghost use Rattle.ipa_spec.specs.declared.names.Name.{Name};
    ghost use Rattle.ipa_reader.specs.Soundness.{IsWithinElements};

    ghost Value = { List (List Name) };

    ghost view = { λ a. a.lists };

    ghost invariant = { λ a. IsWithinElements a.lists };
}

impl Elements {
    /// The elements of a setup.
    pub(crate) fn new(alloc: Global, setup: &Setup) -> Result<Elements, AllocError>
        ensures { IfOk result (λ elements. elements ≡ setup.now.elements) }
    {
        let lists = element_index(alloc, &setup.elements)?;
        Ok(Elements { lists })
    }

    /// The number of an element of a sort.
    pub(crate) fn number(&self, sort: u8, name: &Name) -> Option<u16>
        ensures { result ≡ number_in (elements_at self.now sort) name.now }
    {
        let names = self.lists.get(sort as usize)?;
        let number = names.number(name)?;
        Some(number as u16)
    }
}

fn predicate_place(predicates: &[Predicate], name: &Name) -> Option<usize>
    ensures value { result ≡ position (λ x. same_name x.name name.now) predicates.now }
    ensures within { IfSome result (λ place. place < length predicates.now) }
{
    predicates
        .iter()
        .position(|predicate| same_name(&predicate.name, name))
}

/// The number of the predicate of this name.
pub(crate) fn predicate_named(spec: &Spec, name: &Name) -> Option<u8>
    ensures { result ≡ predicate_named spec.now name.now }
{
    spec_is_fit(spec);
    let number = predicate_place(spec.predicates().as_slice(), name)?;
    Some(number as u8)
}

fn clause_place(clauses: &[Clause], name: &Name) -> Option<usize>
    ensures value { result ≡ position (λ x. same_name x.name name.now) clauses.now }
    ensures within { IfSome result (λ place. place < length clauses.now) }
{
    clauses
        .iter()
        .position(|clause| same_name(&clause.name, name))
}

/// The number of the clause of this name.
pub(crate) fn clause_named(spec: &Spec, name: &Name) -> Option<u8>
    ensures { result ≡ clause_named spec.now name.now }
{
    spec_is_fit(spec);
    let number = clause_place(spec.clauses().as_slice(), name)?;
    Some(number as u8)
}

fn operation_place(operations: &[Operation], name: &Name) -> Option<usize>
    ensures value { result ≡ position (λ x. same_name x.name name.now) operations.now }
    ensures within { IfSome result (λ place. place < length operations.now) }
{
    operations
        .iter()
        .position(|operation| same_name(&operation.name, name))
}

/// The number of the operation of this name.
pub(crate) fn operation_named(spec: &Spec, name: &Name) -> Option<u8>
    ensures { result ≡ operation_named spec.now name.now }
{
    spec_is_fit(spec);
    let number = operation_place(spec.operations().as_slice(), name)?;
    Some(number as u8)
}

fn bound_place(bounds: &[Bound], name: &Name) -> Option<usize>
    ensures value { result ≡ position (λ x. same_name x.name name.now) bounds.now }
    ensures within { IfSome result (λ place. place < length bounds.now) }
{
    bounds.iter().position(|bound| same_name(&bound.name, name))
}

/// The number of the bound of this name.
pub(crate) fn bound_named(spec: &Spec, name: &Name) -> Option<u8>
    ensures { result ≡ bound_named spec.now name.now }
{
    spec_is_fit(spec);
    let number = bound_place(spec.bounds().as_slice(), name)?;
    Some(number as u8)
}
