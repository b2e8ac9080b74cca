//! The canonical text of a specification.
ghost use Rattle.std.specs.Prelude.{◌≡◌, ◌++◌, IfOk, OnOk};
ghost use Rattle.std.specs.List.{flat_map};
ghost use Rattle.ipa_forms.specs.Layout.{text_of};
ghost use Rattle.ipa_forms.specs.declared.forms.Form.TheVariants.{Sort};
ghost use Rattle.ipa_canonical.specs.Canonical.{bound_forms, canonical_text, clause_form, const_form, effect_form, need_form, operation_forms, pred_form, remove_form};

use crate::naming::names_of;
use crate::parts::{
    bound_form, bound_vars, clause_form, const_form, effect_form, need_form, pred_form,
    remove_form, typed_forms,
};
use ipa_forms::{Form, write_form};
use ipa_spec::{Bound, Clause, Constant, Effect, List, Literal, Name, Operation, Predicate, Spec};
use ipa_text::Page;
use std::alloc::{AllocError, Global};

/// Prints sorts.
fn write_sorts(page: &mut Page, sorts: &[Name]) -> Result<(), AllocError>
    ensures { OnOk result (page.new ≡ page.old ++ flat_map (λ name. text_of (Sort name)) sorts.now) }
{
    for name in sorts {
        write_form(page, &Form::Sort { name: *name })?;
    }
    Ok(())
}

/// Prints constants.
fn write_constants(
    page: &mut Page,
    sorts: &[Name],
    constants: &[Constant],
) -> Result<(), AllocError>
    ensures { OnOk result (page.new ≡ page.old ++ flat_map (λ x. text_of (const_form sorts.now x)) constants.now) }
{
    for constant in constants {
        write_form(page, &const_form(sorts, constant))?;
    }
    Ok(())
}

/// Prints predicates.
fn write_predicates(
    alloc: Global,
    page: &mut Page,
    sorts: &[Name],
    predicates: &[Predicate],
) -> Result<(), AllocError>
    ensures { OnOk result (page.new ≡ page.old ++ flat_map (λ x. text_of (pred_form sorts.now x)) predicates.now) }
{
    for predicate in predicates {
        let form = pred_form(alloc, sorts, predicate)?;
        write_form(page, &form)?;
    }
    Ok(())
}

/// Prints clauses.
fn write_clauses(
    alloc: Global,
    page: &mut Page,
    spec: &Spec,
    clauses: &[Clause],
) -> Result<(), AllocError>
    ensures { OnOk result (page.new ≡ page.old ++ flat_map (λ x. text_of (clause_form spec.now x)) clauses.now) }
{
    for clause in clauses {
        let form = clause_form(alloc, spec, clause)?;
        write_form(page, &form)?;
    }
    Ok(())
}

/// Prints needs.
fn write_needs(
    alloc: Global,
    page: &mut Page,
    spec: &Spec,
    own: Name,
    vars: &[Name],
    needs: &[Literal],
) -> Result<(), AllocError>
    ensures { OnOk result (page.new ≡ page.old ++ flat_map (λ x. text_of (need_form spec.now own vars.now x)) needs.now) }
{
    for need in needs {
        let form = need_form(alloc, spec, own, vars, need)?;
        write_form(page, &form)?;
    }
    Ok(())
}

/// Prints effects.
fn write_effects(
    alloc: Global,
    page: &mut Page,
    spec: &Spec,
    own: Name,
    vars: &[Name],
    effects: &[Effect],
) -> Result<(), AllocError>
    ensures { OnOk result (page.new ≡ page.old ++ flat_map (λ x. text_of (effect_form spec.now own vars.now x)) effects.now) }
{
    for effect in effects {
        let form = effect_form(alloc, spec, own, vars, effect)?;
        write_form(page, &form)?;
    }
    Ok(())
}

/// Prints further removes.
fn write_removes(
    alloc: Global,
    page: &mut Page,
    spec: &Spec,
    own: Name,
    vars: &[Name],
    removes: &[Effect],
) -> Result<(), AllocError>
    ensures { OnOk result (page.new ≡ page.old ++ flat_map (λ x. text_of (remove_form spec.now own vars.now x)) removes.now) }
{
    for effect in removes {
        let form = remove_form(alloc, spec, own, vars, effect)?;
        write_form(page, &form)?;
    }
    Ok(())
}

/// Prints an operation, its needs and its effects.
fn write_operation(
    alloc: Global,
    page: &mut Page,
    spec: &Spec,
    operation: &Operation,
) -> Result<(), AllocError>
    ensures { OnOk result (page.new ≡ page.old ++ flat_map text_of (operation_forms spec.now operation.now)) }
{
    let name = operation.name;
    let names = names_of(alloc, operation.params.as_slice())?;
    let sorts = spec.sorts().as_slice();
    let params = List::from_vec(typed_forms(alloc, sorts, operation.params.as_slice())?);
    let needs = operation.needs.as_slice();
    let effects = operation.effects.as_slice();
    write_form(page, &Form::Op { name, params })?;
    write_needs(alloc, page, spec, name, &names, needs)?;
    write_effects(alloc, page, spec, name, &names, effects)
}

/// Prints operations.
fn write_operations(
    alloc: Global,
    page: &mut Page,
    spec: &Spec,
    operations: &[Operation],
) -> Result<(), AllocError>
    ensures { OnOk result (page.new ≡ page.old ++ flat_map (λ x. flat_map text_of (operation_forms spec.now x)) operations.now) }
{
    for operation in operations {
        write_operation(alloc, page, spec, operation)?;
    }
    Ok(())
}

/// Prints a bound and its further removes.
fn write_bound(alloc: Global, page: &mut Page, spec: &Spec, bound: &Bound) -> Result<(), AllocError>
    ensures { OnOk result (page.new ≡ page.old ++ flat_map text_of (bound_forms spec.now bound.now)) }
{
    let form = bound_form(alloc, spec, bound)?;
    let vars = bound_vars(spec, bound);
    let removes = bound.removes.as_slice();
    write_form(page, &form)?;
    write_removes(alloc, page, spec, bound.name, vars, removes)
}

/// Prints bounds.
fn write_bounds(
    alloc: Global,
    page: &mut Page,
    spec: &Spec,
    bounds: &[Bound],
) -> Result<(), AllocError>
    ensures { OnOk result (page.new ≡ page.old ++ flat_map (λ x. flat_map text_of (bound_forms spec.now x)) bounds.now) }
{
    for bound in bounds {
        write_bound(alloc, page, spec, bound)?;
    }
    Ok(())
}

/// Prints the canonical text of a specification. Where memory runs out, a part of it may stand on the page.
pub fn write_spec(alloc: Global, page: &mut Page, spec: &Spec) -> Result<(), AllocError>
    ensures { OnOk result (page.new ≡ page.old ++ canonical_text spec.now) }
{
    let sorts = spec.sorts().as_slice();
    write_sorts(page, sorts)?;
    write_constants(page, sorts, spec.constants().as_slice())?;
    write_predicates(alloc, page, sorts, spec.predicates().as_slice())?;
    write_clauses(alloc, page, spec, spec.clauses().as_slice())?;
    write_operations(alloc, page, spec, spec.operations().as_slice())?;
    write_bounds(alloc, page, spec, spec.bounds().as_slice())
}

/// The canonical text of a specification, or want of memory.
pub fn print_spec(alloc: Global, spec: &Spec) -> Result<Vec<u8>, AllocError>
    ensures { IfOk result (λ bytes. bytes.items ≡ canonical_text spec.now) }
{
    let mut page = Page::new(alloc);
    write_spec(alloc, &mut page, spec)?;
    page.bytes().to_vec(alloc)
}
