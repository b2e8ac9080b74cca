//! Actions and clauses, as reports print them.
ghost use Rattle.std.specs.Prelude.{◌≡◌, ◌++◌, IfOk, OnOk};
ghost use Rattle.ipa_spec.specs.Actions.{sorts_of};
ghost use Rattle.ipa_report.specs.Elements.{action_name_text, action_text, clause_name_text, clause_sorts, clause_text};

use crate::elements::{place_sorts, sorts_of_vars, write_elements};
use ipa_forms::write_name;
use ipa_spec::{Action, Spec};
use ipa_text::Page;
use std::alloc::{AllocError, Global};

/// Prints the name of an action: an operation's, or `drop` and a bound's.
pub(crate) fn write_action_name(
    page: &mut Page,
    spec: &Spec,
    action: Action,
) -> Result<(), AllocError>
    ensures { OnOk result (page.new ≡ page.old ++ action_name_text spec.now action) }
{
    match action {
        Action::Op(number) => match spec.operations().get(usize::from(number)) {
            Some(operation) => write_name(page, operation.name),
            None => Ok(()),
        },
        Action::Drop(number) => {
            page.text("drop ")?;
            match spec.bounds().get(usize::from(number)) {
                Some(bound) => write_name(page, bound.name),
                None => Ok(()),
            }
        }
    }
}

/// The sorts of the arguments of an action.
fn sorts_of(alloc: Global, spec: &Spec, action: Action) -> Result<Vec<u8>, AllocError>
    ensures { IfOk result (λ sorts. sorts.items ≡ sorts_of spec.now action) }
{
    match action {
        Action::Op(number) => match spec.operations().get(usize::from(number)) {
            Some(operation) => sorts_of_vars(alloc, operation.params.as_slice()),
            None => Ok(Vec::new(alloc)),
        },
        Action::Drop(number) => match spec.bounds().get(usize::from(number)) {
            Some(bound) => place_sorts(alloc, spec, bound.predicate),
            None => Ok(Vec::new(alloc)),
        },
    }
}

/// Prints an action with its arguments.
pub(crate) fn write_action(
    alloc: Global,
    page: &mut Page,
    spec: &Spec,
    action: Action,
    args: &[u16; 4],
) -> Result<(), AllocError>
    ensures { OnOk result (page.new ≡ page.old ++ action_text spec.now action args.now) }
{
    let sorts = sorts_of(alloc, spec, action)?;
    write_action_name(page, spec, action)?;
    write_elements(alloc, page, spec, &sorts, args)
}

/// Prints the name of a clause.
pub(crate) fn write_clause_name(page: &mut Page, spec: &Spec, clause: u8) -> Result<(), AllocError>
    ensures { OnOk result (page.new ≡ page.old ++ clause_name_text spec.now clause) }
{
    match spec.clauses().get(usize::from(clause)) {
        Some(clause) => write_name(page, clause.name),
        None => Ok(()),
    }
}

/// The sorts of the variables of a clause.
fn clause_sorts(alloc: Global, spec: &Spec, clause: u8) -> Result<Vec<u8>, AllocError>
    ensures { IfOk result (λ sorts. sorts.items ≡ clause_sorts spec.now clause) }
{
    match spec.clauses().get(usize::from(clause)) {
        Some(clause) => sorts_of_vars(alloc, clause.vars.as_slice()),
        None => Ok(Vec::new(alloc)),
    }
}

/// Prints a clause with the values of its variables.
pub(crate) fn write_clause(
    alloc: Global,
    page: &mut Page,
    spec: &Spec,
    clause: u8,
    values: &[u16; 4],
) -> Result<(), AllocError>
    ensures { OnOk result (page.new ≡ page.old ++ clause_text spec.now clause values.now) }
{
    let sorts = clause_sorts(alloc, spec, clause)?;
    write_clause_name(page, spec, clause)?;
    write_elements(alloc, page, spec, &sorts, values)
}
