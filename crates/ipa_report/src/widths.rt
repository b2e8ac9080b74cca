//! The line for a triple with too many patterns.
ghost use Rattle.std.specs.Prelude.{◌≡◌, IfOk};
ghost use Rattle.ipa_report.specs.Refusals.{too_wide_text};

use crate::actions::{write_action_name, write_clause_name};
use ipa_spec::{Action, Spec};
use ipa_text::Page;
use std::alloc::{AllocError, Global};

/// The line that refuses a specification for the triple of two actions and a clause, with the number of its patterns.
pub fn too_wide(
    alloc: Global,
    spec: &Spec,
    left: Action,
    right: Action,
    clause: u8,
    count: u64,
) -> Result<Vec<u8>, AllocError>
    ensures { IfOk result (λ text. text.items ≡ too_wide_text spec.now left right clause count) }
{
    let mut page = Page::new(alloc);
    page.text("refused: too wide ")?;
    write_action_name(&mut page, spec, left)?;
    page.text(" ")?;
    write_action_name(&mut page, spec, right)?;
    page.text(" ")?;
    write_clause_name(&mut page, spec, clause)?;
    page.text(" ")?;
    page.number(count)?;
    page.text("\n")?;
    page.bytes().to_vec(alloc)
}
