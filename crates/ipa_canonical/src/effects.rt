//! The canonical line of an effect.
ghost use Rattle.std.specs.Prelude.{◌≡◌, ◌++◌, OnOk};
ghost use Rattle.ipa_forms.specs.Layout.{line_of};
ghost use Rattle.ipa_canonical.specs.Canonical.{effect_form, names_of};

use crate::naming::{names_of, predicate_name};
use crate::parts::args_form;
use ipa_forms::write_applied;
use ipa_spec::{Effect, Name, Operation, Spec};
use ipa_text::Page;
use std::alloc::{AllocError, Global};

/// Prints the line of an effect over variables of these names, without its line feed.
fn write_effect_over(
    alloc: Global,
    page: &mut Page,
    spec: &Spec,
    own: Name,
    vars: &[Name],
    effect: &Effect,
) -> Result<(), AllocError>
    ensures { OnOk result (page.new ≡ page.old ++ line_of (effect_form spec.now own vars.now effect.now)) }
{
    let args = args_form(alloc, spec, own, vars, effect)?;
    let predicate = predicate_name(spec, own, effect.predicate);
    if effect.add {
        page.text("add ")?;
        return write_applied(page, predicate, &args);
    }
    page.text("del ")?;
    write_applied(page, predicate, &args)
}

/// Prints the canonical line of an effect of the operation, without its line feed. Where memory runs out, a part of it
/// may stand on the page.
pub fn write_effect(
    alloc: Global,
    page: &mut Page,
    spec: &Spec,
    operation: &Operation,
    effect: &Effect,
) -> Result<(), AllocError>
    ensures { OnOk result (page.new ≡ page.old ++ line_of (effect_form spec.now operation.now.name (names_of operation.now.params) effect.now)) }
{
    let vars = names_of(alloc, operation.params.as_slice())?;
    write_effect_over(alloc, page, spec, operation.name, &vars, effect)
}
