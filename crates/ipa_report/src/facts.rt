//! Facts and literals, as reports print them.
ghost use Rattle.std.specs.Prelude.{◌≡◌, ◌++◌, OnOk};
ghost use Rattle.ipa_report.specs.Elements.{fact_text, facts_text, literal_text, predicate_name_text};

use crate::elements::{place_sorts, write_elements};
use ipa_forms::write_name;
use ipa_logic::{Fact, fact_of};
use ipa_spec::{Literal, Spec};
use ipa_text::Page;
use std::alloc::{AllocError, Global};

/// Prints the name of a predicate.
pub(crate) fn write_predicate_name(
    page: &mut Page,
    spec: &Spec,
    predicate: u8,
) -> Result<(), AllocError>
    ensures { OnOk result (page.new ≡ page.old ++ predicate_name_text spec.now predicate) }
{
    match spec.predicates().get(usize::from(predicate)) {
        Some(predicate) => write_name(page, predicate.name),
        None => Ok(()),
    }
}

/// Prints a fact.
fn write_fact(alloc: Global, page: &mut Page, spec: &Spec, fact: &Fact) -> Result<(), AllocError>
    ensures { OnOk result (page.new ≡ page.old ++ fact_text spec.now fact.now) }
{
    let sorts = place_sorts(alloc, spec, fact.predicate)?;
    write_predicate_name(page, spec, fact.predicate)?;
    write_elements(alloc, page, spec, &sorts, &fact.args)
}

/// Prints facts with a space between each two, and `none` where there is none.
pub(crate) fn write_facts(
    alloc: Global,
    page: &mut Page,
    spec: &Spec,
    facts: &[Fact],
) -> Result<(), AllocError>
    ensures { OnOk result (page.new ≡ page.old ++ facts_text spec.now facts.now) }
{
    let Some((first, later)) = facts.split_first() else {
        return page.text("none");
    };
    write_fact(alloc, page, spec, first)?;
    for fact in later {
        page.text(" ")?;
        write_fact(alloc, page, spec, fact)?;
    }
    Ok(())
}

/// Prints the fact of a literal under the values of its variables, behind `not` where it is denied.
pub(crate) fn write_literal(
    alloc: Global,
    page: &mut Page,
    spec: &Spec,
    literal: &Literal,
    values: &[u16; 4],
) -> Result<(), AllocError>
    ensures { OnOk result (page.new ≡ page.old ++ literal_text spec.now values.now literal.now) }
{
    match literal {
        Literal::Holds(atom) => write_fact(alloc, page, spec, &fact_of(spec, atom, values)),
        Literal::Fails(atom) => {
            page.text("not ")?;
            write_fact(alloc, page, spec, &fact_of(spec, atom, values))
        }
        Literal::Same(..) | Literal::Differ(..) => Ok(()),
    }
}
