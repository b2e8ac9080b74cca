//! The line for a document without a reading.
ghost use Rattle.std.specs.Prelude.{◌≡◌, ◌++◌, codes, IfOk, OnOk};
ghost use Rattle.std.specs.List.{filter_map};
ghost use Rattle.ipa_forms.specs.Layout.{applied_text, name_text};
ghost use Rattle.ipa_report.specs.Refusals.{kind_text, limit_text, refusal_text, spec_fault_text};

use ipa_forms::{write_applied, write_name};
use ipa_reader::DocKind;
use ipa_spec::{List, Name, SpecFault};
use ipa_text::Page;
use std::alloc::{AllocError, Global};

/// Prints a limit that is passed.
fn write_limit(page: &mut Page, which: u8, found: u64) -> Result<(), AllocError>
    ensures { OnOk result (page.new ≡ page.old ++ limit_text which found) }
{
    page.text("limit ")?;
    page.number(u64::from(which))?;
    page.text(" ")?;
    page.number(found)
}

/// Prints a fault of a specification.
fn write_spec_fault(page: &mut Page, fault: SpecFault) -> Result<(), AllocError>
    ensures { OnOk result (page.new ≡ page.old ++ spec_fault_text fault) }
{
    match fault {
        SpecFault::Arity => page.text("arity"),
        SpecFault::SortMismatch => page.text("sort"),
        SpecFault::UnknownName => page.text("unknown"),
        SpecFault::Duplicate => page.text("duplicate"),
        SpecFault::WildAdd => page.text("wild add"),
        SpecFault::FreeVariable => page.text("free variable"),
        SpecFault::Limit { which, found } => write_limit(page, which, found),
    }
}

/// The names that are there.
fn found_names(alloc: Global, names: &[Option<Name>; 4]) -> Result<Vec<Name>, AllocError>
    ensures { IfOk result (λ found. found.items ≡ filter_map (λ name. name) names.now) }
{
    names.iter().filter_map(|name| *name).collect(alloc)
}

/// Prints a clause that the base breaks, with the names of the elements of the broken instance.
fn write_base_clause(
    alloc: Global,
    page: &mut Page,
    clause: Name,
    elements: &[Option<Name>; 4],
) -> Result<(), AllocError>
    ensures { OnOk result (page.new ≡ page.old ++ (codes "base clause " ++ applied_text name_text clause (filter_map (λ name. name) elements.now))) }
{
    let names = List::from_vec(found_names(alloc, elements)?);
    page.text("base clause ")?;
    write_applied(page, clause, &names)
}

/// Prints what is wrong with a line.
fn write_kind(alloc: Global, page: &mut Page, kind: &DocKind) -> Result<(), AllocError>
    ensures { OnOk result (page.new ≡ page.old ++ kind_text kind.now) }
{
    match kind {
        DocKind::BadByte => page.text("byte"),
        DocKind::Existential => page.text("existential"),
        DocKind::BadLine => page.text("line"),
        DocKind::Spec(fault) => write_spec_fault(page, *fault),
        DocKind::Order => page.text("order"),
        DocKind::UnknownElement => page.text("element"),
        DocKind::SetupLimit { which, found } => write_limit(page, *which, *found),
        DocKind::BaseClause {
            clause,
            elements,
            ..
        } => write_base_clause(alloc, page, *clause, elements),
        DocKind::BaseOver { name, .. } => {
            page.text("base over ")?;
            write_name(page, *name)
        }
    }
}

/// The line that refuses a document, by the number of the refused line and what is wrong with it.
pub fn refusal(alloc: Global, line: u32, kind: &DocKind) -> Result<Vec<u8>, AllocError>
    ensures { IfOk result (λ text. text.items ≡ refusal_text line kind.now) }
{
    let mut page = Page::new(alloc);
    page.text("refused: line ")?;
    page.number(u64::from(line))?;
    page.text(": ")?;
    write_kind(alloc, &mut page, kind)?;
    page.text("\n")?;
    page.bytes().to_vec(alloc)
}
