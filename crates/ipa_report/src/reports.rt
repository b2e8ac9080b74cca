//! The report of an analysis.
ghost use Rattle.std.specs.Prelude.{◌≡◌, ◌++◌, codes, IfOk, OnOk};
ghost use Rattle.std.specs.Fmt.{decimal};
ghost use Rattle.std.specs.List.{flat_map};
ghost use Rattle.ipa_report.specs.Elements.{facts_text};
ghost use Rattle.ipa_report.specs.Reports.{conflict_head, conflict_text, count_text, lost_text, report_text, unsafe_text};

use crate::actions::{write_action, write_clause};
use crate::facts::{write_facts, write_literal};
use ipa_logic::{Fact, State};
use ipa_pairs::{Analysis, Conflict, UnsafeDrop};
use ipa_spec::{Action, Spec};
use ipa_text::Page;
use std::alloc::{AllocError, Global};

/// Prints a line of facts behind its label.
fn write_fact_line(
    alloc: Global,
    page: &mut Page,
    spec: &Spec,
    label: &str,
    facts: &[Fact],
) -> Result<(), AllocError>
    ensures { OnOk result (page.new ≡ page.old ++ (label.now ++ facts_text spec.now facts.now ++ codes "\n")) }
{
    page.text(label)?;
    write_facts(alloc, page, spec, facts)?;
    page.text("\n")
}

/// Prints the line of a state behind its label.
fn write_state_line(
    alloc: Global,
    page: &mut Page,
    spec: &Spec,
    label: &str,
    state: &State,
) -> Result<(), AllocError>
    ensures { OnOk result (page.new ≡ page.old ++ (label.now ++ facts_text spec.now state.now ++ codes "\n")) }
{
    let facts = state.to_vec(alloc)?;
    write_fact_line(alloc, page, spec, label, &facts)
}

/// Prints the line that names the two actions of a conflict and the clause that they break.
#[tactic(auto, unfolding(crate::specs::Reports::conflict_head))]
fn write_conflict_head(
    alloc: Global,
    page: &mut Page,
    spec: &Spec,
    conflict: &Conflict,
) -> Result<(), AllocError>
    ensures { OnOk result (page.new ≡ page.old ++ conflict_head spec.now conflict.now) }
{
    page.text("conflict ")?;
    write_action(alloc, page, spec, conflict.left, &conflict.left_args)?;
    page.text(" ")?;
    write_action(alloc, page, spec, conflict.right, &conflict.right_args)?;
    page.text(" breaks ")?;
    write_clause(alloc, page, spec, conflict.clause, &conflict.values)?;
    page.text("\n")
}

/// Prints the literal that is lost in a conflict.
fn write_lost(
    alloc: Global,
    page: &mut Page,
    spec: &Spec,
    conflict: &Conflict,
) -> Result<(), AllocError>
    ensures { OnOk result (page.new ≡ page.old ++ lost_text spec.now conflict.now) }
{
    let Some(clause) = spec.clauses().get(usize::from(conflict.clause)) else {
        return Ok(());
    };
    match clause.literals.get(usize::from(conflict.lost)) {
        Some(literal) => write_literal(alloc, page, spec, literal, &conflict.values),
        None => Ok(()),
    }
}

/// Prints the line of the lost literal.
fn write_lost_line(
    alloc: Global,
    page: &mut Page,
    spec: &Spec,
    conflict: &Conflict,
) -> Result<(), AllocError>
    ensures { OnOk result (page.new ≡ page.old ++ (codes "  lost: " ++ lost_text spec.now conflict.now ++ codes "\n")) }
{
    page.text("  lost: ")?;
    write_lost(alloc, page, spec, conflict)?;
    page.text("\n")
}

/// Prints the five lines of a conflict.
#[tactic(auto, unfolding(crate::specs::Reports::conflict_text))]
fn write_conflict(
    alloc: Global,
    page: &mut Page,
    spec: &Spec,
    conflict: &Conflict,
) -> Result<(), AllocError>
    ensures { OnOk result (page.new ≡ page.old ++ conflict_text spec.now conflict.now) }
{
    write_conflict_head(alloc, page, spec, conflict)?;
    write_state_line(alloc, page, spec, "  after left: ", &conflict.after_left)?;
    write_state_line(alloc, page, spec, "  after right: ", &conflict.after_right)?;
    write_lost_line(alloc, page, spec, conflict)?;
    write_fact_line(alloc, page, spec, "  hidden: ", conflict.hidden.as_slice())
}

/// Prints the two lines of an unsafe drop.
#[tactic(auto, unfolding(crate::specs::Reports::unsafe_text))]
fn write_unsafe_drop(
    alloc: Global,
    page: &mut Page,
    spec: &Spec,
    unsafe_drop: &UnsafeDrop,
) -> Result<(), AllocError>
    ensures { OnOk result (page.new ≡ page.old ++ unsafe_text spec.now unsafe_drop.now) }
{
    page.text("unsafe ")?;
    write_action(
        alloc,
        page,
        spec,
        Action::Drop(unsafe_drop.bound),
        &unsafe_drop.args,
    )?;
    page.text(" breaks ")?;
    write_clause(alloc, page, spec, unsafe_drop.clause, &unsafe_drop.values)?;
    page.text("\n")?;
    write_state_line(alloc, page, spec, "  before: ", &unsafe_drop.before)
}

/// Prints all conflicts.
fn write_conflicts(
    alloc: Global,
    page: &mut Page,
    spec: &Spec,
    conflicts: &[Conflict],
) -> Result<(), AllocError>
    ensures { OnOk result (page.new ≡ page.old ++ flat_map (conflict_text spec.now) conflicts.now) }
{
    for conflict in conflicts {
        write_conflict(alloc, page, spec, conflict)?;
    }
    Ok(())
}

/// Prints all unsafe drops.
fn write_unsafe_drops(
    alloc: Global,
    page: &mut Page,
    spec: &Spec,
    unsafe_drops: &[UnsafeDrop],
) -> Result<(), AllocError>
    ensures { OnOk result (page.new ≡ page.old ++ flat_map (unsafe_text spec.now) unsafe_drops.now) }
{
    for unsafe_drop in unsafe_drops {
        write_unsafe_drop(alloc, page, spec, unsafe_drop)?;
    }
    Ok(())
}

/// Prints a number behind its label.
fn write_count(page: &mut Page, label: &str, count: usize) -> Result<(), AllocError>
    ensures { OnOk result (page.new ≡ page.old ++ (label.now ++ decimal count)) }
{
    page.text(label)?;
    page.number(count as u64)
}

/// Prints the last line of a report.
fn write_counts(page: &mut Page, conflicts: usize, unsafe_drops: usize) -> Result<(), AllocError>
    ensures { OnOk result (page.new ≡ page.old ++ count_text conflicts unsafe_drops) }
{
    write_count(page, "conflicts ", conflicts)?;
    write_count(page, ", unsafe drops ", unsafe_drops)?;
    page.text("\n")
}

/// Prints the report of an analysis.
pub(crate) fn write_report(
    alloc: Global,
    page: &mut Page,
    spec: &Spec,
    analysis: &Analysis,
) -> Result<(), AllocError>
    ensures { OnOk result (page.new ≡ page.old ++ report_text spec.now analysis.now) }
{
    write_conflicts(alloc, page, spec, analysis.conflicts.as_slice())?;
    write_unsafe_drops(alloc, page, spec, analysis.unsafe_drops.as_slice())?;
    write_counts(page, analysis.conflicts.len(), analysis.unsafe_drops.len())
}

/// The report of an analysis of the specification: all conflicts, then all unsafe drops, then their numbers.
pub fn report(alloc: Global, spec: &Spec, analysis: &Analysis) -> Result<Vec<u8>, AllocError>
    ensures { IfOk result (λ text. text.items ≡ report_text spec.now analysis.now) }
{
    let mut page = Page::new(alloc);
    write_report(alloc, &mut page, spec, analysis)?;
    page.bytes().to_vec(alloc)
}
