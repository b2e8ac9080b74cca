//! The text of a greedy repair.
ghost use Rattle.std.specs.Prelude.{◌≡◌, ◌++◌, codes, IfOk, OnOk};
ghost use Rattle.std.specs.Fmt.{decimal};
ghost use Rattle.std.specs.List.{flat_map, join_by};
ghost use Rattle.ipa_repair.specs.declared.candidates.Candidate.TheVariants.{Adds};
ghost use Rattle.ipa_report.specs.Reports.{report_text};
ghost use Rattle.ipa_report.specs.RepairTexts.{done_text, offer_text, offers_text, pair_line, part_text, repair_text, repaired_line, step_text};

use crate::actions::write_action_name;
use crate::facts::write_predicate_name;
use crate::reports::write_report;
use ipa_canonical::{write_effect, write_spec};
use ipa_forms::write_name;
use ipa_pairs::Analysis;
use ipa_repair::{Candidate, Offer, RepairStep, Repaired};
use ipa_spec::{Effect, Spec};
use ipa_text::Page;
use std::alloc::{AllocError, Global};

/// Prints the name of an operation and the line of its new effect.
fn write_added(
    alloc: Global,
    page: &mut Page,
    spec: &Spec,
    number: u8,
    effect: &Effect,
) -> Result<(), AllocError>
    ensures { OnOk result (page.new ≡ page.old ++ part_text spec.now (Adds number effect.now)) }
{
    match spec.operations().get(usize::from(number)) {
        Some(operation) => {
            write_name(page, operation.name)?;
            page.text(" ")?;
            write_effect(alloc, page, spec, operation, effect)
        }
        None => Ok(()),
    }
}

/// Prints a part of an offer.
fn write_part(
    alloc: Global,
    page: &mut Page,
    spec: &Spec,
    part: &Candidate,
) -> Result<(), AllocError>
    ensures { OnOk result (page.new ≡ page.old ++ part_text spec.now part.now) }
{
    match part {
        Candidate::Adds { op, effect } => write_added(alloc, page, spec, *op, effect),
        Candidate::Flips { predicate } => {
            page.text("flip ")?;
            write_predicate_name(page, spec, *predicate)
        }
    }
}

/// Prints the parts of an offer, with `; ` between them.
fn write_parts(
    alloc: Global,
    page: &mut Page,
    spec: &Spec,
    parts: &[Candidate],
) -> Result<(), AllocError>
    ensures { OnOk result (page.new ≡ page.old ++ join_by (part_text spec.now) (codes "; ") parts.now) }
{
    let Some((first, later)) = parts.split_first() else {
        return Ok(());
    };
    write_part(alloc, page, spec, first)?;
    for part in later {
        page.text("; ")?;
        write_part(alloc, page, spec, part)?;
    }
    Ok(())
}

/// Prints the line of the offer with this number.
#[tactic(auto, unfolding(crate::specs::RepairTexts::offer_text))]
fn write_offer(
    alloc: Global,
    page: &mut Page,
    spec: &Spec,
    number: u64,
    offer: &Offer,
) -> Result<(), AllocError>
    ensures { OnOk result (page.new ≡ page.old ++ offer_text spec.now number offer.now) }
{
    page.text("# offer ")?;
    page.number(number)?;
    page.text(": ")?;
    write_parts(alloc, page, spec, offer.parts.as_slice())?;
    page.text("\n")
}

/// Prints the lines of all offers of a pair.
fn write_offers(
    alloc: Global,
    page: &mut Page,
    spec: &Spec,
    offers: &[Offer],
) -> Result<(), AllocError>
    ensures { OnOk result (page.new ≡ page.old ++ offers_text spec.now 1 offers.now) }
{
    let mut number: u64 = 1;
    for offer in offers {
        write_offer(alloc, page, spec, number, offer)?;
        number += 1;
    }
    Ok(())
}

/// Prints the line of the pair of a step.
#[tactic(auto, unfolding(crate::specs::RepairTexts::pair_line))]
fn write_pair(page: &mut Page, spec: &Spec, step: &RepairStep) -> Result<(), AllocError>
    ensures { OnOk result (page.new ≡ page.old ++ pair_line spec.now step.now) }
{
    page.text("# pair ")?;
    write_action_name(page, spec, step.left)?;
    page.text(" ")?;
    write_action_name(page, spec, step.right)?;
    page.text("\n")
}

/// Prints a line with a number behind its label.
fn write_numbered(page: &mut Page, label: &str, number: u64) -> Result<(), AllocError>
    ensures { OnOk result (page.new ≡ page.old ++ (label.now ++ decimal number ++ codes "\n")) }
{
    page.text(label)?;
    page.number(number)?;
    page.text("\n")
}

/// Prints the lines of a step.
#[tactic(auto, unfolding(crate::specs::RepairTexts::step_text))]
fn write_step(
    alloc: Global,
    page: &mut Page,
    spec: &Spec,
    step: &RepairStep,
) -> Result<(), AllocError>
    ensures { OnOk result (page.new ≡ page.old ++ step_text spec.now step.now) }
{
    write_pair(page, spec, step)?;
    write_offers(alloc, page, spec, step.offers.as_slice())?;
    write_numbered(page, "# applied ", u64::from(step.applied))
}

/// Prints the lines of all steps.
fn write_steps(
    alloc: Global,
    page: &mut Page,
    spec: &Spec,
    steps: &[RepairStep],
) -> Result<(), AllocError>
    ensures { OnOk result (page.new ≡ page.old ++ flat_map (step_text spec.now) steps.now) }
{
    for step in steps {
        write_step(alloc, page, spec, step)?;
    }
    Ok(())
}

/// Prints the line with the number of steps, where there are any.
fn write_repaired_line(page: &mut Page, steps: &[RepairStep]) -> Result<(), AllocError>
    ensures { OnOk result (page.new ≡ page.old ++ repaired_line steps.now) }
{
    let Some((_first, later)) = steps.split_first() else {
        return Ok(());
    };
    write_numbered(page, "# repaired ", later.len() as u64 + 1)
}

/// Prints the steps of a repair that is done, their number, and the specification that comes out.
#[tactic(auto, unfolding(crate::specs::RepairTexts::done_text))]
fn write_done(
    alloc: Global,
    page: &mut Page,
    spec: &Spec,
    steps: &[RepairStep],
) -> Result<(), AllocError>
    ensures { OnOk result (page.new ≡ page.old ++ done_text spec.now steps.now) }
{
    write_steps(alloc, page, spec, steps)?;
    write_repaired_line(page, steps)?;
    write_spec(alloc, page, spec)
}

/// Prints the steps of a repair that is stuck, and the report of the last specification.
fn write_stuck(
    alloc: Global,
    page: &mut Page,
    spec: &Spec,
    steps: &[RepairStep],
    analysis: &Analysis,
) -> Result<(), AllocError>
    ensures { OnOk result (page.new ≡ page.old ++ (flat_map (step_text spec.now) steps.now ++ codes "stuck\n" ++ report_text spec.now analysis.now)) }
{
    write_steps(alloc, page, spec, steps)?;
    page.text("stuck\n")?;
    write_report(alloc, page, spec, analysis)
}

/// Prints a repair.
fn write_repair(alloc: Global, page: &mut Page, repaired: &Repaired) -> Result<(), AllocError>
    ensures { OnOk result (page.new ≡ page.old ++ repair_text repaired.now) }
{
    match repaired {
        Repaired::Done(accepted, steps) => write_done(
            alloc,
            page,
            accepted.spec(),
            steps.as_slice(),
        ),
        Repaired::Stuck(spec, steps, analysis) => write_stuck(
            alloc,
            page,
            spec,
            steps.as_slice(),
            analysis,
        ),
    }
}

/// The text of a repair: its steps, each with all offers of its pair, and then the specification that comes out, or
/// `stuck` and the report of the last one. What is printed of a repair that is done is a document, in which the steps
/// are comments.
pub fn repair_text(alloc: Global, repaired: &Repaired) -> Result<Vec<u8>, AllocError>
    ensures { IfOk result (λ text. text.items ≡ repair_text repaired.now) }
{
    let mut page = Page::new(alloc);
    write_repair(alloc, &mut page, repaired)?;
    page.bytes().to_vec(alloc)
}
