//! What is printed of the audit of a journal.
ghost use Rattle.std.specs.Prelude.{◌≡◌, ◌++◌, IfOk, OnOk};
ghost use Rattle.std.specs.Fmt.{decimal};
ghost use Rattle.ipa_journal_commands.specs.AuditTexts.{fault_text, offer_text, unread_text, verdict_text};

use ipa_audit::{AuditFault, Verdict};
use ipa_gate::OfferFault;
use ipa_journal::write_reason;
use ipa_spec::{List, Name, Spec};
use ipa_text::Page;
use std::alloc::{AllocError, Global};

/// Prints why a log refuses a transaction, and ends the line.
fn write_offer_fault(
    alloc: Global,
    page: &mut Page,
    spec: &Spec,
    elements: &List<List<Name>>,
    fault: &OfferFault,
) -> Result<(), AllocError>
    ensures { OnOk result (page.new ≡ page.old ++ offer_text spec.now elements.now fault.now) }
{
    match fault {
        OfferFault::Shape => page.text("shape\n"),
        OfferFault::Differs { .. } => page.text("differs\n"),
        OfferFault::Gap { .. } => page.text("gap\n"),
        OfferFault::OpenCut { .. } => page.text("open cut\n"),
        OfferFault::Full => page.text("full\n"),
        OfferFault::Illegal(reason) => {
            page.text("illegal ")?;
            write_reason(alloc, page, spec, elements, reason)
        }
        OfferFault::NoMemory => Ok(()),
    }
}

/// Prints why a line is bad, and ends the line.
fn write_fault(
    alloc: Global,
    page: &mut Page,
    spec: &Spec,
    elements: &List<List<Name>>,
    fault: &AuditFault,
) -> Result<(), AllocError>
    ensures { OnOk result (page.new ≡ page.old ++ fault_text spec.now elements.now fault.now) }
{
    match fault {
        AuditFault::Offer(fault) => write_offer_fault(alloc, page, spec, elements, fault),
        AuditFault::Repeated => page.text("repeated\n"),
        AuditFault::Outcome => page.text("outcome\n"),
        AuditFault::Missing => page.text("missing\n"),
        AuditFault::Final => page.text("final\n"),
    }
}

/// Prints a number between two texts.
fn write_between(page: &mut Page, front: &str, number: u64, behind: &str) -> Result<(), AllocError>
    ensures { OnOk result (page.new ≡ page.old ++ (front.now ++ (decimal number ++ behind.now))) }
{
    page.text(front)?;
    page.number(number)?;
    page.text(behind)
}

/// Prints what an audit finds.
fn write_verdict(
    alloc: Global,
    page: &mut Page,
    spec: &Spec,
    elements: &List<List<Name>>,
    verdict: &Verdict,
) -> Result<(), AllocError>
    ensures { OnOk result (page.new ≡ page.old ++ verdict_text spec.now elements.now verdict.now) }
{
    match verdict {
        Verdict::Legal { transactions } => {
            write_between(page, "legal: ", u64::from(*transactions), " transactions\n")
        }
        Verdict::Bad { line, fault } => {
            page.text("bad line ")?;
            page.number(u64::from(*line))?;
            page.text(": ")?;
            write_fault(alloc, page, spec, elements, fault)
        }
    }
}

/// What is printed of the audit of a journal: that it is legal, or its first bad line and why it is bad. `elements` are
/// the lists of the names of elements, one for each sort.
pub(crate) fn audited(
    alloc: Global,
    spec: &Spec,
    elements: &List<List<Name>>,
    verdict: &Verdict,
) -> Result<Vec<u8>, AllocError>
    ensures { IfOk result (λ bytes. bytes.items ≡ verdict_text spec.now elements.now verdict.now) }
{
    let mut page = Page::new(alloc);
    write_verdict(alloc, &mut page, spec, elements, verdict)?;
    Vec::from_slice(alloc, page.bytes())
}

/// The line for a journal without a reading, which is refused at this line of the input.
pub(crate) fn unread_journal(alloc: Global, line: u32) -> Result<Vec<u8>, AllocError>
    ensures { IfOk result (λ bytes. bytes.items ≡ unread_text line) }
{
    let mut page = Page::new(alloc);
    page.text("refused: journal line ")?;
    page.number(u64::from(line))?;
    page.text("\n")?;
    Vec::from_slice(alloc, page.bytes())
}
