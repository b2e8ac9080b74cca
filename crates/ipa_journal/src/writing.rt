//! Writing journals, in version 2.
ghost use Rattle.std.specs.Prelude.{◌≡◌, ◌<◌, ◌≤◌, ◌^◌, [], ◌∷◌, ◌++◌, IfOk, OnOk, length};
ghost use Rattle.std.specs.List.{flat_map};
ghost use Rattle.ipa_journal.specs.Naming.{reason_pieces};
ghost use Rattle.ipa_journal.specs.Pieces.{text_of};
ghost use Rattle.ipa_journal.specs.declared.pieces.Piece.TheVariants.{Key, Number};
ghost use Rattle.ipa_journal.specs.Texts.{answers_text, content_text, end_text, head_text, out_line_text, outcomes_text, tail_text, tx_line_text, tx_text};

use crate::journal::{Journal, OutLine, TxLine};
use crate::keywords::Keyword;
use crate::naming::{bounds_pieces, final_pieces, out_pieces, push_reason, tx_pieces};
use crate::pieces::{Piece, write_line};
use ipa_history::{History, Outcome, Reason, Tx};
use ipa_logic::State;
use ipa_reader::Setup;
use ipa_spec::{List, Name, Spec};
use ipa_text::Page;
use std::alloc::{AllocError, Global};

/// Prints a word and a number.
fn write_count(
    alloc: Global,
    page: &mut Page,
    keyword: Keyword,
    number: u64,
) -> Result<(), AllocError>
    ensures { OnOk result (page.new ≡ page.old ++ text_of (Key keyword ∷ Number number ∷ [])) }
{
    let mut pieces = List::new(alloc);
    pieces.push(Piece::Key(keyword))?;
    pieces.push(Piece::Number(number))?;
    write_line(page, &pieces)
}

/// Prints the lines before the first transaction.
fn write_head(
    alloc: Global,
    page: &mut Page,
    spec: &Spec,
    sessions: usize,
) -> Result<(), AllocError>
    requires { sessions ≤ 16 }
    ensures { OnOk result (page.new ≡ page.old ++ head_text spec.now sessions) }
{
    write_count(alloc, page, Keyword::Journal, 2)?;
    write_count(alloc, page, Keyword::Sessions, sessions as u64)?;
    let pieces = bounds_pieces(alloc, spec.bounds().as_slice())?;
    write_line(page, &pieces)
}

/// Prints the line of a transaction.
fn write_tx(
    alloc: Global,
    page: &mut Page,
    spec: &Spec,
    elements: &List<List<Name>>,
    origins: usize,
    tx: &Tx,
) -> Result<(), AllocError>
    requires { origins ≤ 16 }
    ensures { OnOk result (page.new ≡ page.old ++ tx_text spec.now elements.now origins tx.now) }
{
    let pieces = tx_pieces(alloc, spec, elements, origins, tx)?;
    write_line(page, &pieces)
}

/// Prints the lines of transactions.
fn write_entries(
    alloc: Global,
    page: &mut Page,
    spec: &Spec,
    elements: &List<List<Name>>,
    origins: usize,
    entries: &[Tx],
) -> Result<(), AllocError>
    requires { origins ≤ 16 }
    ensures { OnOk result (page.new ≡ page.old ++ flat_map (tx_text spec.now elements.now origins) entries.now) }
{
    for tx in entries {
        write_tx(alloc, page, spec, elements, origins, tx)?;
    }
    Ok(())
}

/// Prints the lines of the outcomes of a session.
fn write_answers(
    alloc: Global,
    page: &mut Page,
    spec: &Spec,
    elements: &List<List<Name>>,
    origins: usize,
    session: u8,
    outcomes: &[Outcome],
) -> Result<(), AllocError>
    requires { origins ≤ 16 }
    ensures { OnOk result (page.new ≡ page.old ++ answers_text spec.now elements.now origins session 0 outcomes.now) }
{
    let mut place: u64 = 0;
    for outcome in outcomes {
        let pieces = out_pieces(
            alloc,
            spec,
            elements,
            origins,
            session,
            place,
            &outcome.cut,
            &outcome.answer,
        )?;
        write_line(page, &pieces)?;
        place += 1;
    }
    Ok(())
}

/// Prints the lines of the outcomes of all sessions.
fn write_outcomes(
    alloc: Global,
    page: &mut Page,
    spec: &Spec,
    elements: &List<List<Name>>,
    origins: usize,
    outcomes: &[List<Outcome>],
) -> Result<(), AllocError>
    requires origins { origins ≤ 16 }
    requires sessions { length outcomes.now ≤ 16 }
    ensures { OnOk result (page.new ≡ page.old ++ outcomes_text spec.now elements.now origins 0 outcomes.now) }
{
    let mut session: u8 = 0;
    for answers in outcomes {
        write_answers(
            alloc,
            page,
            spec,
            elements,
            origins,
            session,
            answers.as_slice(),
        )?;
        session += 1;
    }
    Ok(())
}

/// Prints the final facts and the end.
fn write_tail(
    alloc: Global,
    page: &mut Page,
    spec: &Spec,
    elements: &List<List<Name>>,
    last: &State,
) -> Result<(), AllocError>
    ensures { OnOk result (page.new ≡ page.old ++ tail_text spec.now elements.now last.now) }
{
    let facts = last.to_vec(alloc)?;
    let pieces = final_pieces(alloc, spec, elements, &facts)?;
    write_line(page, &pieces)?;
    let mut end = List::new(alloc);
    end.push(Piece::Key(Keyword::End))?;
    write_line(page, &end)
}

/// The journal of the end of a run, in version 2.
///
/// There is one list of outcomes for each session. What a transaction or an outcome
/// names and the specification or the setup has not is left out.
pub fn write_journal(
    alloc: Global,
    spec: &Spec,
    setup: &Setup,
    entries: &History,
    outcomes: &List<List<Outcome>>,
    last: &State,
) -> Result<Vec<u8>, AllocError>
    requires { length outcomes.now ≡ length setup.now.sessions }
    ensures { IfOk result (λ bytes. bytes.items ≡ end_text spec.now setup.now.elements (length setup.now.sessions) entries.now outcomes.now last.now) }
{
    let origins = setup.sessions.len();
    let elements = &setup.elements;
    let mut page = Page::new(alloc);
    write_head(alloc, &mut page, spec, origins)?;
    write_entries(
        alloc,
        &mut page,
        spec,
        elements,
        origins,
        entries.as_slice(),
    )?;
    write_outcomes(
        alloc,
        &mut page,
        spec,
        elements,
        origins,
        outcomes.as_slice(),
    )?;
    write_tail(alloc, &mut page, spec, elements, last)?;
    Vec::from_slice(alloc, page.bytes())
}

/// Prints the lines of transactions that were read.
fn write_transactions(
    alloc: Global,
    page: &mut Page,
    spec: &Spec,
    elements: &List<List<Name>>,
    origins: usize,
    transactions: &[TxLine],
) -> Result<(), AllocError>
    requires { origins ≤ 16 }
    ensures { OnOk result (page.new ≡ page.old ++ flat_map (tx_line_text spec.now elements.now origins) transactions.now) }
{
    for line in transactions {
        write_tx(alloc, page, spec, elements, origins, &line.tx)?;
    }
    Ok(())
}

/// Prints the lines of outcomes that were read.
fn write_read_outcomes(
    alloc: Global,
    page: &mut Page,
    spec: &Spec,
    elements: &List<List<Name>>,
    origins: usize,
    outcomes: &[OutLine],
) -> Result<(), AllocError>
    requires { origins ≤ 16 }
    ensures { OnOk result (page.new ≡ page.old ++ flat_map (out_line_text spec.now elements.now origins) outcomes.now) }
{
    for line in outcomes {
        let pieces = out_pieces(
            alloc,
            spec,
            elements,
            origins,
            line.session,
            u64::from(line.place),
            &line.cut,
            &line.answer,
        )?;
        write_line(page, &pieces)?;
    }
    Ok(())
}

/// What a journal says, in version 2: the transactions and then the outcomes, in the order in which the journal
/// holds them. What a line names and the specification or the setup has not is left out.
pub fn write_content(
    alloc: Global,
    spec: &Spec,
    setup: &Setup,
    journal: &Journal,
) -> Result<Vec<u8>, AllocError>
    ensures { IfOk result (λ bytes. bytes.items ≡ content_text spec.now setup.now.elements (length setup.now.sessions) journal.now) }
{
    let origins = setup.sessions.len();
    let elements = &setup.elements;
    let mut page = Page::new(alloc);
    write_head(alloc, &mut page, spec, origins)?;
    write_transactions(
        alloc,
        &mut page,
        spec,
        elements,
        origins,
        journal.transactions.as_slice(),
    )?;
    write_read_outcomes(
        alloc,
        &mut page,
        spec,
        elements,
        origins,
        journal.outcomes.as_slice(),
    )?;
    write_tail(alloc, &mut page, spec, elements, &journal.last)?;
    Vec::from_slice(alloc, page.bytes())
}

/// Prints why a transaction is not legal, as a journal names it, and ends the line. `elements` are the lists of the
/// names of elements, one for each sort.
pub fn write_reason(
    alloc: Global,
    page: &mut Page,
    spec: &Spec,
    elements: &List<List<Name>>,
    reason: &Reason,
) -> Result<(), AllocError>
    ensures { OnOk result (page.new ≡ page.old ++ text_of (reason_pieces spec.now elements.now reason.now)) }
{
    let mut pieces = List::new(alloc);
    push_reason(alloc, &mut pieces, spec, elements, reason)?;
    write_line(page, &pieces)
}
