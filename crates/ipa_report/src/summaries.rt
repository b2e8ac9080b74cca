//! The summary of a run of a generated document.
ghost use Rattle.std.specs.Prelude.{◌≡◌, ◌++◌, IfOk, OnOk, codes, count_by, length};
ghost use Rattle.ipa_report.specs.Summaries.{answers_in, counted, entries_text, is_drop, is_refused, is_shown, outcomes_text, summary_text};

use ipa_history::{Answer, Outcome, SimEnd, Tx};
use ipa_spec::{Action, List};
use ipa_text::Page;
use std::alloc::{AllocError, Global};

/// How many of the transactions are drops.
fn drops_in(entries: &[Tx]) -> usize
    ensures { result ≡ count_by is_drop entries.now }
{
    entries
        .iter()
        .filter(|tx| matches!(tx.action, Action::Drop(_)))
        .count()
}

/// How many of a session's outcomes are refusals.
fn refused_of(outcomes: &[Outcome]) -> usize
    ensures { result ≡ count_by is_refused outcomes.now }
{
    outcomes
        .iter()
        .filter(|outcome| matches!(outcome.answer, Answer::Refused(_)))
        .count()
}

/// How many of a session's outcomes show facts.
fn shown_of(outcomes: &[Outcome]) -> usize
    ensures { result ≡ count_by is_shown outcomes.now }
{
    outcomes
        .iter()
        .filter(|outcome| matches!(outcome.answer, Answer::Shown(_)))
        .count()
}

/// How many outcomes of all sessions are refusals. No memory holds more than a number counts.
fn refused_in(outcomes: &[List<Outcome>]) -> Result<usize, AllocError>
    ensures { IfOk result (λ count. count ≡ answers_in is_refused outcomes.now) }
{
    let mut count: usize = 0;
    for list in outcomes {
        count = count
            .checked_add(refused_of(list.as_slice()))
            .ok_or(AllocError)?;
    }
    Ok(count)
}

/// How many outcomes of all sessions show facts. No memory holds more than a number counts.
fn shown_in(outcomes: &[List<Outcome>]) -> Result<usize, AllocError>
    ensures { IfOk result (λ count. count ≡ answers_in is_shown outcomes.now) }
{
    let mut count: usize = 0;
    for list in outcomes {
        count = count
            .checked_add(shown_of(list.as_slice()))
            .ok_or(AllocError)?;
    }
    Ok(count)
}

/// Prints a line with a word and a number.
fn write_counted(page: &mut Page, word: &str, number: u64) -> Result<(), AllocError>
    ensures { OnOk result (page.new ≡ page.old ++ counted word.now number) }
{
    page.text(word)?;
    page.number(number)?;
    page.text("\n")
}

/// Prints how many transactions there are, and how many of them are drops.
fn write_entries(page: &mut Page, entries: &[Tx]) -> Result<(), AllocError>
    ensures { OnOk result (page.new ≡ page.old ++ entries_text entries.now) }
{
    write_counted(page, "transactions ", entries.len() as u64)?;
    write_counted(page, "drops ", drops_in(entries) as u64)
}

/// Prints how many outcomes are refusals, and how many show facts.
fn write_outcomes(page: &mut Page, outcomes: &[List<Outcome>]) -> Result<(), AllocError>
    ensures { OnOk result (page.new ≡ page.old ++ outcomes_text outcomes.now) }
{
    write_counted(page, "refused ", refused_in(outcomes)? as u64)?;
    write_counted(page, "shown ", shown_in(outcomes)? as u64)
}

/// Prints the summary of a run.
fn write_summary(page: &mut Page, number: u64, end: &SimEnd, last: usize) -> Result<(), AllocError>
    requires { last ≡ length end.now.last }
    ensures { OnOk result (page.new ≡ page.old ++ summary_text number end.now) }
{
    write_counted(page, "generated ", number)?;
    write_entries(page, end.entries.as_slice())?;
    write_outcomes(page, end.outcomes.as_slice())?;
    write_counted(page, "final ", last as u64)
}

/// What is printed of a run of the generated document with this number: how many transactions there were in the end,
/// how many of them are drops, how many requests were refused and how many were shown facts, and how many facts were
/// true.
pub fn summary(alloc: Global, number: u64, end: &SimEnd) -> Result<Vec<u8>, AllocError>
    ensures { IfOk result (λ bytes. bytes.items ≡ summary_text number end.now) }
{
    let last = end.last.to_vec(alloc)?;
    let mut page = Page::new(alloc);
    write_summary(&mut page, number, end, last.len())?;
    Vec::from_slice(alloc, page.bytes())
}
