//! Reading journals, one line after the other.
ghost use Rattle.std.specs.Prelude.{◌≡◌, ◌+◌, ◌-◌, ◌^◌, ◌<◌, ◌≤◌, ◌↔◌, IfErr, IfOk, IsTrue, length};
ghost use Rattle.ipa_text.specs.Lines.{lines_of, line_text};
ghost use Rattle.ipa_journal.specs.Readings.{context_of, IsFault, IsLineFault, IsReadUpTo, ReadsAs, TakesLine};
ghost use Rattle.ipa_text.specs.declared.numbering.Line.{Line};

use crate::journal::{Journal, JournalFault};
use crate::lookups::Elements;
use crate::order::next_standing;
use crate::parts::{PartFault, parts_of};
use crate::standing::{Place, Standing, start};
use ipa_reader::Setup;
use ipa_spec::Spec;
use ipa_text::{Line, Lines, last_line};
use std::alloc::Global;

/// What is read behind a line, or its refusal.
fn take_line(
    alloc: Global,
    spec: &Spec,
    elements: &Elements,
    sessions: usize,
    first_line: u32,
    standing: Standing,
    bytes: &[u8],
    line: Line,
) -> Result<Standing, JournalFault>
    requires sessions { sessions ≤ 16 }
    requires short { length bytes.now < 2 ^ 31 }
    requires first { first_line < 2 ^ 31 }
    requires counted { (0 < line.number) × (line.number ≤ 2 ^ 31) }
    requires span { (line.start ≤ line.end) × (line.end ≤ length bytes.now) }
    ensures takes { IfOk result (TakesLine (context_of spec.now elements.now sessions first_line) bytes.now standing line) }
    ensures fault { IfErr result (IsLineFault (context_of spec.now elements.now sessions first_line) bytes.now standing line) }
{
    let number = first_line + (line.number - 1);
    let text = &bytes[line.start as usize..line.end as usize];
    let parts = match parts_of(alloc, text) {
        Ok(parts) => parts,
        Err(PartFault::Unread) => return Err(JournalFault::At { line: number }),
        Err(PartFault::NoMemory) => return Err(JournalFault::NoMemory),
    };
    let next = next_standing(
        alloc,
        spec,
        elements,
        sessions,
        number,
        standing,
        parts.as_slice(),
    )?;
    match next {
        Some(next) => Ok(next),
        None => Err(JournalFault::At { line: number }),
    }
}

/// What is read behind all lines, or the refusal of the first that is refused.
fn take_lines(
    alloc: Global,
    spec: &Spec,
    elements: &Elements,
    sessions: usize,
    first_line: u32,
    bytes: &[u8],
) -> Result<Standing, JournalFault>
    requires sessions { sessions ≤ 16 }
    requires short { length bytes.now < 2 ^ 31 }
    requires first { first_line < 2 ^ 31 }
    ensures read { IfOk result (IsReadUpTo (context_of spec.now elements.now sessions first_line) bytes.now (lines_of bytes.now)) }
    ensures fault { IfErr result (IsFault (context_of spec.now elements.now sessions first_line) bytes.now) }
{
    let mut standing = start(alloc);
    for line in Lines::new(bytes) {
        match take_line(
            alloc, spec, elements, sessions, first_line, standing, bytes, line,
        ) {
            Ok(next) => standing = next,
            Err(fault) => return Err(fault),
        }
    }
    Ok(standing)
}

fn is_done(place: Place) -> bool
    ensures { IsTrue result ↔ (place ≡ Place.Done) }
{
    match place {
        Place::Done => true,
        _ => false,
    }
}

/// The journal that the bytes read as, of which there are fewer than 2^31. `first_line` is the number of the first
/// line in the whole input, below 2^31.
///
/// Answers the first line that stands against the order of lines or lacks the form of its place, and where the input
/// ends too early the number behind that of its last line.
pub fn read_journal(
    alloc: Global,
    spec: &Spec,
    setup: &Setup,
    bytes: &[u8],
    first_line: u32,
) -> Result<Journal, JournalFault>
    requires short { length bytes.now < 2 ^ 31 }
    requires first { first_line < 2 ^ 31 }
    ensures journal { IfOk result (ReadsAs (context_of spec.now setup.now.elements (length setup.now.sessions) first_line) bytes.now) }
    ensures fault { IfErr result (IsFault (context_of spec.now setup.now.elements (length setup.now.sessions) first_line) bytes.now) }
{
    let elements = Elements::new(alloc, setup)?;
    let sessions = setup.sessions.len();
    let standing = take_lines(alloc, spec, &elements, sessions, first_line, bytes)?;
    if !is_done(standing.place) {
        return Err(JournalFault::At {
            line: first_line + last_line(bytes),
        });
    }
    Ok(Journal {
        transactions: standing.transactions,
        outcomes: standing.outcomes,
        last: standing.last,
        last_line: standing.last_line,
    })
}
