//! The lines of a document, one after the other.
ghost use Rattle.std.specs.Prelude.{◌≡◌, ◌^◌, ◌<◌, [], length, None, IfErr, IfOk, MatchResult};
ghost use Rattle.ipa_text.specs.Lines.{lines_of};
ghost use Rattle.ipa_reader.specs.Standings.{standing_of, next_standing};
ghost use Rattle.ipa_reader.specs.Refusals.{refusal_at};
ghost use Rattle.ipa_reader.specs.Documents.{IsRefusedAtLine};
ghost use Rattle.ipa_reader.specs.Readings.{TakesLine, IsLineFault, IsReadUpTo, IsFault};
ghost use Rattle.ipa_reader.specs.Soundness.{IsSoundStanding};
ghost use Rattle.ipa_forms.specs.declared.forms.Form.{Form};
ghost use Rattle.ipa_reader.specs.declared.standing.Standing.{Standing};

use crate::arranging::{nothing_arranged, with_arrangement};
use crate::line_forms::{TextFault, form_of};
use crate::order::{Place, next_place};
use crate::refusals::DocFault;
use crate::refusing::refusal_at;
use crate::standing::Standing;
use ipa_forms::Form;
use ipa_names::{nothing_declared, with_declaration};
use ipa_text::Lines;
use std::alloc::{AllocError, Global};

/// What stands before the first line.
fn first_standing(alloc: Global) -> Standing
    ensures value { result ≡ standing_of [] }
    ensures within { IsSoundStanding result }
{
    Standing {
        place: Place {
            after_setup: false,
            after_operation: false,
            after_bound: false,
            after_replicas: false,
            after_session: false,
        },
        declared: nothing_declared(alloc),
        arranged: nothing_arranged(alloc),
    }
}

/// What stands behind a line that is not refused.
fn with_line(alloc: Global, standing: Standing, line: Form) -> Result<Standing, AllocError>
    requires within { IsSoundStanding standing }
    requires accepted { refusal_at standing line ≡ None }
    ensures { IfOk result (λ next. next ≡ next_standing standing line) }
{
    let Standing {
        place,
        declared,
        arranged,
    } = standing;
    let arranged = with_arrangement(alloc, &declared, arranged, &line)?;
    let place = next_place(place, &line);
    let declared = with_declaration(alloc, declared, line)?;
    Ok(Standing {
        place,
        declared,
        arranged,
    })
}

/// What stands behind a line with this text, or its refusal.
fn take_line(
    alloc: Global,
    standing: Standing,
    text: &[u8],
    number: u32,
) -> Result<Standing, DocFault>
    requires within { IsSoundStanding standing }
    requires short { length text.now < 2 ^ 31 }
    ensures takes { IfOk result (TakesLine standing text.now) }
    ensures fault { IfErr result (IsLineFault standing text.now number) }
{
    let line = match form_of(alloc, text) {
        Ok(line) => line,
        Err(TextFault::Unread(kind)) => return Err(DocFault::At { line: number, kind }),
        Err(TextFault::NoMemory) => return Err(DocFault::NoMemory),
    };
    if let Some(kind) = refusal_at(alloc, &standing, &line)? {
        return Err(DocFault::At { line: number, kind });
    }
    let next = with_line(alloc, standing, line)?;
    Ok(next)
}

/// What stands behind all lines, or the refusal of the first that is refused.
pub(crate) fn take_lines(alloc: Global, bytes: &[u8]) -> Result<Standing, DocFault>
    requires { length bytes.now < 2 ^ 31 }
    ensures read { IfOk result (IsReadUpTo bytes.now (lines_of bytes.now)) }
    ensures fault { IfErr result (IsFault bytes.now) }
{
    let mut standing = first_standing(alloc);
    for line in Lines::new(bytes) {
        let text = &bytes[line.start as usize..line.end as usize];
        match take_line(alloc, standing, text, line.number) {
            Ok(next) => standing = next,
            Err(fault) => return Err(fault),
        }
    }
    Ok(standing)
}
