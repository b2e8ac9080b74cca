//! Where a journal begins in an input.
ghost use Rattle.std.specs.Prelude.{◌≡◌, ◌^◌, ◌<◌, IfOk, MatchBool, length};
ghost use Rattle.std.specs.List.{All};
ghost use Rattle.ipa_text.specs.Lines.{line_text};
ghost use Rattle.ipa_text.specs.Tokens.{IsCutInto, IsToken};
ghost use Rattle.ipa_journal.specs.Starts.{BeginsJournal, IsStart};

use crate::keywords::Keyword;
use ipa_forms::{Words, take_text};
use ipa_text::{CutFault, Lines, Token, cut_line, last_line, one_cut};
use std::alloc::{AllocError, Global};

/// Where a journal begins.
#[derive(Clone, Copy, Debug, PartialEq, Eq)]
pub struct JournalStart {
    /// How many bytes stand before it.
    pub at: u32,
    /// The number of its first line, from 1.
    pub line: u32,
}

/// Whether the first word of a line that is cut into these tokens is `journal`.
fn first_is_journal(text: &[u8], tokens: &[Token]) -> bool
    requires cut { IsCutInto text.now tokens.now }
    requires each { All (IsToken text.now) tokens.now }
    ensures { MatchBool result (BeginsJournal text.now) (BeginsJournal text.now → ⊥) }
{
    one_cut();
    let mut words = Words::new(text, tokens);
    take_text(&mut words, Keyword::Journal.text())
}

/// Whether the first word of a line of this text is `journal`.
fn begins_journal(alloc: Global, text: &[u8]) -> Result<bool, AllocError>
    requires { length text.now < 2 ^ 31 }
    ensures { IfOk result (λ begins. MatchBool begins (BeginsJournal text.now) (BeginsJournal text.now → ⊥)) }
{
    one_cut();
    match cut_line(alloc, text) {
        Ok(tokens) => Ok(first_is_journal(text, &tokens)),
        Err(CutFault::BadByte { .. }) => Ok(false),
        Err(CutFault::NoMemory) => Err(AllocError),
    }
}

/// Where a journal begins in an input of fewer than 2^31 bytes: at the first line whose first word is `journal`. Where
/// there is none, the place and the number behind the last line are answered.
pub fn journal_start(alloc: Global, bytes: &[u8]) -> Result<JournalStart, AllocError>
    requires { length bytes.now < 2 ^ 31 }
    ensures { IfOk result (IsStart bytes.now) }
{
    for line in Lines::new(bytes) {
        if begins_journal(alloc, &bytes[line.start as usize..line.end as usize])? {
            return Ok(JournalStart {
                at: line.start,
                line: line.number,
            });
        }
    }
    Ok(JournalStart {
        at: bytes.len() as u32,
        line: last_line(bytes) + 1,
    })
}
