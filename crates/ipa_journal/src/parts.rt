//! The parts that the line of a journal is read as.
ghost use Rattle.std.specs.Prelude.{◌≡◌, ◌^◌, ◌<◌, length, IfErr, IfOk, MatchOption, List, None, Some};
ghost use Rattle.std.specs.List.{All};
ghost use Rattle.ipa_text.specs.Tokens.{IsCutInto, IsToken};
ghost use Rattle.ipa_forms.specs.Parts.{IsRead};
ghost use Rattle.ipa_forms.specs.Words.{words_in};
ghost use Rattle.ipa_journal.specs.Parts.{group_at, is_key, is_said, number_at, part_words, word_at, words_of};
ghost use Rattle.ipa_journal.specs.Unread.{IsPartFault};
ghost use Rattle.ipa_journal.specs.Parts.{HasParts};
ghost use Rattle.ipa_journal.specs.declared.parts.Part.{Part};
ghost use Rattle.ipa_journal.specs.declared.parts.PartFault.TheVariants.{NoMemory};

use crate::keywords::Keyword;
use ipa_forms::{Words, read_list, take_name, take_number};
use ipa_spec::{List, Name};
use ipa_text::{CutFault, Token, TokenKind, cut_line};
use std::alloc::{AllocError, Global};

/// A part of a line.
#[derive(Drop)]
pub enum Part {
    /// A name: a word of journals, or one that the document declares.
    Word(Name),
    /// A decimal number.
    Number(u32),
    /// Names in parentheses, with commas between them.
    Group(List<Name>),
}

/// Why a line has no parts.
#[derive(Clone, Copy)]
pub(crate) enum PartFault {
    // a byte starts no token, or the tokens are no parts
    Unread,
    NoMemory,
}

impl From<AllocError> for PartFault {
    ghost from_gives = { λ _ fault. fault ≡ NoMemory };

    fn from(_error: AllocError) -> PartFault {
        PartFault::NoMemory
    }
}

/// Takes a part from the front.
fn read_part(alloc: Global, words: &mut Words<'_>) -> Result<Option<Part>, AllocError>
    ensures { IfOk result (λ found. IsRead part_words words.old found words.new) }
{
    let Some((kind, _)) = words.first() else {
        return Ok(None);
    };
    match kind {
        TokenKind::Word => match take_name(words) {
            Some(name) => Ok(Some(Part::Word(name))),
            None => Ok(None),
        },
        TokenKind::Number => match take_number(words) {
            Some(number) => Ok(Some(Part::Number(number))),
            None => Ok(None),
        },
        TokenKind::Open => match read_list(alloc, words)? {
            Some(names) => Ok(Some(Part::Group(names))),
            None => Ok(None),
        },
        _ => Ok(None),
    }
}

/// The parts of a line, to its end.
fn read_parts(alloc: Global, words: &mut Words<'_>) -> Result<Option<List<Part>>, AllocError>
    ensures { IfOk result (λ found. MatchOption found ((parts : List Part) → words.old ≡ words_of parts → ⊥) (λ parts. words.old ≡ words_of parts)) }
{
    let mut parts = List::new(alloc);
    'words: while !words.is_empty() {
        let Some(part) = read_part(alloc, words)? else {
            return Ok(None);
        };
        parts.push(part)?;
    }
    Ok(Some(parts))
}

/// The parts of a line that is cut into these tokens.
fn parts_of_tokens(alloc: Global, text: &[u8], tokens: &[Token]) -> Result<List<Part>, PartFault>
    requires cut { IsCutInto text.now tokens.now }
    requires each { All (IsToken text.now) tokens.now }
    ensures parts { IfOk result (HasParts text.now) }
    ensures fault { IfErr result (IsPartFault text.now) }
{
    let mut words = Words::new(text, tokens);
    let Some(parts) = read_parts(alloc, &mut words)? else {
        return Err(PartFault::Unread);
    };
    Ok(parts)
}

/// The parts of a line of this text.
pub(crate) fn parts_of(alloc: Global, text: &[u8]) -> Result<List<Part>, PartFault>
    requires { length text.now < 2 ^ 31 }
    ensures parts { IfOk result (HasParts text.now) }
    ensures fault { IfErr result (IsPartFault text.now) }
{
    match cut_line(alloc, text) {
        Ok(tokens) => parts_of_tokens(alloc, text, &tokens),
        Err(CutFault::BadByte { .. }) => Err(PartFault::Unread),
        Err(CutFault::NoMemory) => Err(PartFault::NoMemory),
    }
}

/// The name in a place.
pub(crate) fn word_at(parts: &[Part], place: usize) -> Option<Name>
    ensures { result ≡ word_at parts.now place }
{
    match parts.get(place) {
        None => None,
        Some(Part::Word(name)) => Some(*name),
        Some(Part::Number(_)) => None,
        Some(Part::Group(_)) => None,
    }
}

/// The number in a place.
pub(crate) fn number_at(parts: &[Part], place: usize) -> Option<u32>
    ensures { result ≡ number_at parts.now place }
{
    match parts.get(place) {
        None => None,
        Some(Part::Word(_)) => None,
        Some(Part::Number(number)) => Some(*number),
        Some(Part::Group(_)) => None,
    }
}

/// The names in parentheses in a place.
pub(crate) fn group_at(parts: &[Part], place: usize) -> Option<&[Name]>
    ensures { MatchOption result (group_at parts.now place ≡ None) (λ names. group_at parts.now place ≡ Some names.now) }
{
    match parts.get(place) {
        None => None,
        Some(Part::Word(_)) => None,
        Some(Part::Number(_)) => None,
        Some(Part::Group(names)) => Some(names.as_slice()),
    }
}

/// Whether a name is written like a keyword.
pub(crate) fn is_said(keyword: Keyword, name: Name) -> bool
    ensures { result ≡ is_said keyword name }
{
    name.as_bytes() == keyword.text().as_bytes()
}

/// Whether the part in a place is this keyword.
pub(crate) fn is_key(parts: &[Part], place: usize, keyword: Keyword) -> bool
    ensures { result ≡ is_key parts.now place keyword }
{
    match word_at(parts, place) {
        Some(name) => is_said(keyword, name),
        None => false,
    }
}
