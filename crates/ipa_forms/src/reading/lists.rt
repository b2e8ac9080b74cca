//! Lists of parts of one kind, with separators between them.
ghost use Rattle.std.specs.Prelude.{IfOk};
ghost use Rattle.ipa_forms.specs.Forms.{listed};
ghost use Rattle.ipa_forms.specs.Parts.{applied, separator_word, IsJoinedRead, IsRead};

use crate::reading::separators::{Separator, take_separator};
use crate::reading::words::{Words, take_name, take_sign};
use ipa_spec::{List, Name};
use ipa_text::TokenKind;
use std::alloc::{AllocError, Global};

/// What may stand in a list.
pub trait Member: Drop {
    ghost use Rattle.std.specs.Prelude.{List, IfOk};
    ghost use Rattle.ipa_forms.specs.Words.{Word};
    ghost use Rattle.ipa_forms.specs.Parts.{IsOpen, IsRead, IsUnmixed};

    // The words of a member.
    ghost said: { Self → List Word };

    /// Takes a member from the front.
    fn read(alloc: Global, words: &mut Words<'_>) -> Result<Option<Self>, AllocError>
        ensures { IfOk result (λ found. IsRead said words.old found words.new) };

    ghost unmixed: { IsUnmixed said };

    ghost never_closes: { IsOpen said };
}

/// Takes one member or more from the front, as long as separators follow.
pub(crate) fn read_joined<M: Member>(
    alloc: Global,
    separator: Separator,
    words: &mut Words<'_>,
) -> Result<Option<List<M>>, AllocError>
    ensures { IfOk result (λ found. IsJoinedRead M.said (separator_word separator) words.old found words.new) }
{
    let mut members = List::new(alloc);
    loop {
        let Some(member) = M::read(alloc, words)? else {
            return Ok(None);
        };
        members.push(member)?;
        if !take_separator(words, separator) {
            return Ok(Some(members));
        }
    }
}

/// Takes members in parentheses from the front, with commas between them.
pub fn read_list<M: Member>(
    alloc: Global,
    words: &mut Words<'_>,
) -> Result<Option<List<M>>, AllocError>
    ensures { IfOk result (λ found. IsRead (listed M.said) words.old found words.new) }
{
    if !take_sign(words, TokenKind::Open) {
        return Ok(None);
    }
    if take_sign(words, TokenKind::Close) {
        return Ok(Some(List::new(alloc)));
    }
    let Some(members) = read_joined(alloc, Separator::Comma, words)? else {
        return Ok(None);
    };
    if !take_sign(words, TokenKind::Close) {
        return Ok(None);
    }
    Ok(Some(members))
}

/// Takes a name, and members in parentheses, from the front.
pub(crate) fn read_applied<M: Member>(
    alloc: Global,
    words: &mut Words<'_>,
) -> Result<Option<(Name, List<M>)>, AllocError>
    ensures { IfOk result (λ found. IsRead (applied M.said) words.old found words.new) }
{
    let Some(name) = take_name(words) else {
        return Ok(None);
    };
    let Some(members) = read_list(alloc, words)? else {
        return Ok(None);
    };
    Ok(Some((name, members)))
}
