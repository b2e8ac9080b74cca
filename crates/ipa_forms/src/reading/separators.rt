//! What stands between two parts of a kind.
ghost use Rattle.ipa_forms.specs.Parts.{separator_word, IsTaken};

use crate::reading::words::{Words, take_sign, take_text};
use ipa_text::TokenKind;

/// What stands between two parts of a kind.
#[derive(Clone, Copy)]
pub(crate) enum Separator {
    /// `,`
    Comma,
    /// `or`
    Or,
}

/// Takes a separator from the front, if it stands there.
pub(crate) fn take_separator(words: &mut Words<'_>, separator: Separator) -> bool
    ensures { IsTaken (separator_word separator) words.old result words.new }
{
    match separator {
        Separator::Comma => take_sign(words, TokenKind::Comma),
        Separator::Or => take_text(words, "or"),
    }
}
