//! From the words of a line to its form.
ghost use Rattle.std.specs.Prelude.{◌≡◌, IfOk, MatchOption};
ghost use Rattle.std.specs.List.{All, list_any};
ghost use Rattle.ipa_text.specs.Tokens.{IsToken};
ghost use Rattle.ipa_forms.specs.Forms.{HasForm, is_existential, is_text};
ghost use Rattle.ipa_forms.specs.Lines.{keyword_alone};
ghost use Rattle.ipa_forms.specs.Parts.{IsRead};
ghost use Rattle.ipa_forms.specs.declared.forms.Form.{Form};

mod lines;
pub(crate) mod lists;
mod members;
mod separators;
pub(crate) mod words;

use crate::forms::Form;
use crate::keywords::{Keyword, keyword_of};
use crate::reading::lines::read_line;
use crate::reading::words::{Words, take_text};
use ipa_text::{Token, TokenKind};
use std::alloc::{AllocError, Global};

/// Takes a keyword from the front.
fn take_keyword(words: &mut Words<'_>) -> Option<Keyword>
    ensures { IsRead keyword_alone words.old result words.new }
{
    let (kind, bytes) = words.first()?;
    let TokenKind::Word = kind else {
        return None;
    };
    let keyword = keyword_of(bytes)?;
    words.pass();
    Some(keyword)
}

/// The form of a line that is cut into these tokens, or `None` where it has no form.
pub fn read_form(alloc: Global, line: &[u8], tokens: &[Token]) -> Result<Option<Form>, AllocError>
    requires { All (IsToken line.now) tokens.now }
    ensures { IfOk result (λ found. MatchOption found ((f : Form) → HasForm line.now tokens.now f → ⊥) (HasForm line.now tokens.now)) }
{
    let mut words = Words::new(line, tokens);
    let Some(keyword) = take_keyword(&mut words) else {
        return Ok(None);
    };
    read_line(alloc, keyword, &mut words)
}

/// Whether a word is this text.
fn has_text(words: &mut Words<'_>, wanted: &str) -> bool
    ensures { result ≡ list_any (is_text wanted.now) words.old }
{
    while !words.is_empty() {
        if take_text(words, wanted) {
            return true;
        }
        words.pass();
    }
    false
}

/// Whether a line begins with the word `clause` and has the word `exists` behind it.
pub fn is_existential(line: &[u8], tokens: &[Token]) -> bool
    requires { All (IsToken line.now) tokens.now }
    ensures { result ≡ is_existential line.now tokens.now }
{
    let mut words = Words::new(line, tokens);
    take_text(&mut words, "clause") && has_text(&mut words, "exists")
}
