//! The words of a line, taken from the front one at a time.
ghost use Rattle.std.specs.Prelude.{◌≡◌, ◌↔◌, [], length, IsTrue, MatchOption, drop, false};
ghost use Rattle.std.specs.List.{All};
ghost use Rattle.ipa_text.specs.Tokens.{is_run, text_of, IsToken};
ghost use Rattle.ipa_forms.specs.Forms.{name_alone, number_alone};
ghost use Rattle.ipa_forms.specs.Parts.{IsFirst, IsRead, IsTaken};
ghost use Rattle.ipa_forms.specs.Words.{sign, text, words_in};

use ipa_spec::Name;
use ipa_text::{Token, TokenKind, read_number};
use std::marker::Model;

/// The words of a line that are still to be read.
#[derive(Drop)]
pub struct Words<'a> {
    line: &'a [u8],
    tokens: &'a [Token],
}

impl<'a> Model for Words<'a> {
    ghost use Rattle.std.specs.Prelude.{List};
    ghost use Rattle.std.specs.List.{All};
    ghost use Rattle.ipa_text.specs.Tokens.{IsToken};
    ghost use Rattle.ipa_forms.specs.Words.{Word, words_in};

    ghost Value = { List Word };

    ghost view = { λ a. words_in a.line.now a.tokens.now };

    ghost invariant = { λ a. All (IsToken a.line.now) a.tokens.now };
}

/// The bytes of a token.
fn bytes_of<'a>(line: &'a [u8], token: Token) -> &'a [u8]
    requires { IsToken line.now token }
    ensures { result.now ≡ text_of line.now token }
{
    &line[token.start as usize..token.end as usize]
}

impl<'a> Words<'a> {
    /// The words of a line, which is cut into these tokens.
    pub fn new(line: &'a [u8], tokens: &'a [Token]) -> Words<'a>
        requires { All (IsToken line.now) tokens.now }
        ensures { result ≡ words_in line.now tokens.now }
    {
        Words { line, tokens }
    }

    /// Whether no word is left.
    pub fn is_empty(&self) -> bool
        ensures { IsTrue result ↔ (self.now ≡ []) }
    {
        self.tokens.is_empty()
    }

    /// The kind and the bytes of the first word.
    pub fn first(&self) -> Option<(TokenKind, &'a [u8])>
        ensures { MatchOption result (self.now ≡ []) (λ first. IsFirst self.now first.0 first.1.now) }
    {
        let token = *self.tokens.first()?;
        Some((token.kind, bytes_of(self.line, token)))
    }

    /// Passes the first word.
    pub(crate) fn pass(&mut self)
        ensures { self.new ≡ drop 1 self.old }
    {
        if !self.tokens.is_empty() {
            self.tokens = &self.tokens[1..];
        }
    }
}

/// Takes a name from the front.
pub fn take_name(words: &mut Words<'_>) -> Option<Name>
    ensures { IsRead name_alone words.old result words.new }
{
    let (kind, bytes) = words.first()?;
    let TokenKind::Word = kind else {
        return None;
    };
    let name = Name::new(bytes)?;
    words.pass();
    Some(name)
}

/// Takes a number from the front.
pub fn take_number(words: &mut Words<'_>) -> Option<u32>
    ensures { IsRead number_alone words.old result words.new }
{
    let (kind, bytes) = words.first()?;
    let TokenKind::Number = kind else {
        return None;
    };
    let number = read_number(bytes)?;
    words.pass();
    Some(number)
}

/// Takes this sign from the front, if it stands there.
pub(crate) fn take_sign(words: &mut Words<'_>, wanted: TokenKind) -> bool
    requires { is_run wanted ≡ false }
    ensures { IsTaken (sign wanted) words.old result words.new }
{
    let Some((kind, _)) = words.first() else {
        return false;
    };
    if kind != wanted {
        return false;
    }
    words.pass();
    true
}

/// Takes this text from the front, if it stands there.
pub fn take_text(words: &mut Words<'_>, wanted: &str) -> bool
    ensures { IsTaken (text wanted.now) words.old result words.new }
{
    let Some((kind, bytes)) = words.first() else {
        return false;
    };
    let TokenKind::Word = kind else {
        return false;
    };
    if bytes != wanted.as_bytes() {
        return false;
    }
    words.pass();
    true
}
