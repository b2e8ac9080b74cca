//! Cuts a line into tokens. At each place that no blank has, the token there is a mark by its first byte,
//! or the longest run of letters, digits and underscores; after it the blanks are passed over.
ghost use Rattle.std.specs.Prelude.{◌≡◌, ℕ, ◌^◌, ◌<◌, ◌≤◌, List, length, IfErr, IfOk, IfSome, IsErrAnd, MatchOption, MatchResult};
ghost use Rattle.std.specs.List.{take_while, All};
ghost use Rattle.ipa_text.specs.Bytes.{is_blank, is_name_byte};
ghost use Rattle.ipa_text.specs.Fronts.{begins_unequal, front_of, mark_of, run_kind, IsBlanksEnd};
ghost use Rattle.ipa_text.specs.Tokens.{IsBadByte, IsBadByteOrNoMemory, IsCutInto, IsFaultOf, IsToken, StartsNoToken};
ghost use Rattle.ipa_text.specs.declared.tokens.Token.{Token};

use crate::classes::{is_blank, is_name_byte};
use crate::decimals::read_number;
use crate::tokens::{CutFault, Token, TokenKind};
use crate::words::is_word;
use std::alloc::Global;

/// How many blanks stand at the front.
fn blank_count(bytes: &[u8]) -> usize
    ensures { result ≡ length (take_while is_blank bytes.now) }
{
    bytes.iter().take_while(|byte| is_blank(**byte)).count()
}

/// How many letters, digits and underscores stand at the front.
fn run_length(bytes: &[u8]) -> usize
    ensures { result ≡ length (take_while is_name_byte bytes.now) }
{
    bytes.iter().take_while(|byte| is_name_byte(**byte)).count()
}

/// The kind of a token that is this one byte.
fn mark_of(byte: u8) -> Option<TokenKind>
    ensures { result ≡ mark_of byte }
{
    match byte {
        b'(' => Some(TokenKind::Open),
        b')' => Some(TokenKind::Close),
        b',' => Some(TokenKind::Comma),
        b':' => Some(TokenKind::Colon),
        b'*' => Some(TokenKind::Star),
        b'=' => Some(TokenKind::Equal),
        _ => None,
    }
}

/// Whether a run is a word or a number.
fn run_kind(run: &[u8]) -> Option<TokenKind>
    ensures { result ≡ run_kind run.now }
{
    if is_word(run) {
        Some(TokenKind::Word)
    } else if read_number(run).is_some() {
        Some(TokenKind::Number)
    } else {
        None
    }
}

/// Whether the bytes begin with `!=`.
fn begins_unequal(bytes: &[u8]) -> bool
    ensures { result ≡ begins_unequal bytes.now }
{
    match bytes {
        [first, second, ..] => *first == b'!' && *second == b'=',
        _ => false,
    }
}

/// The kind and the length of the token at the front.
fn front_token(bytes: &[u8]) -> Option<(TokenKind, usize)>
    requires { 0 < length bytes.now }
    ensures front { result ≡ front_of bytes.now }
    ensures within { IfSome result (λ front. front.1 ≤ length bytes.now) }
{
    if begins_unequal(bytes) {
        return Some((TokenKind::Unequal, 2));
    }
    if let Some(mark) = mark_of(bytes[0]) {
        return Some((mark, 1));
    }
    let length = run_length(bytes);
    let kind = run_kind(&bytes[..length])?;
    Some((kind, length))
}

/// The token that stands at `at`.
fn token_at(line: &[u8], at: usize) -> Option<Token>
    requires within { at < length line.now }
    requires short { length line.now < 2 ^ 31 }
    ensures { MatchOption result (StartsNoToken line.now at) (λ token. (token.start ≡ at) × IsToken line.now token) }
{
    let (kind, length) = front_token(&line[at..])?;
    Some(Token {
        start: at as u32,
        end: (at + length) as u32,
        kind,
    })
}

/// Where the blanks end that stand from `from` on.
fn blanks_end(line: &[u8], from: usize) -> usize
    requires { from ≤ length line.now }
    ensures { IsBlanksEnd line.now from result }
{
    from + blank_count(&line[from..])
}

/// Cuts a line of fewer than 2^31 bytes into its tokens.
///
/// Answers `BadByte` exactly where the line can't be cut, with the place of the first byte that starts no token.
/// A run of letters, digits and underscores that is neither a word nor a number is bad at its start. `NoMemory`
/// may come in place of any answer.
pub fn cut_line(alloc: Global, line: &[u8]) -> Result<Vec<Token>, CutFault>
    requires { length line.now < 2 ^ 31 }
    ensures tokens { IfOk result (λ tokens. IsCutInto line.now tokens.items) }
    ensures each { IfOk result (λ tokens. All (IsToken line.now) tokens.items) }
    ensures fault { IfErr result (IsFaultOf line.now) }

    // Unless memory runs out, a line that can be cut is cut, and one with a bad byte is refused at it.
    ensures cut { (tokens : List Token) → IsCutInto line.now tokens → MatchResult result (λ found. found.items ≡ tokens) (λ fault. fault ≡ CutFault.NoMemory) }
    ensures bad_byte { (at : ℕ) → IsBadByte line.now at → IsErrAnd result (IsBadByteOrNoMemory at) }
{
    let mut tokens = Vec::new(alloc);
    let mut at = blanks_end(line, 0);
    while at < line.len() {
        let Some(token) = token_at(line, at) else {
            return Err(CutFault::BadByte { at: at as u32 });
        };
        tokens.push(token)?;
        at = blanks_end(line, token.end as usize);
    }
    Ok(tokens)
}
