//! The lines of a text, with their numbers. The text is cut at its line feeds, one piece a turn, and blank
//! lines and comments are passed over.
ghost use Rattle.std.specs.Prelude.{◌≡◌, ◌^◌, ◌<◌, ◌≤◌, length};
ghost use Rattle.std.specs.Iterator.{YieldsFirst, item_count};
ghost use Rattle.std.specs.List.{after_first, before_first, count_by, All};
ghost use Rattle.std.specs.Str.Lines.{strip_carriage_return};
ghost use Rattle.ipa_text.specs.Bytes.{is_line_feed};
ghost use Rattle.ipa_text.specs.Lines.{ends_open, first_solid, has_content, last_line, lines_of, IsLine};

use crate::classes::is_blank;
use memchr::memchr;
use std::marker::Model;

/// A line that is neither blank nor a comment, with its number, counted from 1, and its span: its bytes are
/// those from `start` up to `end`, without the line feed and the one carriage return before it.
#[derive(Clone, Copy, Debug, PartialEq, Eq)]
pub struct Line {
    pub number: u32,
    pub start: u32,
    pub end: u32,
}

/// The lines of a text that are neither blank nor comments, in order. Contracts see the list of those that are
/// left. Takes no memory.
#[derive(Debug, Drop)]
pub struct Lines<'a> {
    rest: &'a [u8],
    number: u32,
    start: u32,
}

impl<'a> Model for Lines<'a> {
    ghost use Rattle.std.specs.Prelude.{◌+◌, ◌^◌, ◌≤◌, List, length};
    ghost use Rattle.ipa_text.specs.declared.numbering.Line.{Line};
    ghost use Rattle.ipa_text.specs.Lines.{lines_from};

    ghost Value = { List Line };

    ghost view = { λ a. lines_from a.number a.start a.rest.now };

    ghost invariant = { λ a. (a.number + length a.rest.now ≤ 2 ^ 31) × (a.start + length a.rest.now ≤ 2 ^ 31) };
}

impl<'a> Lines<'a> {
    /// The lines of these bytes, of which there are fewer than 2^31.
    pub fn new(bytes: &'a [u8]) -> Lines<'a>
        requires { length bytes.now < 2 ^ 31 }
        ensures lines { result ≡ lines_of bytes.now }
        ensures each { All (IsLine bytes.now) result }
        ensures count { length result ≤ length bytes.now }
    {
        Lines {
            rest: bytes,
            number: 1,
            start: 0,
        }
    }
}

impl<'a> Iterator for Lines<'a> {
    type Item = Line;

    ghost next_gives = { YieldsFirst (λ lines. lines) };

    ghost remaining = { item_count (λ lines. lines) };

    /// The first of the lines that are left, which leaves the others; `None` exactly where none is left.
    fn next(&mut self) -> Option<Line> {
        while !self.rest.is_empty() {
            let (piece, rest) = split_piece(self.rest);
            let text = without_return(piece);
            let line = Line {
                number: self.number,
                start: self.start,
                end: self.start + text.len() as u32,
            };
            self.number += 1;
            self.start += (self.rest.len() - rest.len()) as u32;
            self.rest = rest;
            if has_content(text) {
                return Some(line);
            }
        }
        None
    }
}

/// The number of the last line of these bytes, of which there are fewer than 2^31. Blank lines and comments are
/// lines too. It is 0 where there is no line.
pub fn last_line(bytes: &[u8]) -> u32
    requires { length bytes.now < 2 ^ 31 }
    ensures { result ≡ last_line bytes.now }
{
    let ended = line_feeds(bytes) as u32;
    if ends_open(bytes) { ended + 1 } else { ended }
}

/// How many line feeds there are.
fn line_feeds(bytes: &[u8]) -> usize
    ensures count { result ≡ count_by is_line_feed bytes.now }
    ensures within { result ≤ length bytes.now }
{
    bytes.iter().filter(|byte| **byte == b'\n').count()
}

/// Whether bytes stand behind the last line feed.
fn ends_open(bytes: &[u8]) -> bool
    ensures { result ≡ ends_open bytes.now }
{
    match bytes {
        [] => false,
        [.., last] => *last != b'\n',
    }
}

/// Cuts off the bytes before the first line feed, and gives them and what stands behind it.
fn split_piece(bytes: &[u8]) -> (&[u8], &[u8])
    ensures piece { result.0.now ≡ before_first is_line_feed bytes.now }
    ensures rest { result.1.now ≡ after_first is_line_feed bytes.now }
    ensures piece_within { length result.0.now ≤ length bytes.now }
    ensures rest_within { 0 < length bytes.now → length result.1.now < length bytes.now }
{
    match memchr(b'\n', bytes) {
        Some(at) => (&bytes[..at], &bytes[at + 1..]),
        None => (bytes, &bytes[bytes.len()..]),
    }
}

/// The bytes without the one carriage return at their end.
fn without_return(piece: &[u8]) -> &[u8]
    ensures text { result.now ≡ strip_carriage_return piece.now }
    ensures within { length result.now ≤ length piece.now }
{
    match piece {
        [text @ .., b'\r'] => text,
        _ => piece,
    }
}

/// Whether a line is neither blank nor a comment.
fn has_content(text: &[u8]) -> bool
    ensures { result ≡ has_content text.now }
{
    match first_solid(text) {
        None => false,
        Some(first) => first != b'#',
    }
}

/// The first byte that is no blank.
fn first_solid(text: &[u8]) -> Option<u8>
    ensures { result ≡ first_solid text.now }
{
    text.iter().copied().find(|byte| !is_blank(*byte))
}
