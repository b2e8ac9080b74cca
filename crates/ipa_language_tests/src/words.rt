//! Words, numbers, lines and pages.
use ipa_text::{CutFault, Line, Lines, Page, Token, TokenKind, cut_line, last_line, read_number};
use std::test::Fail;

/// A clause of 23 tokens.
fn clause() -> &'static str {
    "clause c1(p:x, q:x): not r(p,*) or p != q"
}

#[test]
fn cuts_a_clause(rt: HostRuntime) -> Result<(), Fail> {
    let line = clause().as_bytes();
    assert!(rt; line.len() < 100);
    let tokens = cut_line(rt.alloc(), line)?;
    assert_eq!(rt; tokens.len(), 23);
    for (place, start, end, kind) in [
        (0, 0, 6, TokenKind::Word),
        (2, 9, 10, TokenKind::Open),
        (17, 29, 30, TokenKind::Star),
        (21, 37, 39, TokenKind::Unequal),
        (22, 40, 41, TokenKind::Word),
    ] {
        assert_eq!(rt;
            tokens.get(place).copied(),
            Some(Token { start, end, kind })
        );
    }
    Ok(())
}

/// Lines with a bad byte, and its place.
fn bad_lines() -> [(&'static str, u32); 7] {
    [
        ("sort cup;", 8),
        ("\tp ! q ;", 3),
        ("abcdefghijklmnopqrstuvwxy", 0),
        ("bound 4294967296", 6),
        ("007", 0),
        ("_a", 0),
        ("a\rb", 1),
    ]
}

#[test]
fn refuses_the_first_bad_byte(rt: HostRuntime) {
    for (line, at) in bad_lines() {
        assert!(rt; line.len() < 100);
        let fault = cut_line(rt.alloc(), line.as_bytes()).err();
        assert_eq!(rt; fault, Some(CutFault::BadByte { at }));
    }
}

/// Digits, and the number that they are read as.
fn numbers() -> [(&'static str, Option<u32>); 8] {
    [
        ("0", Some(0)),
        ("7", Some(7)),
        ("4294967295", Some(4294967295)),
        ("4294967296", None),
        ("10000000000000000000000", None),
        ("00", None),
        ("1a", None),
        ("", None),
    ]
}

#[test]
fn reads_numbers(rt: HostRuntime) {
    for (digits, number) in numbers() {
        assert_eq!(rt; read_number(digits.as_bytes()), number);
    }
}

/// Six lines, of which three have content.
fn six_lines() -> &'static str {
    "sort x\r\n\n \t\r\n  # sort y\nsort z\r\r\nend\r"
}

#[test]
fn numbers_the_lines(rt: HostRuntime) {
    let text = six_lines().as_bytes();
    assert!(rt; text.len() < 100);
    let mut left = Lines::new(text);
    for (number, start, end) in [(1, 0, 6), (5, 24, 31), (6, 33, 36)] {
        assert_eq!(rt; left.next(), Some(Line { number, start, end }));
    }
    assert_eq!(rt; left.next(), None);
    assert_eq!(rt; last_line(text), 6);
    assert_eq!(rt; last_line(b"\n\r"), 2);
    assert_eq!(rt; last_line(b""), 0);
}

#[test]
fn prints_a_page(rt: HostRuntime) -> Result<(), Fail> {
    let mut page = Page::new(rt.alloc());
    page.text("conflicts ")?;
    page.number(18446744073709551615)?;
    page.text(", unsafe drops ")?;
    page.number(0)?;
    let wanted = "conflicts 18446744073709551615, unsafe drops 0";
    assert!(rt; page.bytes() == wanted.as_bytes());
    Ok(())
}
