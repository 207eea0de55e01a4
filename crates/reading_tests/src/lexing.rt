//! The tokens of texts, whole and slice by slice.

use crate::rows::{bytes_of, number, row};
use crate::shared::expect;
use LexErr::BadByte;
use TokenKind::{Enumeration, Int, Name};
use p21_lex::{
    LexErr, MAX_NAME, Piece, Token, TokenKind, name_number, next_piece, reading_laws, slice_tokens,
    spells, tokens, tokens_fit, tokens_from,
};
use std::alloc::{AllocError, Global};
use std::process::Abort;
use std::test::Fail;

// In each row a text, and its tokens by kind and places, or why it is refused.

/// Words, blanks and comments between them, and marks.
const WORDS: &str = "|\n\
    \x20\t\r¶|\n\
    ISO-10303-21;|Word 0 12, Semicolon 12 13\n\
    _A1 B|Word 0 3, Word 4 5\n\
    A-5|Word 0 3\n\
    !A-5|UserWord 0 2, Int 2 4\n\
    1/**/2|Int 0 1, Int 5 6\n\
    /* ** /* */A/***/|Word 11 12\n\
    a|BadByte(0)\n\
    A\0|BadByte(1)\n\
    A!|BadByte(1)\n\
    !1|BadByte(0)\n\
    1/2|BadByte(1)\n\
    /|BadByte(0)\n\
    A/*/|OpenComment(1)\n\
    /* |OpenComment(0)\n\
    /*\0|BadByte(2)\n\
    /*\0*/|BadByte(2)\n\
    (),;=$*|Open 0 1, Close 1 2, Comma 2 3, Semicolon 3 4, Equals 4 5, Dollar 5 6, Star 6 7\n\
    (&|BadByte(1)\n";

/// Names and numbers.
const NUMBERS: &str = "#1=#02|Name 0 2, Equals 2 3, Name 3 6\n\
    #2147483647|Name 0 11\n\
    #000000000000000000000000000000000000000002147483647|Name 0 52\n\
    #2147483648|BadName(0)\n\
    \x20#99999999999999999999999999999999999999999999|BadName(1)\n\
    A#0|BadName(1)\n\
    #000|BadName(0)\n\
    #|BadByte(0)\n\
    1#A|BadByte(1)\n\
    +5-07|Int 0 2, Int 2 5\n\
    5.|Real 0 2\n\
    -1.50E+03|Real 0 9\n\
    1.E|Real 0 2, Word 2 3\n\
    1.E2E3|Real 0 4, Word 4 6\n\
    1.E+|BadByte(3)\n\
    1.E-|Real 0 2, Word 2 4\n\
    1..T.|Real 0 2, Enumeration 2 5\n\
    -0 -0.|Int 0 2, Real 3 6\n\
    .5|BadByte(0)\n\
    1E5|Int 0 1, Word 1 3\n\
    A.-5.|BadByte(1)\n\
    -|BadByte(0)\n\
    +.5|BadByte(0)\n\
    12345678901234567890123456789012345678|Int 0 38\n\
    A +123456789012345678901234567890123456789|NumberTooLong(2)\n\
    1234567890123456789012345678.12345E-12345|Real 0 41\n\
    1234567890123456789012345678.12345E-123456|NumberTooLong(0)\n\
    12345678901234567890123456789012345678.0|NumberTooLong(0)\n";

/// Texts, binaries and enumerations.
const TEXTS: &str = "''|Text 0 2\n\
    ''''|Text 0 4\n\
    'it''s','\u{80}\x7f\t'|Text 0 7, Comma 7 8, Text 8 13\n\
    'a''|OpenString(0)\n\
    A'a''b|OpenString(1)\n\
    '''|OpenString(0)\n\
    'a\x01|BadByte(2)\n\
    'a''\x01b'|BadByte(4)\n\
    'a''b'',''c'|Text 0 12\n\
    '\r¶\u{ff}'/*\t\u{ff}*/|Text 0 5\n\
    '\x1f'|BadByte(1)\n\
    \"0A9F\"\"\"|Binary 0 6, Binary 6 8\n\
    A\"0|OpenString(1)\n\
    \"0G|BadByte(2)\n\
    \"0¶\"|BadByte(2)\n\
    \"\"\"|OpenString(2)\n\
    .T..U_9.|Enumeration 0 3, Enumeration 3 8\n\
    .T|BadByte(0)\n\
    .T-.|BadByte(0)\n\
    .9.|BadByte(0)\n\
    ..|BadByte(0)\n";

/// Tokens by kind and places.
fn listed(alloc: Global, found: &[Token]) -> Result<String, AllocError> {
    let mut text = String::new(alloc);
    for token in found {
        let Token { kind, start, end } = *token;
        let comma = if text.is_empty() { "" } else { ", " };
        text.push_str(&format!(in alloc; "{comma}{kind:?} {start} {end}")?)?;
    }
    Ok(text)
}

/// The tokens of a text, or why it is refused.
fn shown(rt: &impl Abort, alloc: Global, text: &[u8]) -> Result<String, AllocError> {
    assert!(rt; text.len() < 100);
    match tokens(alloc, text) {
        Ok(found) => listed(alloc, found.as_slice()),
        Err(refusal) => format!(in alloc; "{refusal:?}"),
    }
}

fn expect_row(rt: &impl Abort, alloc: Global, line: &str) -> Result<(), Fail> {
    let (text, want) = row(line);
    let bytes = bytes_of(alloc, text)?;
    let found = shown(rt, alloc, bytes.as_slice())?;
    assert_eq!(rt; found.as_str(), want, "of {text}");
    Ok(())
}

fn expect_rows(rt: &impl Abort, alloc: Global, table: &str) -> Result<(), Fail> {
    for line in table.lines() {
        expect_row(rt, alloc, line)?;
    }
    Ok(())
}

#[test]
fn words(rt: HostRuntime) -> Result<(), Fail> {
    expect_rows(&rt, rt.alloc(), WORDS)
}

#[test]
fn numbers(rt: HostRuntime) -> Result<(), Fail> {
    expect_rows(&rt, rt.alloc(), NUMBERS)
}

#[test]
fn texts(rt: HostRuntime) -> Result<(), Fail> {
    expect_rows(&rt, rt.alloc(), TEXTS)
}

/// In each row how many bytes the slice has at least, the text, and the slice's tokens and end, or why it is refused. Semicolons in texts and
/// comments are no tokens, `1.E2` has an exponent and `1.E` none, and what stands behind a slice is not looked at.
const SLICES: &str = "0||end 0\n\
    0| ¶|end 2\n\
    0|A;B;C|Word 0 1, Semicolon 1 2 | end 2\n\
    2|A;B;C|Word 0 1, Semicolon 1 2 | end 2\n\
    3|A;B;C|Word 0 1, Semicolon 1 2, Word 2 3, Semicolon 3 4 | end 4\n\
    5|A;B;C|Word 0 1, Semicolon 1 2, Word 2 3, Semicolon 3 4, Word 4 5 | end 5\n\
    0|A |Word 0 1 | end 2\n\
    2|A; |Word 0 1, Semicolon 1 2 | end 2\n\
    0|;;|Semicolon 0 1 | end 1\n\
    2|;;|Semicolon 0 1, Semicolon 1 2 | end 2\n\
    0|';';B|Text 0 3, Semicolon 3 4 | end 4\n\
    0|/*;*/;B|Semicolon 5 6 | end 6\n\
    0|1.E2;3|Real 0 4, Semicolon 4 5 | end 5\n\
    0|1.E;2|Real 0 2, Word 2 3, Semicolon 3 4 | end 4\n\
    0|A;?|Word 0 1, Semicolon 1 2 | end 2\n\
    3|A;?|BadByte(2)\n\
    2|A;'|Word 0 1, Semicolon 1 2 | end 2\n\
    4|A;'|OpenString(2)\n\
    0|?;|BadByte(0)\n\
    0|A /*;|OpenComment(2)\n";

/// The slice of a text that has so many bytes at least, with its end, or why it is refused.
fn shown_slice(
    rt: &impl Abort,
    alloc: Global,
    text: &[u8],
    least: u32,
) -> Result<String, AllocError> {
    assert!(rt; text.len() < 100);
    match slice_tokens(alloc, text, least) {
        Ok((found, end)) => {
            let mut shown = listed(alloc, found.as_slice())?;
            let bar = if found.is_empty() { "" } else { " | " };
            shown.push_str(&format!(in alloc; "{bar}end {end}")?)?;
            Ok(shown)
        }
        Err(refusal) => format!(in alloc; "{refusal:?}"),
    }
}

fn expect_slice(rt: &impl Abort, alloc: Global, line: &str) -> Result<(), Fail> {
    let (least, rest) = row(line);
    let (text, want) = row(rest);
    let bytes = bytes_of(alloc, text)?;
    let found = shown_slice(rt, alloc, bytes.as_slice(), number(least))?;
    assert_eq!(rt; found.as_str(), want, "of {text}");
    Ok(())
}

#[test]
fn slices(rt: HostRuntime) -> Result<(), Fail> {
    for line in SLICES.lines() {
        expect_slice(&rt, rt.alloc(), line)?;
    }
    Ok(())
}

/// In each row a place, a text, and its tokens from there on, or why it is refused. What stands before the place isn't looked at.
const BEHIND: &str = "0|A|Word 0 1\n\
    2|A;|\n\
    1|A;B|Semicolon 1 2, Word 2 3\n\
    3|#0;#6=A('/*');|Name 3 5, Equals 5 6, Word 6 7, Open 7 8, Text 8 12, Close 12 13, Semicolon 13 14\n\
    2|?;a|BadByte(2)\n\
    2|'A'|OpenString(2)\n\
    1|;#0|BadName(1)\n";

/// The tokens of a text from a place on, or why it is refused.
fn shown_behind(
    rt: &impl Abort,
    alloc: Global,
    text: &[u8],
    from: u32,
) -> Result<String, AllocError> {
    assert!(rt; text.len() < 100);
    assert!(rt; from as usize <= text.len());
    match tokens_from(alloc, text, from) {
        Ok(found) => listed(alloc, found.as_slice()),
        Err(refusal) => format!(in alloc; "{refusal:?}"),
    }
}

fn expect_tokens_behind(rt: &impl Abort, alloc: Global, line: &str) -> Result<(), Fail> {
    let (from, rest) = row(line);
    let (text, want) = row(rest);
    let bytes = bytes_of(alloc, text)?;
    let found = shown_behind(rt, alloc, bytes.as_slice(), number(from))?;
    assert_eq!(rt; found.as_str(), want, "of {text}");
    Ok(())
}

#[test]
fn tokens_behind_a_place(rt: HostRuntime) -> Result<(), Fail> {
    for line in BEHIND.lines() {
        expect_tokens_behind(&rt, rt.alloc(), line)?;
    }
    Ok(())
}

fn expect_name(rt: &impl Abort, text: &[u8], want: u32) {
    assert!(rt; text.len() < 100);
    assert!(rt; spells(Name, text));
    assert_eq!(rt; name_number(text), want);
}

#[test]
fn names(rt: HostRuntime) {
    for (text, want) in [
        (b"#2147483647".as_slice(), MAX_NAME as u32),
        (b"#00120", 120),
        (b"#1", 1),
    ] {
        expect_name(&rt, text, want);
    }
}

// Texts that stand at byte 7, and the piece that each begins with.
const PIECES: [(&[u8], Result<Piece, LexErr>); 3] = [
    (b".T.", Ok(Piece::Spelling(Enumeration, 3))),
    (b" ", Ok(Piece::Gap(1))),
    (b"?", Err(BadByte(7))),
];

#[test]
fn pieces(rt: HostRuntime) {
    for (text, piece) in PIECES {
        expect(&rt, next_piece(7, text), piece);
    }
    expect(&rt, spells(Int, b"5 "), false);
}

#[test]
fn laws_of_tokens_can_be_cited() {
    reading_laws();
}

#[test]
fn tokens_fit_their_text(rt: HostRuntime) -> Result<(), Fail> {
    let text = b"#2147483647 #00120";
    let found = tokens(rt.alloc(), text).ok().ok_or("two names")?;
    tokens_fit(text, &found);
    assert_eq!(rt; found.len(), 2);
    Ok(())
}
