/// The kinds of token (ISO 10303-21, clear text encoding), as this profile has them.
#[derive(Clone, Copy, Debug, PartialEq, Eq)]
pub enum TokenKind {
    /// A letter `A` to `Z` or `_`, then letters, digits, `_` and `-`: `ISO-10303-21`, `FILE_NAME`.
    Word,
    /// `!` and a letter, then letters and digits: `!NC_SUM`.
    UserWord,
    /// `#` and digits, of a value from 1 to `MAX_NAME`: `#10`.
    Name,
    /// Digits with or without a sign, at most `MAX_DIGITS`: `-5`.
    Int,
    /// An integer, a point, digits and perhaps an exponent, at most `MAX_DIGITS` in all: `1.5E-3`.
    Real,
    /// Bytes between apostrophes, in which two apostrophes stand for one: `'it''s'`.
    Text,
    /// A word between points: `.TRUE.`.
    Enumeration,
    /// Hexadecimal digits between quotation marks: `"0FF"`.
    Binary,
    /// `(`.
    Open,
    /// `)`.
    Close,
    /// `,`.
    Comma,
    /// `;`.
    Semicolon,
    /// `=`.
    Equals,
    /// `$`, a value that is not given.
    Dollar,
    /// `*`, a value that is derived.
    Star,
}

/// A token and where it lies in its text: byte offsets, the end exclusive.
#[derive(Clone, Copy, Debug, PartialEq, Eq)]
pub struct Token {
    pub kind: TokenKind,
    pub start: u32,
    pub end: u32,
}
