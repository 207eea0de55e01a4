//! Where texts, binaries and comments end.

ghost use Rattle.std.specs.Prelude.{◌≡◌, ◌≤◌, length, MatchResult};
ghost use Rattle.p21_lex.specs.Scan.{text_end, binary_end, comment_end, IsBelow};

use crate::class::{hex_len, is_legal};

/// Why a text, a binary or a comment has no end.
#[derive(Clone, Copy)]
pub enum Unclosed {
    /// The bytes end before its closing mark.
    Cut,
    /// A byte that it may not hold: this many bytes behind its opening mark.
    Bad(usize),
}

/// How many bytes behind the opening apostrophe a text has, with its closing one.
#[tactic(auto, using(crate::proofs::Shifts::shifted_none, crate::proofs::Shifts::shifted_more), unfolding(crate::specs::Scan::text_end))]
pub fn text_end(bytes: &[u8]) -> Result<usize, Unclosed>
    ensures exact { result ≡ text_end bytes.now }
    ensures within { MatchResult result (λ len. len ≤ length bytes.now) (IsBelow (length bytes.now)) }
{
    let mut rest = bytes;
    loop {
        let seen = bytes.len() - rest.len();
        match rest {
            [] => return Err(Unclosed::Cut),
            [b'\'', b'\'', after @ ..] => rest = after,
            [b'\'', ..] => return Ok(seen + 1),
            [byte, after @ ..] => {
                if !is_legal(*byte) {
                    return Err(Unclosed::Bad(seen));
                }
                rest = after;
            }
        }
    }
}

/// How many bytes behind the opening quotation mark a binary has, with its closing one.
#[tactic(auto, using(crate::proofs::Texts::binary_ended, crate::proofs::Texts::binary_open))]
pub fn binary_end(bytes: &[u8]) -> Result<usize, Unclosed>
    ensures exact { result ≡ binary_end bytes.now }
    ensures within { MatchResult result (λ len. len ≤ length bytes.now) (IsBelow (length bytes.now)) }
{
    let digits = hex_len(bytes);
    match &bytes[digits..] {
        [] => Err(Unclosed::Cut),
        [b'"', ..] => Ok(digits + 1),
        _ => Err(Unclosed::Bad(digits)),
    }
}

/// How many bytes behind `/*` a comment has, with its `*/`.
#[tactic(auto, using(crate::proofs::Shifts::shifted_none, crate::proofs::Shifts::shifted_more), unfolding(crate::specs::Scan::comment_end))]
pub fn comment_end(bytes: &[u8]) -> Result<usize, Unclosed>
    ensures exact { result ≡ comment_end bytes.now }
    ensures within { MatchResult result (λ len. len ≤ length bytes.now) (IsBelow (length bytes.now)) }
{
    let mut rest = bytes;
    loop {
        let seen = bytes.len() - rest.len();
        if rest.starts_with(b"*/") {
            return Ok(seen + 2);
        }
        match rest {
            [] => return Err(Unclosed::Cut),
            [byte, after @ ..] => {
                if !is_legal(*byte) {
                    return Err(Unclosed::Bad(seen));
                }
                rest = after;
            }
        }
    }
}
