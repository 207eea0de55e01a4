//! The tokens of a whole text.

ghost use Rattle.std.specs.Prelude.{◌≡◌, ◌≢◌, ◌↔◌, ◌⊎◌, ℕ, ◌≤◌, ◌+◌, ◌++◌, List, [], length, drop, Ok, Err, OnOk, IfOk, IfErr, All, AllPairs};
ghost use Rattle.p21_lex.specs.Front.{piece_len};
ghost use Rattle.p21_lex.specs.Reading.{Reads, IsToken, Spells, Stops};
ghost use Rattle.p21_lex.specs.Refusal.{IsRefused, IsRefusedFrom};
ghost use Rattle.p21_lex.specs.Tokens.{Gives, piece_tokens, tokens_of, tokens_behind_place};
ghost use Rattle.p21_lex.specs.declared.error.LexErr.{LexErr};
ghost use Rattle.p21_lex.specs.declared.token.Token.{Token};
ghost use Rattle.p21_lex.specs.declared.token.TokenKind.{TokenKind};

use crate::error::LexErr;
use crate::piece::{Piece, next_piece};
use crate::token::Token;
use std::alloc::Global;

/// How many bytes a text has at most, 256 MiB, so that each place in it is a `u32` with room to spare (this profile).
pub const MAX_TEXT: u32 = 268_435_456;

/// Adds the token of a piece that lies at a place; a gap adds none.
pub fn add(found: &mut Vec<Token>, at: u32, piece: Piece) -> Result<(), LexErr>
    requires { at + piece_len piece ≤ MAX_TEXT }
    ensures added { OnOk result (found.new.items ≡ found.old.items ++ piece_tokens at piece) }
    ensures memory { IfErr result (λ e. e ≡ LexErr.NoMemory) }
{
    if let Piece::Spelling(kind, len) = piece {
        found.push(Token {
            kind,
            start: at,
            end: at + len as u32,
        })?;
    }
    Ok(())
}

fn all(alloc: Global, bytes: &[u8], from: u32) -> Result<Vec<Token>, LexErr>
    requires short { length bytes.now ≤ MAX_TEXT }
    requires from { from ≤ length bytes.now }
    ensures { Gives (λ v. v.items) result (tokens_behind_place from (drop from bytes.now)) }
{
    let mut found = Vec::new(alloc);
    let mut at = from;
    let mut rest = &bytes[from as usize..];
    while !rest.is_empty() {
        let piece = next_piece(at, rest)?;
        let len = piece.len();
        add(&mut found, at, piece)?;
        at += len as u32;
        rest = &rest[len..];
    }
    Ok(found)
}

/// The tokens of a text (ISO 10303-21, clear text encoding) in their order, each as long as its form allows; blanks and
/// comments between them are left out.
///
/// # Errors
/// The first fault from left to right. Or `NoMemory`, where memory runs out.
pub fn tokens(alloc: Global, bytes: &[u8]) -> Result<Vec<Token>, LexErr>
    requires { length bytes.now ≤ MAX_TEXT }
    // What is found reads the text.
    ensures found { IfOk result (λ v. Reads 0 v.items bytes.now) }
    // What reads the text is found, unless memory runs out.
    ensures only { (ts : List Token) → Reads 0 ts bytes.now → Gives (λ v. v.items) result (Ok ts) }
    // What is refused has this fault, and what has a fault is refused for it, unless memory runs out.
    ensures refused { IfErr result (λ e. (e ≡ LexErr.NoMemory) ⊎ IsRefused bytes.now e) }
    ensures refuses { (e : LexErr) → IsRefused bytes.now e → Gives (λ v. v.items) result (Err e) }
    // The same as a function of the bytes.
    ensures exact { Gives (λ v. v.items) result (tokens_of bytes.now) }

    // Where the tokens lie.
    ensures inside { IfOk result (λ v. All (IsToken bytes.now) v.items) }
    ensures ordered { IfOk result (λ v. AllPairs (λ t u. t.end ≤ u.start) v.items) }
{
    all(alloc, bytes, 0)
}

/// The tokens of a text from the place `from` on, which is a byte offset of the whole text, as each token's places are. What stands before
/// it is not looked at. Where tokens read the text up to that place, these are the ones behind them.
///
/// # Errors
/// The first fault from left to right, with its place in the whole text. Or `NoMemory`, where memory runs out.
pub fn tokens_from(alloc: Global, bytes: &[u8], from: u32) -> Result<Vec<Token>, LexErr>
    requires short { length bytes.now ≤ MAX_TEXT }
    requires from { from ≤ length bytes.now }
    // What is found reads the text from the place on.
    ensures found { IfOk result (λ v. Reads from v.items (drop from bytes.now)) }
    // What reads it is found, unless memory runs out.
    ensures only { (ts : List Token) → Reads from ts (drop from bytes.now) → Gives (λ v. v.items) result (Ok ts) }
    // What is refused has this fault, and what has a fault is refused for it, unless memory runs out.
    ensures refused { IfErr result (λ e. (e ≡ LexErr.NoMemory) ⊎ IsRefusedFrom from (drop from bytes.now) e) }
    ensures refuses { (e : LexErr) → IsRefusedFrom from (drop from bytes.now) e → Gives (λ v. v.items) result (Err e) }
    // Where the tokens lie in the whole text.
    ensures inside { IfOk result (λ v. All (IsToken bytes.now) v.items) }
{
    all(alloc, bytes, from)
}

/// What holds of the tokens of a text, for a caller that has them from elsewhere. It does nothing.
pub fn tokens_fit(bytes: &[u8], tokens: &[Token])
    requires { tokens_of bytes.now ≡ Ok tokens.now }
    ensures found { Reads 0 tokens.now bytes.now }
    ensures inside { All (IsToken bytes.now) tokens.now }
    ensures ordered { AllPairs (λ t u. t.end ≤ u.start) tokens.now }
{}

/// The laws of reading: a token list is that of a text exactly where it reads the text, a text is refused exactly where
/// tokens read it up to a fault, never for want of memory, and where a spelling stops no longer front of the text spells
/// a token. It does nothing.
pub fn reading_laws()
    ensures same { (bytes : List ℕ) (ts : List Token) → (tokens_of bytes ≡ Ok ts) ↔ Reads 0 ts bytes }
    ensures longest { (kind other : TokenKind) (text more rest : List ℕ)
        → Spells kind text → Stops kind text (more ++ rest) → Spells other (text ++ more) → more ≡ [] }
    ensures refused { (bytes : List ℕ) (e : LexErr) → (tokens_of bytes ≡ Err e) ↔ IsRefused bytes e }
    ensures memory { (bytes : List ℕ) → tokens_of bytes ≢ Err LexErr.NoMemory }
{}
