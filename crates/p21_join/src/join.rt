//! The tokens of two slices, and of the text that both make.

ghost use Rattle.std.specs.Prelude.{◌≡◌, ℕ, List, ◌++◌, length, map, IsTrue};
ghost use Rattle.p21_lex.specs.Reading.{Reads};
ghost use Rattle.p21_lex.specs.Refusal.{IsRefused, IsRefusedFrom};
ghost use Rattle.p21_lex.specs.declared.error.LexErr.{LexErr};
ghost use Rattle.p21_lex.specs.declared.token.Token.{Token};
ghost use Rattle.p21_join.specs.Join.{EndsInSemicolon, LastIsSemicolon, moved};

use p21_lex::{Token, TokenKind};

/// Whether the last byte is a semicolon.
#[tactic(auto, using(crate::proofs::Ends::end_byte))]
pub fn ends_in_semicolon(bytes: &[u8]) -> bool
    ensures { IsTrue result → EndsInSemicolon bytes.now }
{
    match bytes.last() {
        Some(byte) => *byte == b';',
        None => false,
    }
}

/// Whether the last token is a semicolon.
#[tactic(auto, using(crate::proofs::Ends::end_token))]
pub fn last_is_semicolon(tokens: &[Token]) -> bool
    ensures { IsTrue result → LastIsSemicolon tokens.now }
{
    match tokens.last() {
        Some(token) => token.kind == TokenKind::Semicolon,
        None => false,
    }
}

/// Where a text ends with a semicolon that is a token, its tokens and those of what follows are the tokens of both together. Any other
/// end could cut a token: a number's exponent, a text, a comment. It does nothing.
pub fn join_laws()
    // The second text was read as a text of its own.
    ensures own { (a b : List ℕ) (ts us : List Token) → EndsInSemicolon a → LastIsSemicolon ts → Reads 0 ts a → Reads 0 us b
        → Reads 0 (ts ++ map (moved (length a)) us) (a ++ b) }
    // It was read as what stands behind the first.
    ensures behind { (a b : List ℕ) (ts us : List Token) → EndsInSemicolon a → LastIsSemicolon ts → Reads 0 ts a → Reads (length a) us b
        → Reads 0 (ts ++ us) (a ++ b) }
    // A fault of what stands behind the first is one of both together.
    ensures refused { (a b : List ℕ) (ts : List Token) (e : LexErr) → EndsInSemicolon a → LastIsSemicolon ts → Reads 0 ts a → IsRefusedFrom (length a) b e
        → IsRefused (a ++ b) e }
{}
