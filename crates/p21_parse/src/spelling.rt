//! Which symbols are those of tokens (ISO 10303-21, tokens, with this profile's ranges), of whatever length they are.

ghost use Rattle.std.specs.Prelude.{◌≡◌, ◌⊎◌, ◌↔◌, IsTrue};
ghost use Rattle.p21_lex.specs.Class.{is_plain, is_hex, Each};
ghost use Rattle.p21_lex.specs.Reading.{IsKeyword, IsInside, Spells};
ghost use Rattle.p21_lex.specs.declared.token.TokenKind.TheVariants as kinds;
ghost use Rattle.p21_parse.specs.Symbol.{value, name, keyword};
ghost use Rattle.p21_parse.specs.Begins.{IsSymbol};

use nc_base::{MAX_NUMBER, Number};
use p21_lex::{MAX_DIGITS, TokenKind, is_hex, is_legal, is_plain, is_upper, spells};

/// No spelling of a number is longer: two signs, a point, an `E` and the digits.
const MOST_IN_NUMBER: usize = MAX_DIGITS + 4;

fn are_plain(bytes: &[u8]) -> bool
    ensures { IsTrue result ↔ Each is_plain bytes.now }
{
    bytes.iter().all(|byte| is_plain(*byte))
}

fn are_hex(bytes: &[u8]) -> bool
    ensures { IsTrue result ↔ Each is_hex bytes.now }
{
    bytes.iter().all(|byte| is_hex(*byte))
}

/// Whether a text is a letter, and then letters and digits.
fn is_identifier(text: &[u8]) -> bool
    ensures { IsTrue result ↔ IsKeyword is_plain text.now }
{
    match text {
        [first, rest @ ..] => is_upper(*first) && are_plain(rest),
        [] => false,
    }
}

/// Whether a text is a keyword: a word without a hyphen, or a user's with its mark.
pub fn is_keyword(text: &[u8]) -> bool
    ensures { IsTrue result ↔ IsSymbol (keyword text.now) }
{
    let [first, word @ ..] = text else {
        return false;
    };
    if *first == b'!' {
        is_identifier(word)
    } else {
        is_identifier(text)
    }
}

/// Whether a number is that of a name.
pub fn is_name(number: Number) -> bool
    ensures { IsTrue result ↔ IsSymbol (name number) }
{
    1 <= number && number <= MAX_NUMBER
}

/// Whether a text is a number of this kind.
pub fn is_number(kind: TokenKind, text: &[u8]) -> bool
    requires { (kind ≡ kinds.Int) ⊎ (kind ≡ kinds.Real) }
    ensures { IsTrue result ↔ IsSymbol (value kind text.now) }
{
    if text.len() > MOST_IN_NUMBER {
        return false;
    }
    spells(kind, text)
}

/// Whether bytes can stand between apostrophes.
pub fn is_text(bytes: &[u8]) -> bool
    ensures { IsTrue result ↔ IsSymbol (value kinds.Text bytes.now) }
{
    let mut rest = bytes;
    loop {
        let [byte, after @ ..] = rest else {
            return true;
        };
        if *byte == b'\'' {
            let [b'\'', more @ ..] = after else {
                return false;
            };
            rest = more;
        } else {
            if !is_legal(*byte) {
                return false;
            }
            rest = after;
        }
    }
}

/// Whether a text can stand between points.
pub fn is_enumeration(text: &[u8]) -> bool
    ensures { IsTrue result ↔ IsSymbol (value kinds.Enumeration text.now) }
{
    is_identifier(text)
}

/// Whether a text can stand between quotation marks.
pub fn is_binary(text: &[u8]) -> bool
    ensures { IsTrue result ↔ IsSymbol (value kinds.Binary text.now) }
{
    are_hex(text)
}
