//! Numbers, and the value of a name.

ghost use Rattle.std.specs.Prelude.{◌≡◌, ◌≤◌, ◌+◌, length, min, take, All, IsTrue};
ghost use Rattle.std.specs.Str.Parse.{digits_value};
ghost use Rattle.p21_lex.specs.Class.{is_digit};
ghost use Rattle.p21_lex.specs.Number.{sign_len, int_len, exponent_len, fraction_len, name_value};
ghost use Rattle.p21_lex.specs.Reading.{Spells};

use crate::class::digits_len;
use crate::token::TokenKind;

/// The greatest value of a name (this profile).
pub const MAX_NAME: u64 = 2_147_483_647;

/// How many digits a number has at most, those of a fraction and an exponent among them (this profile).
pub const MAX_DIGITS: usize = 38;

fn sign_len(bytes: &[u8]) -> usize
    ensures exact { result ≡ sign_len bytes.now }
    ensures within { result ≤ length bytes.now }
{
    match bytes {
        [b'+' | b'-', ..] => 1,
        _ => 0,
    }
}

/// How many bytes of an integer stand at the front, 0 where none does.
#[tactic(auto, unfolding(crate::specs::Number::int_len))]
pub fn int_len(bytes: &[u8]) -> usize
    ensures exact { result ≡ int_len bytes.now }
    ensures within { result ≤ length bytes.now }
{
    let sign = sign_len(bytes);
    let digits = digits_len(&bytes[sign..]);
    if digits == 0 { 0 } else { sign + digits }
}

#[tactic(auto, unfolding(crate::specs::Number::exponent_len))]
fn exponent_len(bytes: &[u8]) -> usize
    ensures exact { result ≡ exponent_len bytes.now }
    ensures within { result ≤ length bytes.now }
{
    let [b'E', rest @ ..] = bytes else { return 0 };
    let power = int_len(rest);
    if power == 0 { 0 } else { 1 + power }
}

/// How many bytes behind an integer make it a real: its point, digits and exponent.
#[tactic(auto, unfolding(crate::specs::Number::fraction_len))]
pub fn fraction_len(bytes: &[u8]) -> usize
    ensures exact { result ≡ fraction_len bytes.now }
    ensures within { result ≤ length bytes.now }
{
    let [b'.', rest @ ..] = bytes else { return 0 };
    let digits = digits_len(rest);
    1 + digits + exponent_len(&rest[digits..])
}

/// The value of digits, or the first number that is too great for a name where the value is greater still.
#[tactic(auto, using(crate::proofs::Values::capped_more))]
pub fn capped_value(digits: &[u8]) -> u64
    requires { All (λ b. IsTrue (is_digit b)) digits.now }
    ensures { result ≡ min (digits_value 10 digits.now) (MAX_NAME + 1) }
{
    let mut value: u64 = 0;
    for digit in digits {
        value = (value * 10 + u64::from(*digit - b'0')).min(MAX_NAME + 1);
    }
    value
}

/// The number of an instance's name, from the name's bytes: `#0010` is 10.
#[tactic(auto, using(crate::proofs::Names::name_filled, crate::proofs::Names::name_digits, crate::proofs::Names::name_small))]
pub fn name_number(text: &[u8]) -> u32
    requires { Spells TokenKind.Name text.now }
    ensures { result ≡ name_value text.now }
{
    capped_value(&text[1..]) as u32
}
