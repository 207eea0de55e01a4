//! Taking a text apart into the parts of the number that it spells.

ghost use Rattle.std.specs.Prelude.{◌≡◌};
ghost use Rattle.units_um.specs.Reading.{sign_at, digits_at, exponent_of, fraction_of, number_of, reading};
ghost use Rattle.units_um.specs.View.{exponent_view, fraction_view, number_view};
ghost use Rattle.std.specs.Option.{option_map};

use crate::number::{ExponentText, FractionText, NumberText, Sign};

/// The sign that the text begins with, and the rest.
#[tactic(auto, unfolding(crate::specs::Reading::sign_at))]
fn split_sign(text: &[u8]) -> (Sign, &[u8])
    ensures { (result.0, result.1.now) ≡ sign_at text.now }
{
    match text {
        [b'+', rest @ ..] => (Sign::Plus, rest),
        [b'-', rest @ ..] => (Sign::Minus, rest),
        _ => (Sign::Unsigned, text),
    }
}

/// The digits that the text begins with, and the rest.
#[tactic(auto, unfolding(crate::specs::Reading::digits_at))]
fn split_digits(text: &[u8]) -> (&[u8], &[u8])
    ensures { (result.0.now, result.1.now) ≡ digits_at text.now }
{
    let mut count = 0;
    while count < text.len() && text[count].is_ascii_digit() {
        count += 1;
    }
    text.split_at(count)
}

/// The exponent that the text after an `E` is, if it is one.
#[tactic(auto, unfolding(crate::specs::Reading::exponent_of))]
fn exponent(text: &[u8]) -> Option<ExponentText<'_>>
    ensures { option_map exponent_view result ≡ exponent_of text.now }
{
    let (sign, rest) = split_sign(text);
    let (digits, rest) = split_digits(rest);
    if digits.is_empty() || !rest.is_empty() {
        return None;
    }
    Some(ExponentText { sign, digits })
}

/// The fraction whose digits behind the point are `digits` and whose text goes on with `text`.
#[tactic(auto, unfolding(crate::specs::Reading::fraction_of))]
fn fraction<'a>(digits: &'a [u8], text: &'a [u8]) -> Option<FractionText<'a>>
    ensures { option_map fraction_view result ≡ fraction_of digits.now text.now }
{
    match text {
        [] => Some(FractionText {
            digits,
            exponent: None,
        }),
        [b'E', rest @ ..] => {
            let exponent = exponent(rest)?;
            Some(FractionText {
                digits,
                exponent: Some(exponent),
            })
        }
        _ => None,
    }
}

/// The number that begins with this sign and these digits and whose text goes on with `text`.
#[tactic(auto, unfolding(crate::specs::Reading::number_of))]
fn number<'a>(sign: Sign, whole: &'a [u8], text: &'a [u8]) -> Option<NumberText<'a>>
    ensures { option_map number_view result ≡ number_of sign whole.now text.now }
{
    match text {
        [] => Some(NumberText {
            sign,
            whole,
            fraction: None,
        }),
        [b'.', rest @ ..] => {
            let (digits, rest) = split_digits(rest);
            let fraction = fraction(digits, rest)?;
            Some(NumberText {
                sign,
                whole,
                fraction: Some(fraction),
            })
        }
        _ => None,
    }
}

/// The parts of the number that the text spells, if it spells one.
#[tactic(auto, unfolding(crate::specs::Reading::reading))]
pub fn read(text: &[u8]) -> Option<NumberText<'_>>
    ensures { option_map number_view result ≡ reading text.now }
{
    let (sign, rest) = split_sign(text);
    let (whole, rest) = split_digits(rest);
    if whole.is_empty() {
        return None;
    }
    number(sign, whole, rest)
}
