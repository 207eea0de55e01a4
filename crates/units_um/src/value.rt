//! The value of a text in thousandths.

ghost use Rattle.std.specs.Prelude.{◌≡◌, ◌+◌, ◌*◌, ◌^◌, ◌<◌, ◌≤◌, ◌-◌, min, length, Ok, Err, IfOk, ◌↔◌, nat_abs, ℤ};
ghost use Rattle.std.specs.Str.Parse.{digits_value, digits_value_after};
ghost use Rattle.units_um.specs.Number.{AreDigits, IsExponent, IsNumber, Number};
ghost use Rattle.units_um.specs.Thousandths.{IsShort, digit_count, exponent_digits, raised_by, lowered_by, in_range, size, signed, rounded, thousandths_of};
ghost use Rattle.units_um.specs.View.{exponent_view, number_view};
ghost use Rattle.std.specs.Option.{option_map};

use crate::fault::UnitErr;
use crate::number::{ExponentText, NumberText, Sign};
use crate::reading::read;
use crate::rounding::{SHORT_DIGITS, scaled};
use nc_base::MAX_THOUSANDTHS;

/// How many digits a number has at most in all its parts together (this profile).
pub const MAX_DIGITS: usize = 38;

/// The number that the digits write when they follow those of `so_far`.
fn value_after(so_far: u128, digits: &[u8]) -> u128
    requires digits { AreDigits digits.now }
    requires room { (so_far + 1) * 10 ^ length digits.now ≤ 10 ^ MAX_DIGITS }
    ensures value { result ≡ digits_value_after 10 so_far digits.now }
    ensures room { result + 1 ≤ (so_far + 1) * 10 ^ length digits.now }
{
    let mut value = so_far;
    for digit in digits {
        value = value * 10 + u128::from(*digit - b'0');
    }
    value
}

/// The same of few digits.
fn short_value_after(so_far: u64, digits: &[u8]) -> u64
    requires digits { AreDigits digits.now }
    requires room { (so_far + 1) * 10 ^ length digits.now ≤ 10 ^ SHORT_DIGITS }
    ensures value { result ≡ digits_value_after 10 so_far digits.now }
    ensures room { result + 1 ≤ (so_far + 1) * 10 ^ length digits.now }
{
    let mut value = so_far;
    for digit in digits {
        value = value * 10 + u64::from(*digit - b'0');
    }
    value
}

/// The number that the digits before the point and those behind it write, one after the other.
fn mantissa(whole: &[u8], digits: &[u8]) -> u128
    requires whole { AreDigits whole.now }
    requires digits { AreDigits digits.now }
    requires room { length whole.now + length digits.now ≤ MAX_DIGITS }
    ensures value { result ≡ digits_value_after 10 (digits_value 10 whole.now) digits.now }
    ensures small { result < 10 ^ MAX_DIGITS }
{
    if whole.len() + digits.len() > SHORT_DIGITS {
        let front = value_after(0, whole);
        return value_after(front, digits);
    }
    let front = short_value_after(0, whole);
    u128::from(short_value_after(front, digits))
}

/// By how many powers of ten the exponent raises the number, and by how many it lowers it.
fn shifts(exponent: Option<ExponentText<'_>>) -> (u128, u128)
    requires form { IsExponent (option_map exponent_view exponent) }
    requires room { length (exponent_digits (option_map exponent_view exponent)) ≤ MAX_DIGITS }
    ensures up { result.0 ≡ raised_by (option_map exponent_view exponent.entry) }
    ensures down { result.1 ≡ lowered_by (option_map exponent_view exponent.entry) }
    ensures small { result.0 + result.1 < 10 ^ MAX_DIGITS }
{
    let Some(exponent) = exponent else {
        return (0, 0);
    };
    let by = value_after(0, exponent.digits);
    if exponent.sign.is_minus() {
        (0, by)
    } else {
        (by, 0)
    }
}

/// The size of the value in thousandths, if it is within the limit.
fn size(number: &NumberText<'_>) -> Result<u64, UnitErr>
    requires form { IsNumber (number_view number.now) }
    requires room { digit_count (number_view number.now) ≤ MAX_DIGITS }
    ensures { result ≡ in_range (size (number_view number.now)) }
{
    let Some(fraction) = number.fraction else {
        return scaled(mantissa(number.whole, &[]), 3, 0);
    };
    let mantissa = mantissa(number.whole, fraction.digits);
    let (up, down) = shifts(fraction.exponent);
    scaled(mantissa, 3 + up, fraction.digits.len() as u128 + down)
}

/// How many digits there are, before the point, behind it and in the exponent.
fn count_digits(number: &NumberText<'_>) -> usize
    ensures { result ≡ min (digit_count (number_view number.now)) (2 ^ 64 - 1) }
{
    let Some(fraction) = number.fraction else {
        return number.whole.len();
    };
    let count = number.whole.len().saturating_add(fraction.digits.len());
    match fraction.exponent {
        None => count,
        Some(exponent) => count.saturating_add(exponent.digits.len()),
    }
}

/// The size with its sign.
fn signed(sign: Sign, size: u64) -> i64
    requires { size ≤ MAX_THOUSANDTHS }
    ensures { result ≡ signed sign size }
{
    if sign.is_minus() {
        -(size as i64)
    } else {
        size as i64
    }
}

/// What the text is in thousandths.
fn evaluated(text: &[u8]) -> Result<i64, UnitErr>
    ensures { result ≡ thousandths_of text.now }
{
    let Some(number) = read(text) else {
        return Err(UnitErr::NotNumber);
    };
    if count_digits(&number) > MAX_DIGITS {
        return Err(UnitErr::NotNumber);
    }
    let size = size(&number)?;
    Ok(signed(number.sign, size))
}

/// The value of the text of an Int or a Real (ISO 10303-21, clear text encoding) in thousandths, rounded to the nearest
/// whole number, half away from zero. An Int is an optional sign and at least one digit; a Real is an Int, a point, any
/// number of digits, and optionally `E`, an optional sign and at least one digit.
///
/// It takes no memory. The size of a value is at most `MAX_THOUSANDTHS`, a million kilometres where the unit of the text is the millimetre.
///
/// # Errors
/// `NotNumber` where the text is no such number, or has more than `MAX_DIGITS` digits in all its parts together; `OutOfRange` where the
/// rounded value is past `MAX_THOUSANDTHS` in size.
pub fn thousandths(text: &[u8]) -> Result<i64, UnitErr>
    ensures value { result ≡ thousandths_of text.now }
    ensures within { IfOk result (λ x. nat_abs x ≤ MAX_THOUSANDTHS) }

    // Exactly where the text is a number of few enough digits, whose rounded value this is, and within the limit.
    ensures ok { (x : ℤ) → (result ≡ Ok x) ↔ ((n : Number) × IsShort text.now n × (rounded n ≡ x) × (nat_abs x ≤ MAX_THOUSANDTHS)) }

    // Exactly where the text is no number, or one of too many digits.
    ensures not_number { (result ≡ Err UnitErr.NotNumber) ↔ ((n : Number) → ¬ IsShort text.now n) }

    // Exactly where it is a number of few enough digits, whose rounded value is past the limit.
    ensures out_of_range { (result ≡ Err UnitErr.OutOfRange) ↔ ((n : Number) × IsShort text.now n × (MAX_THOUSANDTHS < nat_abs (rounded n))) }
{
    evaluated(text)
}
