//! The words of a line: what stands at the front of a text, and the text behind it. Each byte is looked at once.

ghost use Rattle.std.specs.Prelude.{◌≡◌, ◌≤◌, ◌<◌, IfSome};
ghost use Rattle.std.specs.Option.{option_map};
ghost use Rattle.nc_base.specs.declared.numbers.TheConstants.{MAX_THOUSANDTHS};
ghost use Rattle.log_read.specs.Reading.{byte_at, bytes_at, digits_at, field_at, length_at, number_at, ranged_at, rate_at, signed_at};

use crate::limits::MAX_RATE;
use nc_base::MAX_THOUSANDTHS;

/// What stands behind a byte.
#[tactic(auto, unfolding(crate::specs::Reading::byte_at))]
pub fn byte(wanted: u8, bytes: &[u8]) -> Option<&[u8]>
    ensures { option_map (λ rest. rest.now) result ≡ byte_at wanted bytes.now }
{
    match bytes {
        [first, rest @ ..] if *first == wanted => Some(rest),
        _ => None,
    }
}

/// What stands behind all of these bytes.
pub fn bytes<'a>(wanted: &[u8], bytes: &'a [u8]) -> Option<&'a [u8]>
    ensures { option_map (λ rest. rest.now) result ≡ bytes_at wanted.now bytes.now }
{
    let mut rest = bytes;
    for one in wanted {
        rest = byte(*one, rest)?;
    }
    Some(rest)
}

/// A number that stands in digits, up to the most, 0 where there is none.
#[tactic(auto, unfolding(crate::specs::Reading::digits_at))]
fn digits(most: u64, bytes: &[u8]) -> Option<(u64, &[u8])>
    requires { most ≤ MAX_THOUSANDTHS }
    ensures number { option_map (λ n. (n.0, n.1.now)) result ≡ digits_at most 0 bytes.now }
    ensures few { IfSome result (λ n. n.0 ≤ most) }
{
    let mut number = 0;
    let mut rest = bytes;
    while let [digit @ b'0'..=b'9', behind @ ..] = rest {
        number = number * 10 + u64::from(*digit - b'0');
        if number > most {
            return None;
        }
        rest = behind;
    }
    Some((number, rest))
}

/// A number without a leading zero, up to the most.
#[tactic(auto, unfolding(crate::specs::Reading::number_at))]
fn number(most: u64, bytes: &[u8]) -> Option<(u64, &[u8])>
    requires { most ≤ MAX_THOUSANDTHS }
    ensures number { option_map (λ n. (n.0, n.1.now)) result ≡ number_at most bytes.now }
    ensures few { IfSome result (λ n. n.0 ≤ most) }
{
    match bytes {
        [b'0', rest @ ..] => Some((0, rest)),
        [b'1'..=b'9', ..] => digits(most, bytes),
        _ => None,
    }
}

/// A number from the least to the most.
#[tactic(auto, unfolding(crate::specs::Reading::ranged_at))]
pub fn ranged(least: u64, most: u64, bytes: &[u8]) -> Option<(u64, &[u8])>
    requires { most ≤ MAX_THOUSANDTHS }
    ensures number { option_map (λ n. (n.0, n.1.now)) result ≡ ranged_at least most bytes.now }
    ensures few { IfSome result (λ n. n.0 ≤ most) }
{
    let (number, rest) = number(most, bytes)?;
    if number < least {
        return None;
    }
    Some((number, rest))
}

/// Such a number behind a space.
#[tactic(auto, unfolding(crate::specs::Reading::field_at))]
pub fn field(least: u32, most: u32, bytes: &[u8]) -> Option<(u32, &[u8])>
    ensures number { option_map (λ n. (n.0, n.1.now)) result ≡ field_at least most bytes.now }
    ensures few { IfSome result (λ n. n.0 ≤ most) }
{
    let rest = byte(b' ', bytes)?;
    let (number, rest) = ranged(u64::from(least), u64::from(most), rest)?;
    Some((number as u32, rest))
}

/// A number of at most this size, with a hyphen where it is below 0.
#[tactic(auto, unfolding(crate::specs::Reading::signed_at))]
fn signed(most: u64, bytes: &[u8]) -> Option<(i64, &[u8])>
    requires { most ≤ MAX_THOUSANDTHS }
    ensures { option_map (λ n. (n.0, n.1.now)) result ≡ signed_at most bytes.now }
{
    match bytes {
        [] => None,
        [b'-', rest @ ..] => {
            let (size, rest) = ranged(1, most, rest)?;
            Some((-(size as i64), rest))
        }
        _ => {
            let (size, rest) = ranged(0, most, bytes)?;
            Some((size as i64, rest))
        }
    }
}

/// Such a number behind a space.
#[tactic(auto, unfolding(crate::specs::Reading::length_at))]
pub fn length(most: u64, bytes: &[u8]) -> Option<(i64, &[u8])>
    requires { most ≤ MAX_THOUSANDTHS }
    ensures { option_map (λ n. (n.0, n.1.now)) result ≡ length_at most bytes.now }
{
    signed(most, byte(b' ', bytes)?)
}

/// A feed or a dwell behind a space.
#[tactic(auto, unfolding(crate::specs::Reading::rate_at))]
pub fn rate(bytes: &[u8]) -> Option<(i64, &[u8])>
    ensures { option_map (λ n. (n.0, n.1.now)) result ≡ rate_at bytes.now }
{
    let (number, rest) = field(1, MAX_RATE, bytes)?;
    Some((i64::from(number), rest))
}
