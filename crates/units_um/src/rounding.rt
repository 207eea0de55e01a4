//! Rounding a fraction of powers of ten to the nearest whole number.

ghost use Rattle.std.specs.Prelude.{◌≡◌, ◌*◌, ◌^◌, ◌<◌, ◌≤◌};
ghost use Rattle.units_um.specs.Thousandths.{in_range, nearest};

use crate::fault::UnitErr;
use crate::value::MAX_DIGITS;
use nc_base::MAX_THOUSANDTHS;

/// Numbers of so many digits at most, and their halves, are worked out in 64 bits.
pub const SHORT_DIGITS: usize = 18;

/// The least number of more digits than that.
const SHORT_END: u128 = 1_000_000_000_000_000_000;

/// The size, if it is within the limit.
#[tactic(auto, unfolding(crate::specs::Thousandths::in_range))]
fn limited(size: u128) -> Result<u64, UnitErr>
    ensures { result ≡ in_range size }
{
    if size > u128::from(MAX_THOUSANDTHS) {
        Err(UnitErr::OutOfRange)
    } else {
        Ok(size as u64)
    }
}

/// `mantissa * 10^by`, if it is within the limit.
fn raised(mantissa: u128, by: u128) -> Result<u64, UnitErr>
    requires { 0 < mantissa }
    ensures { result ≡ in_range (mantissa * 10 ^ by) }
{
    if by > 15 || mantissa > u128::from(MAX_THOUSANDTHS) {
        return Err(UnitErr::OutOfRange);
    }
    limited(mantissa * 10u128.pow(by as u32))
}

/// The whole number nearest to `mantissa / 10^by`, if it is within the limit, of a number of few digits.
fn short_lowered(mantissa: u64, by: u32) -> Result<u64, UnitErr>
    requires mantissa { mantissa < 10 ^ SHORT_DIGITS }
    requires by { by ≤ SHORT_DIGITS }
    ensures { result ≡ in_range (nearest mantissa (10 ^ by)) }
{
    let unit = 10u64.pow(by);
    limited(u128::from((2 * mantissa + unit) / (2 * unit)))
}

/// The whole number nearest to `mantissa / 10^by`, if it is within the limit.
fn lowered(mantissa: u128, by: u128) -> Result<u64, UnitErr>
    requires { mantissa < 10 ^ MAX_DIGITS }
    ensures { result ≡ in_range (nearest mantissa (10 ^ by)) }
{
    if by > MAX_DIGITS as u128 {
        return Ok(0);
    }
    if by <= SHORT_DIGITS as u128 && mantissa < SHORT_END {
        return short_lowered(mantissa as u64, by as u32);
    }
    let unit = 10u128.pow(by as u32);
    limited((2 * mantissa + unit) / (2 * unit))
}

/// The whole number nearest to `mantissa * 10^up / 10^down`, if it is within the limit.
pub fn scaled(mantissa: u128, up: u128, down: u128) -> Result<u64, UnitErr>
    requires { mantissa < 10 ^ MAX_DIGITS }
    ensures { result ≡ in_range (nearest (mantissa * 10 ^ up) (10 ^ down)) }
{
    if mantissa == 0 {
        Ok(0)
    } else if up < down {
        lowered(mantissa, down - up)
    } else {
        raised(mantissa, up - down)
    }
}
