//! Why a text has no value.

use thiserror::Error;

/// Why a text has no value in thousandths.
#[derive(Clone, Copy, Debug, PartialEq, Eq, Error)]
pub enum UnitErr {
    /// The text is not one Int or Real, or it has more than `MAX_DIGITS` digits.
    #[error("not a number of at most 38 digits")]
    NotNumber,
    /// The rounded value is past `MAX_THOUSANDTHS` in size.
    #[error("past 10^15 thousandths")]
    OutOfRange,
}
