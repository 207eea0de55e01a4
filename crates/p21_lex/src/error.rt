//! Why a text has no tokens.

ghost use Rattle.std.specs.Prelude.{◌≡◌};
ghost use Rattle.p21_lex.specs.declared.error.LexErr.TheVariants.{NoMemory};

use std::alloc::{AllocError, AllocFailed};
use thiserror::Error;

/// The first fault of a text from left to right, with its place: a byte offset.
#[derive(Clone, Copy, Debug, PartialEq, Eq, Error)]
pub enum LexErr {
    /// No token begins at this byte, or a text, a binary or a comment may not hold it.
    #[error("no token at byte {0}")]
    BadByte(u32),
    /// The name at this place has the value 0, or one above `MAX_NAME`.
    #[error("the name at byte {0} is out of range")]
    BadName(u32),
    /// The bytes end within the text or binary that begins at this place.
    #[error("the string at byte {0} has no end")]
    OpenString(u32),
    /// The bytes end within the comment that begins at this place.
    #[error("the comment at byte {0} has no end")]
    OpenComment(u32),
    /// The number at this place has more than `MAX_DIGITS` digits.
    #[error("the number at byte {0} has more than 38 digits")]
    NumberTooLong(u32),
    /// Memory ran out.
    #[error("out of memory")]
    NoMemory,
}

impl From<AllocError> for LexErr {
    ghost from_gives = { λ _ e. e ≡ NoMemory };

    fn from(_e: AllocError) -> LexErr {
        LexErr::NoMemory
    }
}

impl<T: Drop> From<AllocFailed<T>> for LexErr {
    ghost from_gives = { λ _ e. e ≡ NoMemory };

    fn from(_e: AllocFailed<T>) -> LexErr {
        LexErr::NoMemory
    }
}
