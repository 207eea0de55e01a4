//! Why a text is not read, and why instances make no exchange.

ghost use Rattle.std.specs.Prelude.{◌≡◌};
ghost use Rattle.p21_parse.specs.declared.error.ReadErr.TheVariants.{NoMemory};

use nc_base::Number;
use p21_lex::LexErr;
use std::alloc::{AllocError, AllocFailed};
use thiserror::Error;

/// Why a text has no exchange.
#[derive(Clone, Copy, Debug, PartialEq, Eq, Error)]
pub enum ReadErr {
    /// A fault of the text's tokens.
    #[error("{0}")]
    Lex(LexErr),
    /// Nothing of the grammar goes on at this place, a byte offset: the token there, or the end.
    #[error("no exchange goes on so at byte {0}")]
    Syntax(u32),
    /// The parenthesis at this place, a byte offset, is one more than the `MAX_NESTING` that may be open.
    #[error("too many parentheses are open at byte {0}")]
    TooDeep(u32),
    /// The name at this place, a byte offset, is that of one instance more than the `MAX_INSTANCES` that a file may have.
    #[error("too many instances at byte {0}")]
    TooMany(u32),
    /// The number of an instance stands a second time.
    #[error("#{0} stands twice")]
    Duplicate(Number),
    /// Memory ran out.
    #[error("out of memory")]
    NoMemory,
}

/// Why instances make no exchange.
#[derive(Clone, Copy, Debug, PartialEq, Eq, Error)]
pub enum BuildErr {
    /// The instance at this index, counted from 0, is the first that is not allowed, can't be written, or has a number that stood before.
    #[error("the instance at index {0} can't stand in an exchange")]
    Invalid(u32),
    /// Memory ran out.
    #[error("out of memory")]
    NoMemory,
}

impl From<AllocError> for ReadErr {
    ghost from_gives = { λ _ e. e ≡ NoMemory };

    fn from(_e: AllocError) -> ReadErr {
        ReadErr::NoMemory
    }
}

impl<T: Drop> From<AllocFailed<T>> for ReadErr {
    ghost from_gives = { λ _ e. e ≡ NoMemory };

    fn from(_e: AllocFailed<T>) -> ReadErr {
        ReadErr::NoMemory
    }
}

impl From<nc_base::NoMemory> for ReadErr {
    ghost from_gives = { λ _ e. e ≡ NoMemory };

    fn from(_e: nc_base::NoMemory) -> ReadErr {
        ReadErr::NoMemory
    }
}

impl From<LexErr> for ReadErr {
    ghost use Rattle.p21_parse.specs.Text.{from_lex};

    ghost from_gives = { λ l e. e ≡ from_lex l };

    fn from(e: LexErr) -> ReadErr {
        match e {
            LexErr::NoMemory => ReadErr::NoMemory,
            fault => ReadErr::Lex(fault),
        }
    }
}

impl<T: Drop> From<AllocFailed<T>> for BuildErr {
    ghost use Rattle.p21_parse.specs.declared.error.BuildErr.TheVariants.{NoMemory};

    ghost from_gives = { λ _ e. e ≡ NoMemory };

    fn from(_e: AllocFailed<T>) -> BuildErr {
        BuildErr::NoMemory
    }
}

impl From<nc_base::NoMemory> for BuildErr {
    ghost use Rattle.p21_parse.specs.declared.error.BuildErr.TheVariants.{NoMemory};

    ghost from_gives = { λ _ e. e ≡ NoMemory };

    fn from(_e: nc_base::NoMemory) -> BuildErr {
        BuildErr::NoMemory
    }
}
