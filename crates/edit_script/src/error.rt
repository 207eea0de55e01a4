//! Why a text holds no script.

ghost use Rattle.std.specs.Prelude.{◌≡◌};
ghost use Rattle.edit_script.specs.declared.error.ScriptErr.TheVariants.{NoMemory as WantOfMemory};

use nc_base::{NoMemory, Number};
use p21_lex::LexErr;
use std::alloc::AllocError;
use thiserror::Error;

/// Why a text holds no script of edits: a fault of its tokens; else, of the next three, that which stands at the earliest token; else the first
/// edit with a fault decides, and in one edit the first in this order. Edits count from 0.
#[derive(Clone, Copy, Debug, PartialEq, Eq, Error)]
pub enum ScriptErr {
    /// A fault of the text's tokens.
    #[error("{0}")]
    Lex(LexErr),
    /// No script goes on at this place, a byte offset: with the token there, or with the end.
    #[error("no script goes on so at byte {0}")]
    Syntax(u32),
    /// The parenthesis at this place, a byte offset, is one more than the 32 that may be open.
    #[error("too many parentheses are open at byte {0}")]
    TooDeep(u32),
    /// The word or the name at this place, a byte offset, begins one edit more than `MAX_EDITS`, or one instance more than the `MAX_ITEMS` of an edit.
    #[error("too many edits or instances at byte {0}")]
    TooMany(u32),
    /// The edit is due before the edit in front of it.
    #[error("edit {0} is due before the one in front of it")]
    AtOrder(u32),
    /// The edit puts the number a second time, and no other number earlier.
    #[error("edit {0} puts #{1} twice")]
    Repeated(u32, Number),
    /// What stands at a used position is not of its kind: the edit, the number of the first such instance in it, and the least such position.
    #[error("in edit {0} position {2} of #{1} is of the wrong kind")]
    Attribute(u32, Number, u32),
    /// Memory ran out.
    #[error("out of memory")]
    NoMemory,
}

impl From<NoMemory> for ScriptErr {
    ghost from_gives = { λ _ e. e ≡ WantOfMemory };

    fn from(_e: NoMemory) -> ScriptErr {
        ScriptErr::NoMemory
    }
}

impl From<LexErr> for ScriptErr {
    ghost use Rattle.edit_script.specs.Errors.{from_lex};

    ghost from_gives = { λ l e. e ≡ from_lex l };

    fn from(e: LexErr) -> ScriptErr {
        match e {
            LexErr::NoMemory => ScriptErr::NoMemory,
            fault => ScriptErr::Lex(fault),
        }
    }
}
