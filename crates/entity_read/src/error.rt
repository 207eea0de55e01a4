//! Why an instance is no entity.

ghost use Rattle.std.specs.Prelude.{◌≡◌};
ghost use Rattle.entity_read.specs.declared.error.TypeErr.TheVariants.{NoMemory as WantOfMemory};

use nc_base::{NoMemory, Number};
use thiserror::Error;

/// Why an instance has no entity.
#[derive(Clone, Copy, Debug, PartialEq, Eq, Error)]
pub enum TypeErr {
    /// What stands at a used position is not of its kind: the number of the instance, and the least such position.
    #[error("position {1} of #{0} is of the wrong kind")]
    BadAttribute(Number, u32),
    /// Memory ran out.
    #[error("out of memory")]
    NoMemory,
}

impl From<NoMemory> for TypeErr {
    ghost from_gives = { λ _ e. e ≡ WantOfMemory };

    fn from(_e: NoMemory) -> TypeErr {
        TypeErr::NoMemory
    }
}
