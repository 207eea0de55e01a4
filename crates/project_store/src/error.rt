//! Why entities are no project.

ghost use Rattle.std.specs.Prelude.{◌≡◌};
ghost use Rattle.project_store.specs.declared.error.StoreErr.TheVariants.{NoMemory as WantOfMemory};

use nc_base::{NoMemory, Number};
use thiserror::Error;

/// Why a list of entities is no project, the first that applies in this order.
#[derive(Clone, Copy, Debug, PartialEq, Eq, Error)]
pub enum StoreErr {
    /// There is no `PROJECT`.
    #[error("there is no PROJECT")]
    NoProject,
    /// There is more than one `PROJECT`: the number of the second.
    #[error("#{0} is a second PROJECT")]
    ManyProjects(Number),
    /// A used reference names no entity: the number of the least entity with such a one, and the reference.
    #[error("#{0} refers to #{1}, which isn't there")]
    Unresolved(Number, Number),
    /// A used reference names an entity of the wrong kind: the number of the least entity with such a one, and the position.
    #[error("position {1} of #{0} refers to an entity of the wrong kind")]
    WrongKind(Number, u32),
    /// Memory ran out.
    #[error("out of memory")]
    NoMemory,
}

impl From<NoMemory> for StoreErr {
    ghost from_gives = { λ _ e. e ≡ WantOfMemory };

    fn from(_e: NoMemory) -> StoreErr {
        StoreErr::NoMemory
    }
}
