//! Why a store is no project.

ghost use Rattle.std.specs.Prelude.{◌≡◌};

use exec_tree::TreeErr;
use nc_base::{NoMemory, Number};
use std::alloc::{AllocError, AllocFailed};
use step_def::DefFault;
use thiserror::Error;

/// Why a store is no project, the first that applies in this order.
#[derive(Clone, Copy, Debug, PartialEq, Eq, Error)]
pub enum ProjErr {
    /// The executables from the main workplan on are no tree: the first fault in preorder. It is never want of memory.
    #[error("{0}")]
    Tree(TreeErr),
    /// The workingstep has no definition: of the tree's workingsteps with a fault the one of the least number.
    #[error("#{0} has no definition")]
    Definition(Number, DefFault),
    /// Memory ran out.
    #[error("out of memory")]
    NoMemory,
}

impl From<NoMemory> for ProjErr {
    ghost use Rattle.edit_rules.specs.declared.error.ProjErr.TheVariants.{NoMemory};

    ghost from_gives = { λ _ e. e ≡ NoMemory };

    fn from(_e: NoMemory) -> ProjErr {
        ProjErr::NoMemory
    }
}

impl From<AllocError> for ProjErr {
    ghost use Rattle.edit_rules.specs.declared.error.ProjErr.TheVariants.{NoMemory};

    ghost from_gives = { λ _ e. e ≡ NoMemory };

    fn from(_e: AllocError) -> ProjErr {
        ProjErr::NoMemory
    }
}

impl<T: Drop> From<AllocFailed<T>> for ProjErr {
    ghost use Rattle.edit_rules.specs.declared.error.ProjErr.TheVariants.{NoMemory};

    ghost from_gives = { λ _ e. e ≡ NoMemory };

    fn from(_e: AllocFailed<T>) -> ProjErr {
        ProjErr::NoMemory
    }
}

impl From<TreeErr> for ProjErr {
    ghost use Rattle.edit_rules.specs.Errors.{from_tree};

    ghost from_gives = { λ t e. e ≡ from_tree t };

    fn from(e: TreeErr) -> ProjErr {
        match e {
            TreeErr::NoMemory => ProjErr::NoMemory,
            fault => ProjErr::Tree(fault),
        }
    }
}
