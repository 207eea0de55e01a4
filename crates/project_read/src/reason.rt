//! Why a project is refused.

ghost use Rattle.std.specs.Prelude.{◌≡◌};

use edit_rules::ProjErr;
use entity_read::TypeErr;
use exec_tree::TreeErr;
use nc_base::{NoMemory, Number};
use p21_lex::LexErr;
use p21_parse::ReadErr;
use project_store::StoreErr;
use std::alloc::{AllocError, AllocFailed};
use step_def::DefFault;

/// Why a project is refused, the first that applies in this order. Want of memory is none of these reasons.
#[derive(Clone, Copy, Debug, PartialEq, Eq)]
pub enum ProjectReason {
    /// The file has more than 16,777,216 bytes.
    TooLong,
    /// The bytes aren't clear text of an exchange (ISO 10303-21, this profile).
    Read(ReadErr),
    /// An attribute is of the wrong kind: of the first instance in the file that has one, the least position.
    Attribute(TypeErr),
    /// The entities are no project.
    Store(StoreErr),
    /// The executables from the main workplan on are no tree: the first fault in preorder.
    Tree(TreeErr),
    /// The workingstep has no definition: of the tree's workingsteps with a fault the one of the least number.
    Definition(Number, DefFault),
    /// The number isn't that of a workingstep of the tree.
    NoStep(Number),
}

/// Why the bytes of a file gave no project.
#[derive(Clone, Copy, Debug, PartialEq, Eq)]
pub enum ProjectErr {
    /// They hold none.
    Refused(ProjectReason),
    /// Memory ran out.
    NoMemory,
}

impl From<NoMemory> for ProjectErr {
    ghost use Rattle.project_read.specs.declared.reason.ProjectErr.TheVariants.{NoMemory};

    ghost from_gives = { λ _ e. e ≡ NoMemory };

    fn from(_e: NoMemory) -> ProjectErr {
        ProjectErr::NoMemory
    }
}

impl From<AllocError> for ProjectErr {
    ghost use Rattle.project_read.specs.declared.reason.ProjectErr.TheVariants.{NoMemory};

    ghost from_gives = { λ _ e. e ≡ NoMemory };

    fn from(_e: AllocError) -> ProjectErr {
        ProjectErr::NoMemory
    }
}

impl<T: Drop> From<AllocFailed<T>> for ProjectErr {
    ghost use Rattle.project_read.specs.declared.reason.ProjectErr.TheVariants.{NoMemory};

    ghost from_gives = { λ _ e. e ≡ NoMemory };

    fn from(_e: AllocFailed<T>) -> ProjectErr {
        ProjectErr::NoMemory
    }
}

impl From<ReadErr> for ProjectErr {
    ghost use Rattle.project_read.specs.Errors.{from_read};

    ghost from_gives = { λ r e. e ≡ from_read r };

    fn from(e: ReadErr) -> ProjectErr {
        match e {
            ReadErr::NoMemory | ReadErr::Lex(LexErr::NoMemory) => ProjectErr::NoMemory,
            fault => ProjectErr::Refused(ProjectReason::Read(fault)),
        }
    }
}

impl From<TypeErr> for ProjectErr {
    ghost use Rattle.project_read.specs.Errors.{from_type};

    ghost from_gives = { λ t e. e ≡ from_type t };

    fn from(e: TypeErr) -> ProjectErr {
        match e {
            TypeErr::NoMemory => ProjectErr::NoMemory,
            fault => ProjectErr::Refused(ProjectReason::Attribute(fault)),
        }
    }
}

impl From<StoreErr> for ProjectErr {
    ghost use Rattle.project_read.specs.Errors.{from_store};

    ghost from_gives = { λ s e. e ≡ from_store s };

    fn from(e: StoreErr) -> ProjectErr {
        match e {
            StoreErr::NoMemory => ProjectErr::NoMemory,
            fault => ProjectErr::Refused(ProjectReason::Store(fault)),
        }
    }
}

impl From<ProjErr> for ProjectErr {
    ghost use Rattle.project_read.specs.Errors.{from_accept};

    ghost from_gives = { λ p e. e ≡ from_accept p };

    fn from(e: ProjErr) -> ProjectErr {
        match e {
            ProjErr::Tree(fault) => ProjectErr::Refused(ProjectReason::Tree(fault)),
            ProjErr::Definition(n, fault) => {
                ProjectErr::Refused(ProjectReason::Definition(n, fault))
            }
            ProjErr::NoMemory => ProjectErr::NoMemory,
        }
    }
}
