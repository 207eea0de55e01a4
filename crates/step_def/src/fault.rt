//! Why a workingstep has no definition.

ghost use Rattle.std.specs.Prelude.{◌≡◌};
ghost use Rattle.step_def.specs.FaultCode.{fault_code};

use nc_base::Number;
use thiserror::Error;

/// Why a workingstep has no definition, the kinds in the order in which they are looked for. A position is counted from 1, as
/// in the instance. The kinds and their order are this profile's own.
#[derive(Clone, Copy, Debug, PartialEq, Eq, Error)]
pub enum DefFault {
    /// The position of the instance is `$` where something is needed, or refers to an instance of the wrong class.
    #[error("position {1} of #{0} is missing")]
    Missing(Number, u32),
    /// The operation has a toolpath of its own.
    #[error("operation #{0} has a toolpath of its own")]
    HasToolpath(Number),
    /// The direction turns a placement, or doesn't run along an axis.
    #[error("direction #{0} is turned")]
    BadDirection(Number),
    /// The operation can't make the feature.
    #[error("operation #{0} can't make feature #{1}")]
    Mismatch(Number, Number),
    /// The profile or polyline is no rectangle.
    #[error("profile #{0} is no rectangle")]
    NotRectangle(Number),
    /// The number at the position of the instance is 0 or less.
    #[error("the number at position {1} of #{0} isn't positive")]
    NotPositive(Number, u32),
    /// The number at the position of the instance is out of its range.
    #[error("the number at position {1} of #{0} is out of range")]
    OutOfRange(Number, u32),
    /// The tool doesn't fit into the feature.
    #[error("tool #{0} is too big")]
    ToolTooBig(Number),
    /// The path of the workingstep would have so many blocks, more than `path_blocks::MAX_BLOCKS`.
    #[error("the path of #{0} would have {1} blocks")]
    TooManyBlocks(Number, u64),
}

impl DefFault {
    /// The number of the kind, 1 to 9.
    pub fn code(&self) -> u8
        ensures { result ≡ fault_code self.now }
    {
        match self {
            DefFault::Missing(..) => 1,
            DefFault::HasToolpath(..) => 2,
            DefFault::BadDirection(..) => 3,
            DefFault::Mismatch(..) => 4,
            DefFault::NotRectangle(..) => 5,
            DefFault::NotPositive(..) => 6,
            DefFault::OutOfRange(..) => 7,
            DefFault::ToolTooBig(..) => 8,
            DefFault::TooManyBlocks(..) => 9,
        }
    }
}
