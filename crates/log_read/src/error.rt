//! Why a text is not that of a log.

ghost use Rattle.std.specs.Prelude.{◌≡◌};
ghost use Rattle.log_read.specs.declared.error.LogErr.TheVariants.{NoMemory as WantOfMemory};

use nc_base::NoMemory;
use thiserror::Error;

/// Why a text is not that of a log.
#[derive(Clone, Copy, Debug, PartialEq, Eq, Error)]
pub enum LogErr {
    /// The first line, counted from 1, that isn't in its place.
    #[error("line {0} of the log isn't in its place")]
    BadLine(u32),
    /// Every line is in its place, and none is the last one.
    #[error("the log has no last line")]
    NoEnd,
    /// Memory ran out.
    #[error("out of memory")]
    NoMemory,
}

impl From<NoMemory> for LogErr {
    ghost from_gives = { λ _ e. e ≡ WantOfMemory };

    fn from(_e: NoMemory) -> LogErr {
        LogErr::NoMemory
    }
}
