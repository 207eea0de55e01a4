//! Why a text is no schedule.

ghost use Rattle.std.specs.Prelude.{◌≡◌};
ghost use Rattle.run_schedule.specs.declared.error.ScheduleErr.TheVariants.{NoMemory as WantOfMemory};

use nc_base::NoMemory;
use thiserror::Error;

/// Why a text is no schedule.
#[derive(Clone, Copy, Debug, PartialEq, Eq, Error)]
pub enum ScheduleErr {
    /// The place of the first byte that is neither a channel's digit nor a blank: a byte offset from 0.
    #[error("no channel and no blank at byte {0}")]
    BadByte(u32),
    /// Memory ran out.
    #[error("out of memory")]
    NoMemory,
}

impl From<NoMemory> for ScheduleErr {
    ghost from_gives = { λ _ e. e ≡ WantOfMemory };

    fn from(_e: NoMemory) -> ScheduleErr {
        ScheduleErr::NoMemory
    }
}
