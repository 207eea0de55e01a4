//! The log that a file holds.

ghost use Rattle.std.specs.Prelude.{◌≡◌, ℕ, ◌≤◌, List, length};
ghost use Rattle.log_read.specs.declared.limits.TheConstants.{MAX_LOG_BYTES};
ghost use Rattle.controller.specs.Calls.{ReadsLog, ReadsLines};

use crate::answer::Stop;
use crate::status::LogReason;
use crate::unheld::Unheld;
use log_read::{LogErr, MAX_LOG_BYTES, read};
use nc_base::NcText;
use nc_outside::{FileErr, Files};
use run_log::{Ending, Log};
use std::alloc::Global;

/// The log of bytes, of which there are no more than a file may have, and the ending that it names.
///
/// # Errors
/// Why they are the text of none.
fn log_within(alloc: Global, bytes: &[u8]) -> Result<(Log, Ending), Unheld>
    requires { length bytes.now ≤ MAX_LOG_BYTES }
    ensures { ReadsLines bytes.now result }
{
    match read(alloc, bytes) {
        Ok(found) => Ok(found),
        Err(LogErr::BadLine(line)) => Err(Unheld::LogRefused(LogReason::BadLine(line))),
        Err(LogErr::NoEnd) => Err(Unheld::LogRefused(LogReason::NoEnd)),
        Err(LogErr::NoMemory) => Err(Unheld::Stopped(Stop::NoMemory)),
    }
}

/// The log that a file holds, and the ending that it names.
///
/// # Errors
/// Why the file gave none.
pub fn log_at<F: Files>(
    alloc: Global,
    name: &NcText,
    files: &mut F,
) -> Result<(Log, Ending), Unheld>
    ensures kept { (n : List ℕ) → F.holds files.new n ≡ F.holds files.old n }
    ensures counted { (n : List ℕ) → F.faults files.old n ≤ F.faults files.new n }
    ensures log { ReadsLog (F.holds files.old name.now) (F.faults files.old name.now) (F.faults files.new name.now) result }
{
    let mut room = Vec::new(alloc);
    match files.read(name, &mut room, MAX_LOG_BYTES as u32) {
        Ok(()) => log_within(alloc, room.as_slice()),
        Err(FileErr::TooLong) => Err(Unheld::LogRefused(LogReason::TooLong)),
        Err(FileErr::Failed) => Err(Unheld::Stopped(Stop::ReadFault)),
        Err(FileErr::NoMemory) => Err(Unheld::Stopped(Stop::NoMemory)),
    }
}
