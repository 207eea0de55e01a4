//! The schedule that a word names.

ghost use Rattle.std.specs.Prelude.{◌≡◌, ℕ, ◌≤◌, ◌<◌, List};
ghost use Rattle.controller.specs.Calls.{ReadsSchedule};

use crate::answer::Stop;
use crate::script_file::is_hyphen;
use crate::status::ScriptReason;
use crate::unheld::Unheld;
use nc_base::NcText;
use nc_outside::{FileErr, Files};
use run_schedule::{MAX_SCHEDULE_BYTES, ScheduleErr, read};
use std::alloc::Global;

/// The channels of the schedule that a word names: none where it is a hyphen, and else those of the file of that name.
///
/// # Errors
/// Why the file gave none.
pub fn schedule_at<F: Files>(alloc: Global, word: &NcText, files: &mut F) -> Result<Vec<u8>, Unheld>
    ensures kept { (n : List ℕ) → F.holds files.new n ≡ F.holds files.old n }
    ensures counted { (n : List ℕ) → F.faults files.old n ≤ F.faults files.new n }
    ensures schedule { ReadsSchedule (F.holds files.old) word.now (F.faults files.old word.now) (F.faults files.new word.now) result }
{
    let mut room = Vec::new(alloc);
    if is_hyphen(word.bytes()) {
        return Ok(room);
    }
    match files.read(word, &mut room, MAX_SCHEDULE_BYTES as u32) {
        Ok(()) => match read(alloc, room.as_slice()) {
            Ok(channels) => Ok(channels),
            Err(ScheduleErr::BadByte(place)) => {
                Err(Unheld::ScriptRefused(ScriptReason::Schedule(place)))
            }
            Err(ScheduleErr::NoMemory) => Err(Unheld::Stopped(Stop::NoMemory)),
        },
        Err(FileErr::TooLong) => Err(Unheld::ScriptRefused(ScriptReason::TooLong)),
        Err(FileErr::Failed) => Err(Unheld::Stopped(Stop::ReadFault)),
        Err(FileErr::NoMemory) => Err(Unheld::Stopped(Stop::NoMemory)),
    }
}
