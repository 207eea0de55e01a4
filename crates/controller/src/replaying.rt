//! The replay of a project.

ghost use Rattle.std.specs.Prelude.{◌≡◌, ℕ, ◌≤◌, List};
ghost use Rattle.project_read.specs.Reads.{model_of};
ghost use Rattle.run_log.specs.declared.entry.TheConstants.{MAX_ENTRIES};
ghost use Rattle.controller.specs.Calls.{OrReplayStops, OrRunStops, Replays, Runs};

use crate::answer::{Answer, Stop};
use crate::project_file::project_at;
use crate::schedule_file::schedule_at;
use crate::script_file::script_at;
use edit_rules::Project;
use entity_types::Script;
use nc_base::{NcText, NoMemory};
use nc_outside::Files;
use run_core::replay;
use std::alloc::Global;

/// Reads the schedule that a word names, and runs the project and the edits under it up to `limit` entries, 1 to `MAX_ENTRIES`.
///
/// # Errors
/// The schedule's file could not be read, or memory ran out.
fn run_under<F: Files>(
    alloc: Global,
    project: Project,
    edits: Script,
    schedule: &NcText,
    limit: u32,
    files: &mut F,
) -> Result<Answer, Stop>
    requires { (1 ≤ limit) × (limit ≤ MAX_ENTRIES) }
    ensures kept { (n : List ℕ) → F.holds files.new n ≡ F.holds files.old n }
    ensures counted { (n : List ℕ) → F.faults files.old n ≤ F.faults files.new n }
    ensures answer { OrRunStops schedule.now (F.faults files.old schedule.now) (F.faults files.new schedule.now) (Runs (F.holds files.old) (model_of project) edits schedule.now limit) result }
{
    match schedule_at(alloc, schedule, files) {
        Ok(channels) => match replay(alloc, project, edits, limit, channels.as_slice()) {
            Ok((log, ending)) => Ok(Answer::Ran(log, ending)),
            Err(NoMemory) => Err(Stop::NoMemory),
        },
        Err(unheld) => unheld.answer(),
    }
}

/// Reads a project file, the script that a word names, and the schedule that another names, in this order, and runs the project and the script under
/// the schedule up to `limit` entries, 1 to `MAX_ENTRIES`. Where a file gives nothing, those behind it aren't read.
///
/// # Errors
/// One of the files could not be read, or memory ran out.
pub fn replay_files<F: Files>(
    alloc: Global,
    name: &NcText,
    script: &NcText,
    schedule: &NcText,
    limit: u32,
    files: &mut F,
) -> Result<Answer, Stop>
    requires { (1 ≤ limit) × (limit ≤ MAX_ENTRIES) }
    ensures kept { (n : List ℕ) → F.holds files.new n ≡ F.holds files.old n }
    ensures counted { (n : List ℕ) → F.faults files.old n ≤ F.faults files.new n }
    ensures answer { OrReplayStops name.now script.now schedule.now (F.faults files.old) (F.faults files.new) (Replays (F.holds files.old) name.now script.now schedule.now limit) result }
{
    match project_at(alloc, name, files) {
        Ok(project) => match script_at(alloc, script, files) {
            Ok(edits) => run_under(alloc, project, edits, schedule, limit, files),
            Err(unheld) => unheld.answer(),
        },
        Err(unheld) => unheld.answer(),
    }
}
