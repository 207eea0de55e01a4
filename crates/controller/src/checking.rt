//! The check of a log.

ghost use Rattle.std.specs.Prelude.{◌≡◌, ℕ, ◌≤◌, List};
ghost use Rattle.project_read.specs.Reads.{model_of};
ghost use Rattle.controller.specs.Calls.{OrStops, Judges, OrCheckStops, Checks};

use crate::answer::{Answer, Stop};
use crate::log_file::log_at;
use crate::project_file::project_at;
use crate::script_file::script_at;
use edit_rules::Project;
use entity_types::Script;
use log_check::{Answer as Finding, check};
use nc_base::{NcText, NoMemory};
use nc_outside::Files;
use std::alloc::Global;

/// Reads the log in a file, and judges it by the project and the edits.
///
/// # Errors
/// The file could not be read, or memory ran out.
fn judge_file<F: Files>(
    alloc: Global,
    project: Project,
    edits: Script,
    log: &NcText,
    files: &mut F,
) -> Result<Answer, Stop>
    ensures kept { (n : List ℕ) → F.holds files.new n ≡ F.holds files.old n }
    ensures counted { (n : List ℕ) → F.faults files.old n ≤ F.faults files.new n }
    ensures answer { OrStops (F.faults files.old log.now) (F.faults files.new log.now) (Judges (F.holds files.old log.now) (model_of project) edits) result }
{
    match log_at(alloc, log, files) {
        Ok((entries, ending)) => match check(alloc, project, edits, entries, ending) {
            Ok(Finding::Legal(own)) => Ok(Answer::Legal(own)),
            Ok(Finding::Illegal(place)) => Ok(Answer::Illegal(place)),
            Err(NoMemory) => Err(Stop::NoMemory),
        },
        Err(unheld) => unheld.answer(),
    }
}

/// Reads a project file, the script that a word names, and the file of a log, in this order, and judges the log by the project and the script. Where a
/// file gives nothing, those behind it aren't read.
///
/// # Errors
/// One of the files could not be read, or memory ran out.
pub fn check_files<F: Files>(
    alloc: Global,
    name: &NcText,
    script: &NcText,
    log: &NcText,
    files: &mut F,
) -> Result<Answer, Stop>
    ensures kept { (n : List ℕ) → F.holds files.new n ≡ F.holds files.old n }
    ensures counted { (n : List ℕ) → F.faults files.old n ≤ F.faults files.new n }
    ensures answer { OrCheckStops name.now script.now log.now (F.faults files.old) (F.faults files.new) (Checks (F.holds files.old) name.now script.now log.now) result }
{
    match project_at(alloc, name, files) {
        Ok(project) => match script_at(alloc, script, files) {
            Ok(edits) => judge_file(alloc, project, edits, log, files),
            Err(unheld) => unheld.answer(),
        },
        Err(unheld) => unheld.answer(),
    }
}
