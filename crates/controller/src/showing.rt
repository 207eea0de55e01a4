//! The path of a workingstep.

ghost use Rattle.std.specs.Prelude.{◌≡◌, ℕ, ◌≤◌, List, IfOk};
ghost use Rattle.project_read.specs.Reads.{model_of};
ghost use Rattle.controller.specs.Calls.{OrStops, Shows, ShowsStep};

use crate::answer::{Answer, Stop};
use crate::project_file::project_at;
use edit_rules::Project;
use nc_base::{NcText, NoMemory, Number};
use nc_outside::Files;
use project_read::ProjectReason;
use run_core::plan_of;
use std::alloc::Global;

/// The path of the project's workingstep `n`, or that it has no such workingstep.
fn step_path(alloc: Global, project: &Project, n: Number) -> Result<Answer, NoMemory>
    ensures shows { IfOk result (ShowsStep (model_of project.now) n) }
{
    match project.definition(n) {
        Some(def) => Ok(Answer::Shown(plan_of(alloc, def)?)),
        None => Ok(Answer::Refused(ProjectReason::NoStep(n))),
    }
}

/// Reads a project file and shows the path of its project's workingstep `n`.
///
/// # Errors
/// The file could not be read, or memory ran out.
pub fn show_file<F: Files>(
    alloc: Global,
    name: &NcText,
    n: Number,
    files: &mut F,
) -> Result<Answer, Stop>
    ensures kept { (n : List ℕ) → F.holds files.new n ≡ F.holds files.old n }
    ensures counted { (n : List ℕ) → F.faults files.old n ≤ F.faults files.new n }
    ensures answer { OrStops (F.faults files.old name.now) (F.faults files.new name.now) (Shows (F.holds files.old name.now) n) result }
{
    match project_at(alloc, name, files) {
        Ok(project) => match step_path(alloc, &project, n) {
            Ok(answer) => Ok(answer),
            Err(NoMemory) => Err(Stop::NoMemory),
        },
        Err(unheld) => unheld.answer(),
    }
}
