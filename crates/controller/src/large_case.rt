//! The run of a large case.

ghost use Rattle.std.specs.Prelude.{◌≡◌, ◌≤◌, IfOk};
ghost use Rattle.project_read.specs.Reads.{model_of};
ghost use Rattle.run_log.specs.declared.entry.TheConstants.{MAX_ENTRIES};
ghost use Rattle.controller.specs.Case.{case_project, case_script, case_limit};
ghost use Rattle.controller.specs.Calls.{CountsRun, CountsCase, OrNoMemory};

use crate::answer::{Answer, Stop};
use crate::command::MAX_START;
use crate::counting::counts_of;
use crate::project_file::project_of;
use crate::script_file::edits_of;
use big_case::{MAX_STEPS, text};
use edit_rules::Project;
use entity_types::Script;
use nc_base::{NcText, NoMemory};
use run_core::replay;
use run_log::MAX_ENTRIES;
use std::alloc::Global;

/// The texts of the project and the script of a large case.
///
/// # Errors
/// `NoMemory` alone.
#[tactic(auto, unfolding(crate::specs::Case::case_project, crate::specs::Case::case_script))]
fn case_texts(alloc: Global, steps: u32, start: u32) -> Result<(NcText, NcText), NoMemory>
    requires { (1 ≤ steps) × (steps ≤ MAX_STEPS) × (start ≤ MAX_START) }
    ensures project { IfOk result (λ texts. texts.0 ≡ case_project steps start) }
    ensures script { IfOk result (λ texts. texts.1 ≡ case_script steps start) }
{
    text(alloc, steps, start)
}

/// How many entries the log of a large case may have.
#[tactic(auto, unfolding(crate::specs::Case::case_limit))]
fn case_limit() -> u32
    ensures limit { result ≡ case_limit }
    ensures within { (1 ≤ result) × (result ≤ MAX_ENTRIES) }
{
    MAX_ENTRIES
}

/// Runs the project and the edits of the large case of these two numbers under the empty schedule, and counts the log.
fn count_run(
    alloc: Global,
    project: Project,
    edits: Script,
    steps: u32,
    start: u32,
) -> Result<Answer, Stop>
    ensures { OrNoMemory (CountsRun (model_of project) edits steps start) result }
{
    match replay(alloc, project, edits, case_limit(), &[]) {
        Ok((log, ending)) => Ok(Answer::Counted {
            steps,
            start,
            ending,
            counts: counts_of(&log),
        }),
        Err(NoMemory) => Err(Stop::NoMemory),
    }
}

/// Makes the project and the script of the large case of so many workingsteps, 1 to `MAX_STEPS`, drawn from `start` on, at most `MAX_START`, runs
/// them under the empty schedule up to as many entries as a log may have, and counts the log.
///
/// # Errors
/// Memory ran out.
pub fn count_case(alloc: Global, steps: u32, start: u32) -> Result<Answer, Stop>
    requires { (1 ≤ steps) × (steps ≤ MAX_STEPS) × (start ≤ MAX_START) }
    ensures { OrNoMemory (CountsCase steps start) result }
{
    let Ok((project, script)) = case_texts(alloc, steps, start) else {
        return Err(Stop::NoMemory);
    };
    match project_of(alloc, project.bytes()) {
        Ok(project) => match edits_of(alloc, script.bytes()) {
            Ok(edits) => count_run(alloc, project, edits, steps, start),
            Err(unheld) => unheld.answer(),
        },
        Err(unheld) => unheld.answer(),
    }
}
