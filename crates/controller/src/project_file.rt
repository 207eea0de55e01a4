//! The project that a file holds.

ghost use Rattle.std.specs.Prelude.{◌≡◌, ℕ, ◌≤◌, List, length};
ghost use Rattle.project_read.specs.declared.limits.TheConstants.{MAX_PROJECT_BYTES};
ghost use Rattle.controller.specs.Calls.{ReadsFile, ReadsProject};

use crate::answer::Stop;
use crate::unheld::Unheld;
use edit_rules::Project;
use nc_base::NcText;
use nc_outside::{FileErr, Files};
use project_read::{MAX_PROJECT_BYTES, ProjectErr, ProjectReason, project_in};
use std::alloc::Global;

/// The project of bytes, of which there are no more than a file may have.
///
/// # Errors
/// Why they hold none.
fn project_within(alloc: Global, bytes: &[u8]) -> Result<Project, Unheld>
    requires { length bytes.now ≤ MAX_PROJECT_BYTES }
    ensures { ReadsProject bytes.now result }
{
    match project_in(alloc, bytes) {
        Ok(project) => Ok(project),
        Err(ProjectErr::Refused(reason)) => Err(Unheld::Refused(reason)),
        Err(ProjectErr::NoMemory) => Err(Unheld::Stopped(Stop::NoMemory)),
    }
}

/// The project of bytes, read as those of a file are.
///
/// # Errors
/// Why they hold none.
pub fn project_of(alloc: Global, bytes: &[u8]) -> Result<Project, Unheld>
    ensures { ReadsProject bytes.now result }
{
    if bytes.len() <= MAX_PROJECT_BYTES {
        project_within(alloc, bytes)
    } else {
        Err(Unheld::Refused(ProjectReason::TooLong))
    }
}

/// The project that a file holds.
///
/// # Errors
/// Why it gave none.
pub fn project_at<F: Files>(alloc: Global, name: &NcText, files: &mut F) -> Result<Project, Unheld>
    ensures kept { (n : List ℕ) → F.holds files.new n ≡ F.holds files.old n }
    ensures counted { (n : List ℕ) → F.faults files.old n ≤ F.faults files.new n }
    ensures project { ReadsFile (F.holds files.old name.now) (F.faults files.old name.now) (F.faults files.new name.now) result }
{
    let mut room = Vec::new(alloc);
    match files.read(name, &mut room, MAX_PROJECT_BYTES as u32) {
        Ok(()) => project_within(alloc, room.as_slice()),
        Err(FileErr::TooLong) => Err(Unheld::Refused(ProjectReason::TooLong)),
        Err(FileErr::Failed) => Err(Unheld::Stopped(Stop::ReadFault)),
        Err(FileErr::NoMemory) => Err(Unheld::Stopped(Stop::NoMemory)),
    }
}
