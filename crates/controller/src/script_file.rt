//! The script that a word names.

ghost use Rattle.std.specs.Prelude.{◌≡◌, ℕ, ◌≤◌, List, length};
ghost use Rattle.controller.specs.Words.{is_hyphen};
ghost use Rattle.controller.specs.Calls.{ReadsScript, ReadsEdits};

use crate::answer::Stop;
use crate::status::ScriptReason;
use crate::unheld::Unheld;
use edit_script::{ScriptErr, read};
use entity_types::Script;
use nc_base::NcText;
use nc_outside::{FileErr, Files};
use std::alloc::Global;

/// How many bytes a script file has at most (this profile).
pub const MAX_SCRIPT_BYTES: usize = 16_777_216;

/// Whether a word stands for no file.
pub fn is_hyphen(word: &[u8]) -> bool
    ensures { result ≡ is_hyphen word.now }
{
    b"-".as_slice() == word
}

/// The edits of the script that bytes are, of which there are no more than a file may have.
///
/// # Errors
/// Why they are none.
fn edits_within(alloc: Global, bytes: &[u8]) -> Result<Script, Unheld>
    requires { length bytes.now ≤ MAX_SCRIPT_BYTES }
    ensures { ReadsEdits bytes.now result }
{
    match read(alloc, bytes) {
        Ok(edits) => Ok(edits),
        Err(ScriptErr::NoMemory) => Err(Unheld::Stopped(Stop::NoMemory)),
        Err(fault) => Err(Unheld::ScriptRefused(ScriptReason::Script(fault))),
    }
}

/// The edits of the script that bytes are, read as those of a file are.
///
/// # Errors
/// Why they are none.
pub fn edits_of(alloc: Global, bytes: &[u8]) -> Result<Script, Unheld>
    ensures { ReadsEdits bytes.now result }
{
    if bytes.len() <= MAX_SCRIPT_BYTES {
        edits_within(alloc, bytes)
    } else {
        Err(Unheld::ScriptRefused(ScriptReason::TooLong))
    }
}

/// The edits of the script that a word names: none where it is a hyphen, and else those of the file of that name.
///
/// # Errors
/// Why the file gave none.
pub fn script_at<F: Files>(alloc: Global, word: &NcText, files: &mut F) -> Result<Script, Unheld>
    ensures kept { (n : List ℕ) → F.holds files.new n ≡ F.holds files.old n }
    ensures counted { (n : List ℕ) → F.faults files.old n ≤ F.faults files.new n }
    ensures script { ReadsScript (F.holds files.old) word.now (F.faults files.old word.now) (F.faults files.new word.now) result }
{
    if is_hyphen(word.bytes()) {
        return Ok(Script::new(alloc));
    }
    let mut room = Vec::new(alloc);
    match files.read(word, &mut room, MAX_SCRIPT_BYTES as u32) {
        Ok(()) => edits_within(alloc, room.as_slice()),
        Err(FileErr::TooLong) => Err(Unheld::ScriptRefused(ScriptReason::TooLong)),
        Err(FileErr::Failed) => Err(Unheld::Stopped(Stop::ReadFault)),
        Err(FileErr::NoMemory) => Err(Unheld::Stopped(Stop::NoMemory)),
    }
}
