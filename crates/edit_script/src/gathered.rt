//! What is kept of the edits so far.

ghost use Rattle.std.specs.Prelude.{◌≡◌, ◌+◌, ◌<◌, ◌++◌, ◌∷◌, [], List, IfOk, OnOk};
ghost use Rattle.edit_script.specs.declared.limits.TheConstants.{MAX_EDITS};
ghost use Rattle.edit_script.specs.Script.{EditTree};
ghost use Rattle.edit_script.specs.Source.{IsWritten};
ghost use Rattle.edit_script.specs.Judged.{IsFaultIn, IsGathered, Finishes};

use crate::error::ScriptErr;
use crate::judged::judged;
use crate::limits::MAX_EDITS;
use crate::source::Written;
use entity_types::Script;
use nc_base::NoMemory;
use std::alloc::Global;

/// What is kept of the edits so far: how many there were, and their entities, or their first fault. Behind that one no entity is made, since the
/// text holds no script; but reading goes on, since a fault of the text comes before it.
#[derive(Drop)]
pub struct Gathered {
    pub count: u32,
    pub edits: Script,
    /// From when on the last edit is due, 0 where there is none.
    pub last: u32,
    pub fault: Option<ScriptErr>,
}

/// The fault of an edit, which want of memory is not.
fn fault_in(e: ScriptErr) -> Result<ScriptErr, NoMemory>
    ensures { IfOk result (IsFaultIn e) }
{
    match e {
        ScriptErr::NoMemory => Err(NoMemory),
        fault => Ok(fault),
    }
}

impl Gathered {
    /// What is kept of no edit.
    pub fn new(alloc: Global) -> Gathered
        ensures { IsGathered [] result }
    {
        Gathered {
            count: 0,
            edits: Script::new(alloc),
            last: 0,
            fault: None,
        }
    }

    /// Keeps what there is of one edit more.
    pub fn add(&mut self, alloc: Global, written: &Written) -> Result<(), NoMemory>
        requires { self.old.count < MAX_EDITS }
        ensures { (es : List EditTree) (e : EditTree) → IsGathered es self.old → IsWritten written.now e → OnOk result (IsGathered (es ++ e ∷ []) self.new) }
    {
        let index = self.count;
        self.count = index + 1;
        if self.fault.is_some() {
            return Ok(());
        }
        match judged(alloc, index, self.last, written) {
            Ok(edit) => {
                self.edits.push(edit)?;
                self.last = written.at;
                Ok(())
            }
            Err(e) => {
                self.fault = Some(fault_in(e)?);
                Ok(())
            }
        }
    }

    /// The edits, or their first fault.
    pub fn finish(self) -> Result<Script, ScriptErr>
        ensures { (es : List EditTree) → IsGathered es self → Finishes es result }
    {
        match self.fault {
            Some(fault) => Err(fault),
            None => Ok(self.edits),
        }
    }
}
