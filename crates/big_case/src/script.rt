//! The text of the script.

ghost use Rattle.std.specs.Prelude.{◌≡◌, ◌+◌, ◌*◌, ◌<◌, ◌≤◌, ◌++◌, IfOk, OnOk, ℕ};
ghost use Rattle.big_case.specs.Draws.{state_after};
ghost use Rattle.big_case.specs.Script.{edit_text, script};
ghost use Rattle.big_case.specs.declared.workplans.TheConstants.{MAX_STEPS};

use crate::draws::Draws;
use crate::params::put_decimal;
use crate::step::Revision;
use crate::workplans::{MAX_STEPS, step_number};
use nc_base::NoMemory;
use std::alloc::Global;

/// Puts an edit that is due from entry `at` on.
fn put_edit(out: &mut Vec<u8>, at: u32, revision: Revision) -> Result<(), NoMemory>
    requires { revision.step ≤ MAX_STEPS }
    ensures { OnOk result (out.new.items ≡ out.old.items ++ edit_text at revision) }
{
    out.extend_from_slice(b"EDIT AT ")?;
    put_decimal(out, at)?;
    out.extend_from_slice(b"; #")?;
    put_decimal(out, step_number(revision.step) + 7)?;
    out.extend_from_slice(b"=CARTESIAN_POINT('',(0.,0.,-")?;
    put_decimal(out, revision.depth)?;
    out.extend_from_slice(b".)); ENDEDIT;\n")?;
    Ok(())
}

/// The script for a project of so many workingsteps, whose draws come before.
pub fn script(alloc: Global, draws: &mut Draws, steps: u32) -> Result<Vec<u8>, NoMemory>
    requires some { 1 ≤ steps }
    requires steps { steps ≤ MAX_STEPS }
    ensures { IfOk result (λ v. (start : ℕ) → draws.old.state ≡ state_after start (4 * steps) → v.items ≡ script steps start) }
{
    let mut out = Vec::new(alloc);
    for j in 0..steps / 10 {
        let revision = draws.revision(steps);
        put_edit(&mut out, 20 * j, revision)?;
    }
    Ok(out)
}
