//! Project and script.

ghost use Rattle.std.specs.Prelude.{◌≡◌, ◌≤◌, IfOk};
ghost use Rattle.p21_parse.specs.Text.{IsText};
ghost use Rattle.p21_print.specs.Printed.{printed};
ghost use Rattle.big_case.specs.Project.{project};
ghost use Rattle.big_case.specs.Script.{script};
ghost use Rattle.big_case.specs.declared.workplans.TheConstants.{MAX_STEPS};
ghost use Rattle.p21_parse.specs.View.{exchange_of};
ghost use Rattle.p21_parse.specs.Allowed.{IsAllowed};
ghost use Rattle.p21_parse.specs.Spelled.{IsSpelled};

use crate::draws::Draws;
use crate::project::project;
use crate::script::script;
use crate::workplans::MAX_STEPS;
use nc_base::{NcText, NoMemory};
use p21_parse::Exchange;
use p21_print::{PrintErr, print};
use std::alloc::Global;

/// The text of an exchange that may stand in a file.
fn printed(alloc: Global, x: &Exchange) -> Result<NcText, NoMemory>
    requires allowed { IsAllowed (exchange_of x.now) }
    requires spelled { IsSpelled (exchange_of x.now) }
    ensures text { IfOk result (λ text. text ≡ printed (exchange_of x.now)) }
    ensures reads { IfOk result (λ text. IsText text (exchange_of x.now)) }
{
    match print(alloc, x) {
        Ok(bytes) => NcText::of(alloc, bytes.as_slice()),
        Err(PrintErr::NoMemory) => Err(NoMemory),
        Err(PrintErr::TooDeep) => unreachable!(),
    }
}

/// The texts of a project with `steps` workingsteps, 1 to 1,000, and of a script of one edit for every ten of them, drawn from `start` on,
/// at most 9,999,999. The same two numbers give the same texts. A third of the workingsteps, as far as draws go, are drilled holes, a third
/// pockets and a third faces; they stand in the three branches of a parallel, each in a channel of its own, and the second and the third
/// branch wait for marks that the first and the second set. The edits make a feature deeper or less deep, 1 to 50 mm, and come due every 20 entries.
///
/// # Errors
/// `NoMemory` alone.
pub fn text(alloc: Global, steps: u32, start: u32) -> Result<(NcText, NcText), NoMemory>
    requires some { 1 ≤ steps }
    requires steps { steps ≤ MAX_STEPS }
    requires start { start ≤ 9999999 }
    ensures project { IfOk result (λ texts. texts.0 ≡ printed (project steps start)) }
    ensures reads { IfOk result (λ texts. IsText texts.0 (project steps start)) }
    ensures script { IfOk result (λ texts. texts.1 ≡ script steps start) }
{
    let mut draws = Draws { state: start };
    let exchange = project(alloc, &mut draws, steps)?;
    let project = printed(alloc, &exchange)?;
    let edits = script(alloc, &mut draws, steps)?;
    let script = NcText::of(alloc, edits.as_slice())?;
    Ok((project, script))
}
