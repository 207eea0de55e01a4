//! Where the step of a number stands.

ghost use Rattle.std.specs.Prelude.{◌≡◌, IfOk, IfSome, IfNone};
ghost use Rattle.edit_rules.specs.Steps.{AreIndices, step_numbers};

use nc_base::{NoMemory, Number};
use path_blocks::Step;
use std::alloc::Global;
use std::collections::BTreeMap;

/// The index of each step by its number. A tree takes no longer for any choice of numbers, as a hash with a seed that is known would.
pub fn indices_of(alloc: Global, steps: &[Step]) -> Result<BTreeMap<Number, usize>, NoMemory>
    ensures { IfOk result (λ indices. AreIndices indices (step_numbers steps.now)) }
{
    let mut indices = BTreeMap::new(alloc);
    for (i, step) in steps.iter().enumerate() {
        indices.insert(step.number, i)?;
    }
    Ok(indices)
}
