//! The entities of instances.

ghost use Rattle.std.specs.Prelude.{map};
ghost use Rattle.p21_parse.specs.View.{instance_of};
ghost use Rattle.project_read.specs.Reads.{AllTyped};

use crate::reason::ProjectErr;
use entity_read::typed;
use entity_types::Entity;
use p21_parse::Instance;
use std::alloc::Global;

/// The entities of the instances, in order, or the first bad attribute.
pub fn entities_of(alloc: Global, instances: &[Instance]) -> Result<Vec<Entity>, ProjectErr>
    ensures { AllTyped (map instance_of instances.now) result }
{
    let mut entities = Vec::with_capacity(alloc, instances.len())?;
    for instance in instances {
        let entity = typed(alloc, instance)?;
        entities.push(entity)?;
    }
    Ok(entities)
}
