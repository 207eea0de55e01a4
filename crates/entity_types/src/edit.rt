//! Edits, and scripts of them.

ghost use Rattle.std.specs.Prelude.{◌≡◌, IfOk};

use crate::entity::{Entity, EntityList};
use nc_base::{ItemList, NoMemory};
use std::alloc::Global;

/// An operator's edit: from when on it is due, in entries of the log, and the entities that it puts into the project.
#[derive(Debug, Drop)]
pub struct Edit {
    pub at: u32,
    pub items: EntityList,
}

/// Edits in the order in which they are judged.
pub type Script = ItemList<Edit>;

impl Edit {
    /// An equal edit.
    pub fn copy(&self, alloc: Global) -> Result<Edit, NoMemory>
        ensures { IfOk result (λ copy. copy ≡ self.now) }
    {
        Ok(Edit {
            at: self.at,
            items: copy_entities(alloc, self.items.as_slice())?,
        })
    }
}

fn copy_entities(alloc: Global, entities: &[Entity]) -> Result<EntityList, NoMemory>
    ensures { IfOk result (λ copy. copy ≡ entities.now) }
{
    let mut copy = EntityList::new(alloc);
    for entity in entities {
        copy.push(entity.copy(alloc)?)?;
    }
    Ok(copy)
}
