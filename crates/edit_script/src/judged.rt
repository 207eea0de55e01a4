//! One edit as entities, or its first fault.

ghost use Rattle.std.specs.Prelude.{◌≡◌, map};
ghost use Rattle.p21_parse.specs.View.{instance_of};
ghost use Rattle.edit_script.specs.Errors.{from_type};
ghost use Rattle.edit_script.specs.Script.{EditTree};
ghost use Rattle.edit_script.specs.Source.{IsWritten};
ghost use Rattle.edit_script.specs.Judged.{AreTyped, Judges};

use crate::error::ScriptErr;
use crate::limits::MAX_ITEMS;
use crate::repeat::repeated;
use crate::source::Written;
use entity_read::{TypeErr, typed};
use entity_types::{Edit, EntityList};
use p21_parse::Instance;
use std::alloc::Global;

/// The bad attribute of an instance of the edit at an index.
fn attribute(index: u32, e: TypeErr) -> ScriptErr
    ensures { result ≡ from_type index e }
{
    match e {
        TypeErr::BadAttribute(number, position) => ScriptErr::Attribute(index, number, position),
        TypeErr::NoMemory => ScriptErr::NoMemory,
    }
}

/// The entities of the instances of the edit at an index, or the first bad attribute.
fn entities_of(alloc: Global, index: u32, instances: &[Instance]) -> Result<EntityList, ScriptErr>
    ensures { AreTyped index (map instance_of instances.now) result }
{
    // An edit has no more than so many; the room is a hint for speed.
    let room = instances.len().min(MAX_ITEMS as usize) as u32;
    let mut entities = EntityList::with_capacity(alloc, room)?;
    for instance in instances {
        match typed(alloc, instance) {
            Ok(entity) => entities.push(entity)?,
            Err(e) => return Err(attribute(index, e)),
        }
    }
    Ok(entities)
}

/// The edit at an index, where the one in front of it is due at `before`, or its first fault.
pub fn judged(alloc: Global, index: u32, before: u32, written: &Written) -> Result<Edit, ScriptErr>
    ensures { (e : EditTree) → IsWritten written.now e → Judges index before e result }
{
    if written.at < before {
        return Err(ScriptErr::AtOrder(index));
    }
    if let Some(number) = repeated(alloc, written.items.as_slice())? {
        return Err(ScriptErr::Repeated(index, number));
    }
    let items = entities_of(alloc, index, written.items.as_slice())?;
    Ok(Edit {
        at: written.at,
        items,
    })
}
