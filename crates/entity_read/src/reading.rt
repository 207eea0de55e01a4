//! The entity of an instance.

ghost use Rattle.std.specs.Prelude.{◌≡◌, IfOk, IfSome, IfNone, IsTrue, map, option_map, option_copied};
ghost use Rattle.p21_parse.specs.Tree.{listed};
ghost use Rattle.p21_parse.specs.View.{tree_of, part_of, instance_of};
ghost use Rattle.entity_types.specs.Fits.{field_fits, all_fit};
ghost use Rattle.entity_read.specs.Typed.{field_among, fields_among, simple_part, Types, Lists};

use crate::error::TypeErr;
use crate::field::{field, unset};
use entity_types::{Class, Entity, Field, FieldList, UsedPosition, class_of, used};
use nc_base::{NoMemory, Number};
use p21_parse::{Instance, Param, Part};
use std::alloc::Global;

/// The part of a simple instance that has exactly one.
fn simple_part(instance: &Instance) -> Option<&Part>
    ensures { option_map part_of (option_copied result) ≡ simple_part (instance_of instance.now) }
{
    if instance.complex {
        return None;
    }
    match instance.parts.as_slice() {
        [part] => Some(part),
        _ => None,
    }
}

/// The field at a used position. Past the last parameter there stands `$`.
fn field_among(
    alloc: Global,
    used: UsedPosition,
    params: &[Param],
) -> Result<Option<Field>, NoMemory>
    ensures value { IfOk result (λ field. field ≡ field_among used (map tree_of params.now)) }
    ensures fits { IfOk result (λ field. IfSome field (λ field. IsTrue (field_fits used field))) }
{
    match params.get(usize::from(used.position).saturating_sub(1)) {
        Some(param) => field(alloc, used, param),
        None => Ok(unset(used)),
    }
}

/// The fields at these used positions.
fn fields_among(
    alloc: Global,
    number: Number,
    used: &[UsedPosition],
    params: &[Param],
) -> Result<FieldList, TypeErr>
    ensures value { Lists number (fields_among used.now (map tree_of params.now)) result }
    ensures fits { IfOk result (λ fields. IsTrue (all_fit used.now fields)) }
{
    // No class has more than 255 used positions; the room is a hint for speed.
    let mut fields = FieldList::with_capacity(alloc, used.len().min(255) as u32)?;
    for used in used {
        match field_among(alloc, *used, params)? {
            Some(field) => fields.push(field)?,
            None => return Err(TypeErr::BadAttribute(number, u32::from(used.position))),
        }
    }
    Ok(fields)
}

/// The entity of an instance: its class by its keyword, and the fields at the used positions of the class.
///
/// A complex instance, one that hasn't exactly one part, and every other keyword give class `Opaque`, which has no fields.
///
/// # Errors
/// `BadAttribute` with the least used position whose parameter isn't of its kind, or want of memory.
pub fn typed(alloc: Global, instance: &Instance) -> Result<Entity, TypeErr>
    ensures { Types (instance_of instance.now) result }
{
    let Some(part) = simple_part(instance) else {
        return Ok(Entity {
            number: instance.number,
            class: Class::Opaque,
            fields: FieldList::new(alloc),
        });
    };
    let class = class_of(part.keyword.bytes());
    let fields = fields_among(
        alloc,
        instance.number,
        used(class),
        part.parameters.as_slice(),
    )?;
    Ok(Entity {
        number: instance.number,
        class,
        fields,
    })
}
