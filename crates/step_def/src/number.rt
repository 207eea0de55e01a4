//! Numbers and lengths that stand in a field, or in the measure that it refers to.

ghost use Rattle.std.specs.Prelude.{◌≡◌};
ghost use Rattle.entity_types.specs.Entity.{field_of};
ghost use Rattle.step_def.specs.Lookup.{value_in, measure_of, length_in, number_at, length_at, free_length_at, free_number_at};

use crate::attributes::Quantity;
use crate::fault::DefFault;
use crate::reference::{is_absent, is_of};
use entity_types::{Class, Entity, Field};
use nc_base::Number;
use project_store::Entities;

fn value_in(entity: &Entity, position: u8) -> Option<i64>
    ensures { result ≡ value_in (field_of entity.now position) }
{
    match entity.field(position) {
        Some(Field::Value(x)) => Some(*x),
        _ => None,
    }
}

/// The number of a measure.
fn measure_of(entity: &Entity) -> Option<i64>
    ensures { result ≡ measure_of entity.now }
{
    if is_of(Class::TolerancedLengthMeasure, entity) {
        value_in(entity, 1)
    } else if is_of(Class::NumericParameter, entity) {
        value_in(entity, 2)
    } else {
        None
    }
}

fn length_in<E: Entities>(from: &E, entity: &Entity, position: u8) -> Option<i64>
    ensures { result ≡ length_in (E.entities from.now) (field_of entity.now position) }
{
    match entity.field(position) {
        Some(Field::Value(x)) => Some(*x),
        Some(Field::Ref(number)) => measure_of(from.get(*number)?),
        _ => None,
    }
}

#[tactic(auto, unfolding(crate::specs::Lookup::number_at))]
pub(crate) fn number_at(n: Number, entity: &Entity, position: u8) -> Result<Quantity, DefFault>
    ensures { result ≡ number_at n entity.now position }
{
    match value_in(entity, position) {
        Some(value) => Ok(Quantity {
            number: n,
            position: u32::from(position),
            value,
        }),
        None => Err(DefFault::Missing(n, u32::from(position))),
    }
}

#[tactic(auto, unfolding(crate::specs::Lookup::length_at))]
pub(crate) fn length_at<E: Entities>(
    from: &E,
    n: Number,
    entity: &Entity,
    position: u8,
) -> Result<Quantity, DefFault>
    ensures { result ≡ length_at (E.entities from.now) n entity.now position }
{
    match length_in(from, entity, position) {
        Some(value) => Ok(Quantity {
            number: n,
            position: u32::from(position),
            value,
        }),
        None => Err(DefFault::Missing(n, u32::from(position))),
    }
}

/// The length at a position that may be `$`.
pub(crate) fn free_length_at<E: Entities>(
    from: &E,
    n: Number,
    entity: &Entity,
    position: u8,
) -> Result<Option<Quantity>, DefFault>
    ensures { result ≡ free_length_at (E.entities from.now) n entity.now position }
{
    if is_absent(entity, position) {
        return Ok(None);
    }
    Ok(Some(length_at(from, n, entity, position)?))
}

/// The number at a position that may be `$`.
pub(crate) fn free_number_at(
    n: Number,
    entity: &Entity,
    position: u8,
) -> Result<Option<Quantity>, DefFault>
    ensures { result ≡ free_number_at n entity.now position }
{
    if is_absent(entity, position) {
        return Ok(None);
    }
    Ok(Some(number_at(n, entity, position)?))
}
