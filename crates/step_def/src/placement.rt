//! Points, directions, placements and planes, after ISO 10303-42.

ghost use Rattle.std.specs.Prelude.{◌≡◌};
ghost use Rattle.entity_types.specs.Entity.{field_of};
ghost use Rattle.step_def.specs.Lookup.{coordinates_at, coordinates_in, free, placement_at, plane_at};

use crate::attributes::{Coordinates, Placement};
use crate::fault::DefFault;
use crate::reference::{class_at, is_absent};
use entity_types::{Class, Entity, Field};
use nc_base::Number;
use project_store::Entities;

/// The coordinates that a point or a direction holds.
pub(crate) fn coordinates_in(number: Number, entity: &Entity) -> Option<Coordinates>
    ensures { result ≡ coordinates_in number (field_of entity.now 2) }
{
    match entity.field(2) {
        Some(Field::Values { x, y, z, .. }) => Some(Coordinates {
            number,
            x: *x,
            y: *y,
            z: *z,
        }),
        _ => None,
    }
}

/// The coordinates of the point or the direction that a position refers to.
#[tactic(auto, unfolding(crate::specs::Lookup::coordinates_at))]
pub(crate) fn coordinates_at<E: Entities>(
    from: &E,
    n: Number,
    entity: &Entity,
    position: u8,
    class: Class,
) -> Result<Coordinates, DefFault>
    ensures { result ≡ coordinates_at (E.entities from.now) n entity.now position class }
{
    let (number, entity) = class_at(from, n, entity, position, class)?;
    match coordinates_in(number, entity) {
        Some(coordinates) => Ok(coordinates),
        None => Err(DefFault::Missing(number, 2)),
    }
}

/// The direction that a position refers to, which may be `$`.
fn direction_at<E: Entities>(
    from: &E,
    n: Number,
    entity: &Entity,
    position: u8,
) -> Result<Option<Coordinates>, DefFault>
    ensures { result ≡ free (field_of entity.now position) (coordinates_at (E.entities from.now) n entity.now position Class.Direction) }
{
    if is_absent(entity, position) {
        return Ok(None);
    }
    Ok(Some(coordinates_at(from, n, entity, position, Class::Direction)?))
}

#[tactic(auto, unfolding(crate::specs::Lookup::placement_at))]
pub(crate) fn placement_at<E: Entities>(
    from: &E,
    n: Number,
    entity: &Entity,
    position: u8,
) -> Result<Placement, DefFault>
    ensures { result ≡ placement_at (E.entities from.now) n entity.now position }
{
    let (number, placement) = class_at(from, n, entity, position, Class::Axis2Placement3d)?;
    let point = coordinates_at(from, number, placement, 2, Class::CartesianPoint)?;
    let axis = direction_at(from, number, placement, 3)?;
    let reference = direction_at(from, number, placement, 4)?;
    Ok(Placement {
        point,
        axis,
        reference,
    })
}

/// The placement of the plane that a position refers to.
#[tactic(auto, unfolding(crate::specs::Lookup::plane_at))]
pub(crate) fn plane_at<E: Entities>(
    from: &E,
    n: Number,
    entity: &Entity,
    position: u8,
) -> Result<Placement, DefFault>
    ensures { result ≡ plane_at (E.entities from.now) n entity.now position }
{
    let (number, plane) = class_at(from, n, entity, position, Class::Plane)?;
    placement_at(from, number, plane, 2)
}
