//! A pocket, and the operations that mill a bottom and its sides.

ghost use Rattle.std.specs.Prelude.{◌≡◌};
ghost use Rattle.step_def.specs.Lookup.{corner_at, corners_at, points_alone, five_corners, four_corners, contour_of, outline_of, pocket_part, is_pocketing, pocketing_part};

use crate::attributes::{
    Coordinates, CornerPoints, FeaturePart, OperationPart, Outline, PocketCut,
};
use crate::fault::DefFault;
use crate::number::{free_length_at, length_at};
use crate::placement::coordinates_in;
use crate::reference::{instance_at, is_of};
use crate::tool::diameter_at;
use entity_types::{Class, Entity, Field};
use nc_base::Number;
use project_store::Entities;

/// The coordinates of a point that polyline `n` names.
#[tactic(auto, unfolding(crate::specs::Lookup::corner_at))]
fn corner_at<E: Entities>(from: &E, n: Number, number: Number) -> Result<Coordinates, DefFault>
    ensures { result ≡ corner_at (E.entities from.now) n number }
{
    match from.get(number) {
        Some(point) if is_of(Class::CartesianPoint, point) => {
            match coordinates_in(number, point) {
                Some(corner) => Ok(corner),
                None => Err(DefFault::Missing(n, 2)),
            }
        }
        _ => Err(DefFault::Missing(n, 2)),
    }
}

/// The outline of a polyline with more or fewer points than a rectangle has.
fn points_alone<E: Entities>(from: &E, n: Number, numbers: &[Number]) -> Result<Outline, DefFault>
    ensures { result ≡ points_alone (E.entities from.now) n numbers.now }
{
    for number in numbers {
        corner_at(from, n, *number)?;
    }
    Ok(Outline::Other(n))
}

#[tactic(auto, unfolding(crate::specs::Lookup::four_corners))]
fn four_corners<E: Entities>(
    from: &E,
    n: Number,
    a: Number,
    b: Number,
    c: Number,
    d: Number,
) -> Result<Outline, DefFault>
    ensures { result ≡ four_corners (E.entities from.now) n a b c d }
{
    let first = corner_at(from, n, a)?;
    let second = corner_at(from, n, b)?;
    let third = corner_at(from, n, c)?;
    let fourth = corner_at(from, n, d)?;
    Ok(Outline::Corners(CornerPoints {
        polyline: n,
        first,
        second,
        third,
        fourth,
        fifth: None,
    }))
}

#[tactic(auto, unfolding(crate::specs::Lookup::five_corners))]
fn five_corners<E: Entities>(
    from: &E,
    n: Number,
    a: Number,
    b: Number,
    c: Number,
    d: Number,
    e: Number,
) -> Result<Outline, DefFault>
    ensures { result ≡ five_corners (E.entities from.now) n a b c d e }
{
    let first = corner_at(from, n, a)?;
    let second = corner_at(from, n, b)?;
    let third = corner_at(from, n, c)?;
    let fourth = corner_at(from, n, d)?;
    let fifth = corner_at(from, n, e)?;
    Ok(Outline::Corners(CornerPoints {
        polyline: n,
        first,
        second,
        third,
        fourth,
        fifth: Some(fifth),
    }))
}

/// The outline of polyline `n` with these points.
fn corners_at<E: Entities>(from: &E, n: Number, numbers: &[Number]) -> Result<Outline, DefFault>
    ensures { result ≡ corners_at (E.entities from.now) n numbers.now }
{
    let count = numbers.len();
    if count == 4 {
        return four_corners(from, n, numbers[0], numbers[1], numbers[2], numbers[3]);
    }
    if count == 5 {
        return five_corners(
            from, n, numbers[0], numbers[1], numbers[2], numbers[3], numbers[4],
        );
    }
    points_alone(from, n, numbers)
}

#[tactic(auto, unfolding(crate::specs::Lookup::contour_of))]
fn contour_of<E: Entities>(from: &E, n: Number, contour: &Entity) -> Result<Outline, DefFault>
    ensures { result ≡ contour_of (E.entities from.now) (n, contour.now) }
{
    if !is_of(Class::Polyline, contour) {
        return Ok(Outline::Other(n));
    }
    match contour.field(2) {
        Some(Field::Refs(numbers)) => corners_at(from, n, numbers.as_slice()),
        _ => Err(DefFault::Missing(n, 2)),
    }
}

#[tactic(auto, unfolding(crate::specs::Lookup::outline_of))]
fn outline_of<E: Entities>(from: &E, n: Number, boundary: &Entity) -> Result<Outline, DefFault>
    ensures { result ≡ outline_of (E.entities from.now) (n, boundary.now) }
{
    if is_of(Class::RectangularClosedProfile, boundary) {
        let length = length_at(from, n, boundary, 2)?;
        let width = length_at(from, n, boundary, 3)?;
        Ok(Outline::Lengths { length, width })
    } else if is_of(Class::GeneralClosedProfile, boundary) {
        let (contour, contour_entity) = instance_at(from, n, boundary, 2)?;
        contour_of(from, contour, contour_entity)
    } else {
        Ok(Outline::Other(n))
    }
}

/// What a pocket adds: its outline.
#[tactic(auto, unfolding(crate::specs::Lookup::pocket_part))]
pub(crate) fn pocket_part<E: Entities>(
    from: &E,
    n: Number,
    feature: &Entity,
) -> Result<FeaturePart, DefFault>
    ensures { result ≡ pocket_part (E.entities from.now) (n, feature.now) }
{
    let (boundary, boundary_entity) = instance_at(from, n, feature, 11)?;
    let outline = outline_of(from, boundary, boundary_entity)?;
    Ok(FeaturePart::Hollow { outline })
}

/// Rough and finish milling of a bottom and its sides.
pub(crate) fn is_pocketing(operation: &Entity) -> bool
    ensures { result ≡ is_pocketing operation.now }
{
    operation.class.is_between(
        Class::BottomAndSideRoughMilling,
        Class::BottomAndSideFinishMilling,
    )
}

/// What milling a pocket adds.
#[tactic(auto, unfolding(crate::specs::Lookup::pocketing_part))]
pub(crate) fn pocketing_part<E: Entities>(
    from: &E,
    n: Number,
    operation: &Entity,
) -> Result<OperationPart, DefFault>
    ensures { result ≡ pocketing_part (E.entities from.now) (n, operation.now) }
{
    let diameter = diameter_at(from, n, operation)?;
    let axial = free_length_at(from, n, operation, 13)?;
    let radial = free_length_at(from, n, operation, 14)?;
    let side = free_length_at(from, n, operation, 15)?;
    let bottom = free_length_at(from, n, operation, 16)?;
    Ok(OperationPart::Pocketing(PocketCut {
        diameter,
        axial,
        radial,
        side,
        bottom,
    }))
}
