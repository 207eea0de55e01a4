//! The rectangle of a pocket: which outlines are one, and where its sides lie.

ghost use Rattle.std.specs.Prelude.{◌≡◌, ◌/◌, ◌≤◌, unsigned_abs, pos, ◌+ℤ◌, ◌-ℤ◌, IsTrue};
ghost use Rattle.std.specs.Int.{int_max, int_min, is_positive};
ghost use Rattle.path_blocks.specs.PathPocket.{shrunk};
ghost use Rattle.path_blocks.specs.Range.{is_within};
ghost use Rattle.path_blocks.specs.declared.limits.TheConstants.{MAX_SIZE};
ghost use Rattle.step_def.specs.Faults.{area_of, is_closed, is_rectangle, is_sized, runs_along_x, runs_along_y, turns_from_x, turns_from_y};
ghost use Rattle.step_def.specs.Numbers.{has_room, rectangle_of};
ghost use Rattle.step_def.specs.Sides.{rectangle_with};
ghost use Rattle.step_def.specs.Facts.{AreaFacts, CornersFacts, PlaceFacts, RectangleWithin, SidesFacts};

use crate::attributes::{Area, Coordinates, CornerPoints, Lookup, Outline, Quantity, Sides};
use crate::fault::DefFault;

/// Whether the side between these points runs along x and isn't zero.
fn runs_along_x(from: &Coordinates, to: &Coordinates) -> bool
    ensures { result ≡ runs_along_x from.now to.now }
{
    from.y == to.y && from.x != to.x
}

/// Whether the side between these points runs along y and isn't zero.
fn runs_along_y(from: &Coordinates, to: &Coordinates) -> bool
    ensures { result ≡ runs_along_y from.now to.now }
{
    from.x == to.x && from.y != to.y
}

/// Whether a fifth point is the first one again.
fn is_closed(points: &CornerPoints) -> bool
    ensures { result ≡ is_closed points.now }
{
    match &points.fifth {
        Some(fifth) => fifth.x == points.first.x && fifth.y == points.first.y,
        None => true,
    }
}

/// Whether the sides run along x and along y in turn, the first along x.
fn turns_from_x(p: &CornerPoints) -> bool
    ensures { result ≡ turns_from_x p.now }
{
    runs_along_x(&p.first, &p.second)
        && runs_along_y(&p.second, &p.third)
        && runs_along_x(&p.third, &p.fourth)
        && runs_along_y(&p.fourth, &p.first)
}

/// Whether the sides run along x and along y in turn, the first along y.
fn turns_from_y(p: &CornerPoints) -> bool
    ensures { result ≡ turns_from_y p.now }
{
    runs_along_y(&p.first, &p.second)
        && runs_along_x(&p.second, &p.third)
        && runs_along_y(&p.third, &p.fourth)
        && runs_along_x(&p.fourth, &p.first)
}

/// Whether the points are the corners of a rectangle, one after the other.
fn is_rectangle(points: &CornerPoints) -> bool
    ensures { result ≡ is_rectangle points.now }
{
    (turns_from_x(points) || turns_from_y(points)) && is_closed(points)
}

/// The rectangle that an outline is.
pub(crate) fn area_of(outline: &Outline) -> Result<Area, DefFault>
    ensures { result ≡ area_of outline.now }
{
    match outline {
        Outline::Lengths { length, width } => Ok(Area::Centred {
            length: *length,
            width: *width,
        }),
        Outline::Corners(points) => {
            if is_rectangle(points) {
                Ok(Area::Cornered(*points))
            } else {
                Err(DefFault::NotRectangle(points.polyline))
            }
        }
        Outline::Other(n) => Err(DefFault::NotRectangle(*n)),
    }
}

/// Where a side of this length begins, which is centred on a place.
fn centred_from(at: &i64, length: &Quantity) -> i64
    requires at { IsTrue (is_sized at.now) }
    requires length { IsTrue (is_sized length.now.value) }
    ensures exact { result ≡ at.now -ℤ pos (unsigned_abs length.now.value / 2) }
    ensures within { IsTrue (is_within result) }
{
    *at - (length.value.unsigned_abs() / 2) as i64
}

/// Where it ends.
fn centred_to(at: &i64, length: &Quantity) -> i64
    requires at { IsTrue (is_sized at.now) }
    requires length { IsTrue (is_sized length.now.value) }
    requires long { IsTrue (is_positive length.now.value) }
    ensures exact { result ≡ at.now -ℤ pos (unsigned_abs length.now.value / 2) +ℤ length.now.value }
    ensures within { IsTrue (is_within result) }
{
    centred_from(at, length) + length.value
}

/// The lesser of two coordinates, from a place.
fn lesser_from(at: &i64, a: &i64, b: &i64) -> i64
    requires at { IsTrue (is_sized at.now) }
    requires a { IsTrue (is_sized a.now) }
    requires b { IsTrue (is_sized b.now) }
    ensures exact { result ≡ at.now +ℤ int_min a.now b.now }
    ensures within { IsTrue (is_within result) }
{
    if *b < *a { *at + *b } else { *at + *a }
}

/// The greater of two coordinates, from a place.
fn greater_from(at: &i64, a: &i64, b: &i64) -> i64
    requires at { IsTrue (is_sized at.now) }
    requires a { IsTrue (is_sized a.now) }
    requires b { IsTrue (is_sized b.now) }
    ensures exact { result ≡ at.now +ℤ int_max a.now b.now }
    ensures within { IsTrue (is_within result) }
{
    if *b < *a { *at + *a } else { *at + *b }
}

/// The rectangle with sides of these lengths that is centred on the placement.
fn centred(lookup: &Lookup, length: &Quantity, width: &Quantity) -> Sides
    requires place { PlaceFacts lookup.now }
    requires sides { SidesFacts length.now width.now }
    ensures exact { rectangle_with result ≡ rectangle_of lookup.now (Area.Centred length.now width.now) }
    ensures within { RectangleWithin (rectangle_with result) }
{
    let at = &lookup.placement.point;
    Sides {
        left: centred_from(&at.x, length),
        low: centred_from(&at.y, width),
        right: centred_to(&at.x, length),
        high: centred_to(&at.y, width),
    }
}

/// The rectangle whose corners these are, from the placement.
fn cornered(lookup: &Lookup, p: &CornerPoints) -> Sides
    requires place { PlaceFacts lookup.now }
    requires corners { CornersFacts p.now }
    ensures exact { rectangle_with result ≡ rectangle_of lookup.now (Area.Cornered p.now) }
    ensures within { RectangleWithin (rectangle_with result) }
{
    let at = &lookup.placement.point;
    Sides {
        left: lesser_from(&at.x, &p.first.x, &p.third.x),
        low: lesser_from(&at.y, &p.first.y, &p.third.y),
        right: greater_from(&at.x, &p.first.x, &p.third.x),
        high: greater_from(&at.y, &p.first.y, &p.third.y),
    }
}

/// The rectangle of a pocket.
pub(crate) fn rectangle_of(lookup: &Lookup, area: &Area) -> Sides
    requires place { PlaceFacts lookup.now }
    requires area { AreaFacts area.now }
    ensures exact { rectangle_with result ≡ rectangle_of lookup.now area.now }
    ensures within { RectangleWithin (rectangle_with result) }
{
    match area {
        Area::Centred { length, width } => centred(lookup, length, width),
        Area::Cornered(p) => cornered(lookup, p),
    }
}

/// The rectangle shrunk by so much on each side.
pub(crate) fn shrunk(sides: &Sides, by: u64) -> Sides
    requires within { RectangleWithin (rectangle_with sides.now) }
    requires by { by ≤ MAX_SIZE }
    ensures { rectangle_with result ≡ shrunk (rectangle_with sides.now) by }
{
    let by = by as i64;
    Sides {
        left: sides.left + by,
        low: sides.low + by,
        right: sides.right - by,
        high: sides.high - by,
    }
}

/// Whether no side of the rectangle is below 0.
pub(crate) fn has_room(sides: &Sides) -> bool
    ensures { result ≡ has_room (rectangle_with sides.now) }
{
    sides.left <= sides.right && sides.low <= sides.high
}
