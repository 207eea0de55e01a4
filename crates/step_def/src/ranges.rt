//! The ranges of the numbers that a lookup found.

ghost use Rattle.std.specs.Prelude.{◌≡◌, pos, ◌-ℤ◌, option_map, IsTrue, Some};
ghost use Rattle.step_def.specs.Faults.{all_in_range, between, coordinate, corner_ranges, cut_ranges, depth_of, feature_ranges, is_in_range, is_sized, operation_ranges, place_ranges, ranges_check, shallower, sized, x_range, y_range};

use crate::attributes::{Area, Coordinates, CornerPoints, Lookup, Machining, Quantity, Ranged};
use crate::fault::DefFault;

/// The greatest size of a length, feed, spindle speed or dwell that a workingstep is given, in thousandths of its unit (this profile).
pub const MAX_VALUE: i64 = 100_000_000;

/// Whether the number is within its range.
fn is_in_range(x: &Ranged) -> bool
    ensures { result ≡ is_in_range x.now }
{
    x.least <= x.value && x.value <= x.greatest
}

/// The first of these that is out of its range, if one is.
fn all_in_range(numbers: &[Option<Ranged>]) -> Result<(), DefFault>
    ensures { result ≡ all_in_range numbers.now }
{
    for number in numbers {
        if let Some(x) = number {
            if !is_in_range(x) {
                return Err(DefFault::OutOfRange(x.number, x.position));
            }
        }
    }
    Ok(())
}

/// A number that has to be between these ends.
fn between(least: i64, greatest: i64, x: &Quantity) -> Option<Ranged>
    ensures { result ≡ Some (between least greatest x.now) }
{
    Some(Ranged {
        number: x.number,
        position: x.position,
        value: x.value,
        least,
        greatest,
    })
}

/// A number that has to be between these ends where it is there.
fn between_if(least: i64, greatest: i64, x: &Option<Quantity>) -> Option<Ranged>
    ensures { result ≡ option_map (between least greatest) x.now }
{
    match x {
        Some(x) => between(least, greatest, x),
        None => None,
    }
}

/// A number that has to be within the greatest size.
fn sized(x: &Quantity) -> Option<Ranged>
    ensures { result ≡ Some (sized x.now) }
{
    between(-MAX_VALUE, MAX_VALUE, x)
}

/// The greatest allowance that is less than the depth.
fn greatest_allowance(lookup: &Lookup) -> i64
    requires { IsTrue (is_sized lookup.now.floor.point.z) }
    ensures { result ≡ depth_of lookup.now -ℤ pos 1 }
{
    -lookup.floor.point.z - 1
}

/// An allowance that has to be less than the depth where it is there.
fn shallower_if(lookup: &Lookup, x: &Option<Quantity>) -> Option<Ranged>
    requires { IsTrue (is_sized lookup.now.floor.point.z) }
    ensures { result ≡ option_map (shallower lookup.now) x.now }
{
    match x {
        Some(x) => Some(Ranged {
            number: x.number,
            position: x.position,
            value: x.value,
            least: 0,
            greatest: greatest_allowance(lookup),
        }),
        None => None,
    }
}

fn x_of(point: &Coordinates) -> Option<Ranged>
    ensures { result ≡ coordinate point.now point.now.x }
{
    sized(&Quantity {
        number: point.number,
        position: 2,
        value: point.x,
    })
}

fn y_of(point: &Coordinates) -> Option<Ranged>
    ensures { result ≡ coordinate point.now point.now.y }
{
    sized(&Quantity {
        number: point.number,
        position: 2,
        value: point.y,
    })
}

fn z_of(point: &Coordinates) -> Option<Ranged>
    ensures { result ≡ coordinate point.now point.now.z }
{
    sized(&Quantity {
        number: point.number,
        position: 2,
        value: point.z,
    })
}

fn x_if(point: &Option<Coordinates>) -> Option<Ranged>
    ensures { result ≡ option_map x_range point.now }
{
    match point {
        Some(point) => x_of(point),
        None => None,
    }
}

fn y_if(point: &Option<Coordinates>) -> Option<Ranged>
    ensures { result ≡ option_map y_range point.now }
{
    match point {
        Some(point) => y_of(point),
        None => None,
    }
}

fn place_check(lookup: &Lookup) -> Result<(), DefFault>
    ensures { result ≡ all_in_range (place_ranges lookup.now) }
{
    all_in_range(&[
        z_of(&lookup.security.point),
        x_of(&lookup.placement.point),
        y_of(&lookup.placement.point),
        z_of(&lookup.placement.point),
        z_of(&lookup.floor.point),
    ])
}

fn corners_check(p: &CornerPoints) -> Result<(), DefFault>
    ensures { result ≡ all_in_range (corner_ranges p.now) }
{
    all_in_range(&[
        x_of(&p.first),
        y_of(&p.first),
        x_of(&p.second),
        y_of(&p.second),
        x_of(&p.third),
        y_of(&p.third),
        x_of(&p.fourth),
        y_of(&p.fourth),
        x_if(&p.fifth),
        y_if(&p.fifth),
    ])
}

fn feature_ranges_check(machining: &Machining) -> Result<(), DefFault>
    ensures { result ≡ all_in_range (feature_ranges machining.now) }
{
    match machining {
        Machining::DrillHole { diameter, .. } => all_in_range(&[sized(diameter)]),
        Machining::MillFace { face, .. } => all_in_range(&[
            sized(&face.length),
            sized(&face.width),
        ]),
        Machining::MillPocket {
            area: Area::Centred { length, width },
            ..
        } => all_in_range(&[sized(length), sized(width)]),
        Machining::MillPocket {
            area: Area::Cornered(points),
            ..
        } => corners_check(points),
    }
}

fn cut_check(lookup: &Lookup) -> Result<(), DefFault>
    ensures { result ≡ all_in_range (cut_ranges lookup.now) }
{
    all_in_range(&[
        between_if(0, MAX_VALUE, &lookup.technology.retract),
        sized(&lookup.technology.feed),
        sized(&lookup.technology.spindle),
    ])
}

fn operation_ranges_check(lookup: &Lookup, machining: &Machining) -> Result<(), DefFault>
    requires { IsTrue (is_sized lookup.now.floor.point.z) }
    ensures { result ≡ all_in_range (operation_ranges lookup.now machining.now) }
{
    match machining {
        Machining::DrillHole { dwell, .. } => all_in_range(&[between_if(0, MAX_VALUE, dwell)]),
        Machining::MillFace { cut, .. } => all_in_range(&[
            sized(&cut.diameter),
            between_if(0, 999, &cut.strategy.overlap),
            between_if(-MAX_VALUE, MAX_VALUE, &cut.axial),
            shallower_if(lookup, &cut.bottom),
        ]),
        Machining::MillPocket { cut, .. } => all_in_range(&[
            sized(&cut.diameter),
            between_if(-MAX_VALUE, MAX_VALUE, &cut.axial),
            between_if(-MAX_VALUE, MAX_VALUE, &cut.radial),
            between_if(0, MAX_VALUE, &cut.side),
            shallower_if(lookup, &cut.bottom),
        ]),
    }
}

/// The first number of the lookup that is out of its range, if one is.
#[tactic(auto, unfolding(crate::specs::Faults::ranges_check))]
pub(crate) fn ranges_check(lookup: &Lookup, machining: &Machining) -> Result<(), DefFault>
    ensures { result ≡ ranges_check lookup.now machining.now }
{
    place_check(lookup)?;
    feature_ranges_check(machining)?;
    cut_check(lookup)?;
    operation_ranges_check(lookup, machining)
}
