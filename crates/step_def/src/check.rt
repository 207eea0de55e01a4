//! The faults of what a lookup found, kind by kind, up to numbers out of their ranges.

ghost use Rattle.std.specs.Prelude.{◌≡◌};
ghost use Rattle.step_def.specs.Faults.{all_positive, course_check, directions_check, feature_positives, is_along_x, is_straight, is_upright, machining_of, made_by, operation_positives, placement_check, positives_check};

use crate::attributes::{
    Area, Coordinates, FeaturePart, Lookup, Machining, OperationPart, Placement, Quantity,
};
use crate::fault::DefFault;
use crate::ranges::ranges_check;
use crate::rectangle::area_of;

fn is_upright(d: &Coordinates) -> bool
    ensures { result ≡ is_upright d.now }
{
    d.x == 0 && d.y == 0 && d.z > 0
}

fn is_along_x(d: &Coordinates) -> bool
    ensures { result ≡ is_along_x d.now }
{
    d.x > 0 && d.y == 0 && d.z == 0
}

fn placement_check(placement: &Placement) -> Result<(), DefFault>
    ensures { result ≡ placement_check placement.now }
{
    if let Some(axis) = &placement.axis {
        if !is_upright(axis) {
            return Err(DefFault::BadDirection(axis.number));
        }
    }
    if let Some(reference) = &placement.reference {
        if !is_along_x(reference) {
            return Err(DefFault::BadDirection(reference.number));
        }
    }
    Ok(())
}

fn is_straight(d: &Coordinates) -> bool
    ensures { result ≡ is_straight d.now }
{
    d.z == 0 && (d.x == 0 && d.y != 0 || d.x != 0 && d.y == 0)
}

fn course_check(feature: &FeaturePart) -> Result<(), DefFault>
    ensures { result ≡ course_check feature.now }
{
    match feature {
        FeaturePart::Face(face) if !is_straight(&face.course) => {
            Err(DefFault::BadDirection(face.course.number))
        }
        _ => Ok(()),
    }
}

#[tactic(auto, unfolding(crate::specs::Faults::directions_check))]
fn directions_check(lookup: &Lookup) -> Result<(), DefFault>
    ensures { result ≡ directions_check lookup.now }
{
    placement_check(&lookup.security)?;
    placement_check(&lookup.placement)?;
    placement_check(&lookup.floor)?;
    course_check(&lookup.feature_part)
}

fn made_by(lookup: &Lookup) -> Result<Machining, DefFault>
    ensures { result ≡ made_by lookup.now lookup.now.feature_part lookup.now.operation_part }
{
    match (&lookup.feature_part, &lookup.operation_part) {
        (FeaturePart::Hole { diameter }, OperationPart::Drilling { dwell }) => Ok(
            Machining::DrillHole {
                diameter: *diameter,
                dwell: *dwell,
            },
        ),
        (FeaturePart::Face(face), OperationPart::Facing(cut)) => Ok(Machining::MillFace {
            face: *face,
            cut: *cut,
        }),
        (FeaturePart::Hollow { outline }, OperationPart::Pocketing(cut)) => Ok(
            Machining::MillPocket {
                area: area_of(outline)?,
                cut: *cut,
            },
        ),
        _ => Err(DefFault::Mismatch(lookup.operation, lookup.feature)),
    }
}

fn all_positive(figures: &[Option<Quantity>]) -> Result<(), DefFault>
    ensures { result ≡ all_positive figures.now }
{
    for quantity in figures {
        if let Some(x) = quantity {
            if x.value <= 0 {
                return Err(DefFault::NotPositive(x.number, x.position));
            }
        }
    }
    Ok(())
}

fn feature_positives_check(machining: &Machining) -> Result<(), DefFault>
    ensures { result ≡ all_positive (feature_positives machining.now) }
{
    match machining {
        Machining::DrillHole { diameter, .. } => all_positive(&[Some(*diameter)]),
        Machining::MillFace { face, .. } => all_positive(&[Some(face.length), Some(face.width)]),
        Machining::MillPocket {
            area: Area::Centred { length, width },
            ..
        } => all_positive(&[Some(*length), Some(*width)]),
        Machining::MillPocket {
            area: Area::Cornered(_),
            ..
        } => Ok(()),
    }
}

fn operation_positives_check(machining: &Machining) -> Result<(), DefFault>
    ensures { result ≡ all_positive (operation_positives machining.now) }
{
    match machining {
        Machining::DrillHole { .. } => Ok(()),
        Machining::MillFace { cut, .. } => all_positive(&[Some(cut.diameter), cut.axial]),
        Machining::MillPocket { cut, .. } => all_positive(&[
            Some(cut.diameter),
            cut.axial,
            cut.radial,
        ]),
    }
}

#[tactic(auto, unfolding(crate::specs::Faults::positives_check))]
fn positives_check(lookup: &Lookup, machining: &Machining) -> Result<(), DefFault>
    ensures { result ≡ positives_check lookup.now machining.now }
{
    if lookup.floor.point.z >= 0 {
        return Err(DefFault::NotPositive(lookup.feature, 5));
    }
    feature_positives_check(machining)?;
    if lookup.technology.feed.value <= 0 {
        return Err(DefFault::NotPositive(
            lookup.technology.feed.number,
            lookup.technology.feed.position,
        ));
    }
    operation_positives_check(machining)
}

#[tactic(auto, unfolding(crate::specs::Faults::machining_of))]
pub(crate) fn machining_of(lookup: &Lookup) -> Result<Machining, DefFault>
    ensures { result ≡ machining_of lookup.now }
{
    if lookup.has_toolpath {
        return Err(DefFault::HasToolpath(lookup.operation));
    }
    directions_check(lookup)?;
    let machining = made_by(lookup)?;
    positives_check(lookup, &machining)?;
    ranges_check(lookup, &machining)?;
    Ok(machining)
}
