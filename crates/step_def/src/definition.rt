//! The definition of a workingstep.

ghost use Rattle.std.specs.Prelude.{◌≡◌, ◌+◌, ◌≤◌, pos, ◌+ℤ◌, ◌-ℤ◌, IsTrue, Ok};
ghost use Rattle.path_blocks.specs.Numbers.{numbers_of};
ghost use Rattle.path_blocks.specs.declared.limits.TheConstants.{MAX_SIZE};
ghost use Rattle.step_def.specs.declared.ranges.TheConstants.{MAX_VALUE};
ghost use Rattle.step_def.specs.Steps.{Gives};
ghost use Rattle.step_def.specs.Faults.{depth_of, is_sized, machining_of};
ghost use Rattle.step_def.specs.Numbers.{allowance_of, axial_of, few_blocks, inset_of, numbers_at, numbers_with, or_else, radial_of, retract_height, shape_of, sign_of, step_of};
ghost use Rattle.step_def.specs.Facts.{Facts, IfBetween, PlaceFacts, PocketFacts};
ghost use Rattle.step_def.specs.Condition.{is_workingstep};
ghost use Rattle.step_def.specs.DefOf.{def_of};

use crate::attributes::{Area, FaceCut, Lookup, Machining, PocketCut, Quantity};
use crate::check::machining_of;
use crate::fault::DefFault;
use crate::lookup::lookup_of;
use crate::rectangle::{has_room, rectangle_of, shrunk};
use crate::reference::is_of;
use entity_types::Class;
use nc_base::{Number, Steps};
use path_blocks::{Def, MAX_BLOCKS, Shape, block_count};
use project_store::Entities;
use std::sync::ledger::Ledger;

fn depth_of(lookup: &Lookup) -> i64
    requires { PlaceFacts lookup.now }
    ensures { result ≡ depth_of lookup.now }
{
    -lookup.floor.point.z
}

fn value_or(otherwise: i64, x: &Option<Quantity>) -> i64
    ensures { result ≡ or_else otherwise x.now }
{
    match x {
        Some(x) => x.value,
        None => otherwise,
    }
}

fn allowance_of(machining: &Machining) -> i64
    ensures { result ≡ allowance_of machining.now }
{
    match machining {
        Machining::DrillHole { .. } => 0,
        Machining::MillFace { cut, .. } => value_or(0, &cut.bottom),
        Machining::MillPocket { cut, .. } => value_or(0, &cut.bottom),
    }
}

fn bottom_of(lookup: &Lookup, machining: &Machining) -> i64
    requires { Facts lookup.now machining.now }
    ensures { result ≡ lookup.now.placement.point.z -ℤ depth_of lookup.now +ℤ allowance_of machining.now }
{
    lookup.placement.point.z + lookup.floor.point.z + allowance_of(machining)
}

fn axial_of(lookup: &Lookup, machining: &Machining) -> i64
    requires { PlaceFacts lookup.now }
    ensures { result ≡ axial_of lookup.now machining.now }
{
    match machining {
        Machining::DrillHole { .. } => depth_of(lookup),
        Machining::MillFace { cut, .. } => value_or(depth_of(lookup), &cut.axial),
        Machining::MillPocket { cut, .. } => value_or(depth_of(lookup), &cut.axial),
    }
}

fn retract_height(lookup: &Lookup) -> i64
    requires { PlaceFacts lookup.now }
    ensures { result ≡ retract_height lookup.now }
{
    match &lookup.technology.retract {
        Some(retract) => lookup.placement.point.z + retract.value,
        None => lookup.security.point.z,
    }
}

fn sign_of(z: i64) -> i64
    ensures { result ≡ sign_of z }
{
    if z == 0 {
        0
    } else if z > 0 {
        1
    } else {
        -1
    }
}

/// How far rows lie apart: what the overlap leaves of the tool's diameter.
fn step_of(cut: &FaceCut) -> i64
    requires diameter { IsTrue (is_sized cut.now.diameter.value) }
    requires overlap { IfBetween (pos 0) (pos 999) cut.now.strategy.overlap }
    ensures { result ≡ pos (step_of cut.now) }
{
    let overlap = value_or(0, &cut.strategy.overlap).unsigned_abs();
    (cut.diameter.value.unsigned_abs() * (1000 - overlap) / 1000).max(1) as i64
}

/// How far rings lie apart: half the tool's diameter where nothing else is given.
fn radial_of(cut: &PocketCut) -> i64
    requires { IsTrue (is_sized cut.now.diameter.value) }
    ensures { result ≡ radial_of cut.now }
{
    match &cut.radial {
        Some(radial) => radial.value,
        None => (cut.diameter.value.unsigned_abs() / 2).max(1) as i64,
    }
}

/// How far the middle of the tool stays from the sides.
fn inset_of(cut: &PocketCut) -> u64
    requires diameter { IsTrue (is_sized cut.now.diameter.value) }
    requires side { IfBetween (pos 0) MAX_VALUE cut.now.side }
    ensures exact { result ≡ inset_of cut.now }
    ensures short { result ≤ MAX_SIZE }
{
    (cut.diameter.value.unsigned_abs() + 1) / 2 + value_or(0, &cut.side).unsigned_abs()
}

/// The pocket that the middle of the tool keeps within.
fn pocket_of(lookup: &Lookup, area: &Area, cut: &PocketCut) -> Result<Shape, DefFault>
    requires place { PlaceFacts lookup.now }
    requires pocket { PocketFacts lookup.now area.now cut.now }
    ensures { result ≡ shape_of lookup.now (Machining.MillPocket area.now cut.now) }
{
    let sides = shrunk(&rectangle_of(lookup, area), inset_of(cut));
    if !has_room(&sides) {
        return Err(DefFault::ToolTooBig(lookup.technology.tool));
    }
    Ok(Shape::Pocket {
        left: sides.left,
        low: sides.low,
        right: sides.right,
        high: sides.high,
        radial: radial_of(cut),
    })
}

fn shape_of(lookup: &Lookup, machining: &Machining) -> Result<Shape, DefFault>
    requires { Facts lookup.now machining.now }
    ensures { result ≡ shape_of lookup.now machining.now }
{
    let x = lookup.placement.point.x;
    let y = lookup.placement.point.y;
    match machining {
        Machining::DrillHole { dwell, .. } => Ok(Shape::Drill {
            x,
            y,
            dwell: value_or(0, dwell),
        }),
        Machining::MillFace { face, cut } => Ok(Shape::Plane {
            x,
            y,
            ux: sign_of(face.course.x),
            uy: sign_of(face.course.y),
            length: face.length.value,
            width: face.width.value,
            step: step_of(cut),
            both: cut.strategy.both,
        }),
        Machining::MillPocket { area, cut } => pocket_of(lookup, area, cut),
    }
}

/// The definition with this shape, unless its path would have too many blocks.
fn def_with(
    n: Number,
    lookup: &Lookup,
    machining: &Machining,
    shape: &Shape,
) -> Result<Def, DefFault>
    requires machining { machining_of lookup.now ≡ Ok machining.now }
    requires shape { shape_of lookup.now machining.now ≡ Ok shape.now }
    ensures { Gives numbers_of result (few_blocks n (numbers_with lookup.now machining.now shape.now)) }
{
    let z0 = lookup.placement.point.z;
    let bottom = bottom_of(lookup, machining);
    let axial = axial_of(lookup, machining);
    let count = block_count(z0, bottom, axial, shape);
    if count > MAX_BLOCKS {
        return Err(DefFault::TooManyBlocks(n, count));
    }
    Ok(Def {
        tool: lookup.technology.tool,
        spindle: lookup.technology.spindle.value,
        feed: lookup.technology.feed.value,
        sec: lookup.security.point.z,
        ret: retract_height(lookup),
        z0,
        bottom,
        axial,
        shape: *shape,
    })
}

#[tactic(auto, unfolding(crate::specs::Numbers::numbers_at))]
fn checked<E: Entities>(from: &E, n: Number) -> Result<Def, DefFault>
    ensures { Gives numbers_of result (numbers_at (E.entities from.now) n) }
{
    let Some(step) = from.get(n) else {
        return Err(DefFault::Missing(n, 3));
    };
    let lookup = lookup_of(from, n, step)?;
    let machining = machining_of(&lookup)?;
    let shape = shape_of(&lookup, &machining)?;
    def_with(n, &lookup, &machining, &shape)
}

/// Whether `n` is a workingstep, as `resolve` demands.
pub fn is_workingstep<E: Entities>(from: &E, n: Number) -> bool
    ensures { result ≡ is_workingstep (E.entities from.now) n }
{
    match from.get(n) {
        Some(step) => is_of(Class::MachiningWorkingstep, step),
        None => false,
    }
}

/// The definition of workingstep `n`: the numbers that its path depends on. It counts one step and takes no memory. The definition
/// follows this profile's table of look-ups after ISO 14649-10 and ISO 14649-11.
///
/// # Errors
/// The first fault, in the order of `DefFault`, and of one kind the first in the order in which the instances are looked up.
pub fn resolve<E: Entities, L: Ledger>(
    from: &E,
    n: Number,
    steps: &mut Steps<L>,
) -> Result<Def, DefFault>
    requires { IsTrue (is_workingstep (E.entities from.now) n) }
    ensures exact { result ≡ def_of (E.entities from.now) n }
    ensures ticked { steps.new ≡ steps.old + 1 }
{
    steps.tick();
    checked(from, n)
}
