//! The instances of a workingstep.

ghost use Rattle.std.specs.Prelude.{◌≡◌, ◌+◌, ◌≤◌, [], ◌∷◌, IfOk, OnOk, codes};
ghost use Rattle.nc_base.specs.declared.numbers.TheConstants.{MAX_NUMBER};
ghost use Rattle.p21_parse.specs.Tree.{reference, trees};
ghost use Rattle.p21_parse.specs.View.{trees_of};
ghost use Rattle.big_case.specs.Parameters.{instance, list_of as listed, real as number, text as words, whole as digits, minus, unset, point, placement, plane};
ghost use Rattle.big_case.specs.Project.{workingstep, depth_point, geometry, extent, step_instances};
ghost use Rattle.big_case.specs.Adds.{Adds};
ghost use Rattle.big_case.specs.declared.step.Kind.TheVariants.{Pocket, Face};

use crate::operations::{put_feature, put_operation};
use crate::params::{minus, put, put_listed, put_placement, put_plane, real, text, whole};
use crate::step::{Kind, Step};
use nc_base::{NoMemory, Number};
use p21_parse::{InstanceList, Param, ParamList};
use std::alloc::Global;

/// Puts the workingstep itself.
fn put_workingstep(alloc: Global, items: &mut InstanceList, n: Number) -> Result<(), NoMemory>
    requires { n + 10 ≤ MAX_NUMBER }
    ensures { OnOk result (Adds (workingstep n ∷ []) items.old items.new) }
{
    let mut params = ParamList::with_capacity(alloc, 4)?;
    params.push(text(alloc, b"s")?)?;
    params.push(Param::Reference(20))?;
    params.push(Param::Reference(n + 1))?;
    params.push(Param::Reference(n + 2))?;
    put(alloc, items, n, b"MACHINING_WORKINGSTEP", params)
}

/// The coordinates of the place of a feature.
fn place_of(alloc: Global, step: Step) -> Result<ParamList, NoMemory>
    ensures { IfOk result (λ params. trees_of params ≡ trees (digits step.x ∷ digits step.y ∷ number (codes "0.") ∷ [])) }
{
    let mut params = ParamList::new(alloc);
    params.push(whole(alloc, step.x)?)?;
    params.push(whole(alloc, step.y)?)?;
    params.push(real(alloc, b"0.")?)?;
    Ok(params)
}

/// The coordinates of a point at a depth.
fn depth_of(alloc: Global, depth: u32) -> Result<ParamList, NoMemory>
    ensures { IfOk result (λ params. trees_of params ≡ trees (number (codes "0.") ∷ number (codes "0.") ∷ minus depth ∷ [])) }
{
    let mut params = ParamList::new(alloc);
    params.push(real(alloc, b"0.")?)?;
    params.push(real(alloc, b"0.")?)?;
    params.push(minus(alloc, depth)?)?;
    Ok(params)
}

/// Puts where a feature lies.
fn put_place(alloc: Global, items: &mut InstanceList, step: Step, n: Number) -> Result<(), NoMemory>
    requires { n + 10 ≤ MAX_NUMBER }
    ensures { OnOk result (Adds (placement (n + 3) (n + 4) ∷ point (n + 4) (digits step.x) (digits step.y) (number (codes "0.")) ∷ []) items.old items.new) }
{
    put_placement(alloc, items, n + 3, n + 4)?;
    let place = place_of(alloc, step)?;
    put_listed(alloc, items, n + 4, b"CARTESIAN_POINT", place)?;
    Ok(())
}

/// Puts how deep a feature is.
fn put_depth(alloc: Global, items: &mut InstanceList, depth: u32, n: Number) -> Result<(), NoMemory>
    requires { n + 10 ≤ MAX_NUMBER }
    ensures { OnOk result (Adds (plane (n + 5) (n + 6) ∷ placement (n + 6) (n + 7) ∷ depth_point (n + 7) depth ∷ []) items.old items.new) }
{
    put_plane(alloc, items, n + 5, n + 6)?;
    put_placement(alloc, items, n + 6, n + 7)?;
    let deepest = depth_of(alloc, depth)?;
    put_listed(alloc, items, n + 7, b"CARTESIAN_POINT", deepest)?;
    Ok(())
}

/// Puts where a feature lies, and how deep it is.
fn put_geometry(
    alloc: Global,
    items: &mut InstanceList,
    step: Step,
    n: Number,
) -> Result<(), NoMemory>
    requires { n + 10 ≤ MAX_NUMBER }
    ensures { OnOk result (Adds (geometry step n) items.old items.new) }
{
    put_place(alloc, items, step, n)?;
    put_depth(alloc, items, step.depth, n)?;
    Ok(())
}

/// Puts the profile of a pocket.
fn put_profile(alloc: Global, items: &mut InstanceList, n: Number) -> Result<(), NoMemory>
    requires { n + 10 ≤ MAX_NUMBER }
    ensures { OnOk result (Adds (extent Pocket n) items.old items.new) }
{
    let mut params = ParamList::with_capacity(alloc, 3)?;
    params.push(Param::Unset)?;
    params.push(real(alloc, b"40.")?)?;
    params.push(real(alloc, b"20.")?)?;
    put(alloc, items, n + 8, b"RECTANGULAR_CLOSED_PROFILE", params)
}

/// The ratios of the direction of the course of a face.
fn ratios(alloc: Global) -> Result<ParamList, NoMemory>
    ensures { IfOk result (λ params. trees_of params ≡ trees (number (codes "1.") ∷ number (codes "0.") ∷ number (codes "0.") ∷ [])) }
{
    let mut params = ParamList::new(alloc);
    params.push(real(alloc, b"1.")?)?;
    params.push(real(alloc, b"0.")?)?;
    params.push(real(alloc, b"0.")?)?;
    Ok(params)
}

/// Puts the direction of the course of a face.
fn put_direction(alloc: Global, items: &mut InstanceList, n: Number) -> Result<(), NoMemory>
    ensures { OnOk result (Adds (instance n (codes "DIRECTION") (words [] ∷ listed (number (codes "1.") ∷ number (codes "0.") ∷ number (codes "0.") ∷ []) ∷ []) ∷ []) items.old items.new) }
{
    let ratios = ratios(alloc)?;
    put_listed(alloc, items, n, b"DIRECTION", ratios)
}

/// Puts the course of a face.
fn put_course(alloc: Global, items: &mut InstanceList, n: Number) -> Result<(), NoMemory>
    requires { n + 10 ≤ MAX_NUMBER }
    ensures { OnOk result (Adds (instance (n + 8) (codes "LINEAR_PATH") (unset ∷ number (codes "100.") ∷ reference (n + 10) ∷ []) ∷ []) items.old items.new) }
{
    let mut params = ParamList::with_capacity(alloc, 3)?;
    params.push(Param::Unset)?;
    params.push(real(alloc, b"100.")?)?;
    params.push(Param::Reference(n + 10))?;
    put(alloc, items, n + 8, b"LINEAR_PATH", params)
}

/// Puts how wide a face is.
fn put_width(alloc: Global, items: &mut InstanceList, n: Number) -> Result<(), NoMemory>
    ensures { OnOk result (Adds (instance n (codes "LINEAR_PROFILE") (unset ∷ number (codes "50.") ∷ []) ∷ []) items.old items.new) }
{
    let mut params = ParamList::with_capacity(alloc, 2)?;
    params.push(Param::Unset)?;
    params.push(real(alloc, b"50.")?)?;
    put(alloc, items, n, b"LINEAR_PROFILE", params)
}

/// Puts the course of a face, its width and its direction.
fn put_area(alloc: Global, items: &mut InstanceList, n: Number) -> Result<(), NoMemory>
    requires { n + 10 ≤ MAX_NUMBER }
    ensures { OnOk result (Adds (extent Face n) items.old items.new) }
{
    put_course(alloc, items, n)?;
    put_width(alloc, items, n + 9)?;
    put_direction(alloc, items, n + 10)?;
    Ok(())
}

/// Puts how large a pocket or a face is.
fn put_extent(
    alloc: Global,
    items: &mut InstanceList,
    kind: Kind,
    n: Number,
) -> Result<(), NoMemory>
    requires { n + 10 ≤ MAX_NUMBER }
    ensures { OnOk result (Adds (extent kind n) items.old items.new) }
{
    match kind {
        Kind::Hole => Ok(()),
        Kind::Pocket => put_profile(alloc, items, n),
        Kind::Face => put_area(alloc, items, n),
    }
}

/// Puts all instances of a workingstep, which have the numbers from `n` on.
pub fn put_step(
    alloc: Global,
    items: &mut InstanceList,
    step: Step,
    n: Number,
) -> Result<(), NoMemory>
    requires { n + 10 ≤ MAX_NUMBER }
    ensures { OnOk result (Adds (step_instances step n) items.old items.new) }
{
    put_workingstep(alloc, items, n)?;
    put_feature(alloc, items, step.kind, n)?;
    put_operation(alloc, items, step.kind, n)?;
    put_geometry(alloc, items, step, n)?;
    put_extent(alloc, items, step.kind, n)?;
    Ok(())
}
