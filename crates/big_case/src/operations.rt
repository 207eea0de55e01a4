//! Features and operations.

ghost use Rattle.std.specs.Prelude.{◌≡◌, ◌+◌, ◌≤◌, [], ◌∷◌, ◌++◌, IfOk, OnOk, codes};
ghost use Rattle.p21_parse.specs.Tree.{trees};
ghost use Rattle.p21_parse.specs.View.{trees_of};
ghost use Rattle.nc_base.specs.declared.numbers.TheConstants.{MAX_NUMBER};
ghost use Rattle.big_case.specs.declared.step.Kind.TheVariants.{Hole, Pocket, Face};
ghost use Rattle.big_case.specs.Project.{feature, feature_front, operation, operation_front};
ghost use Rattle.big_case.specs.Adds.{Adds};
ghost use Rattle.big_case.specs.Parameters.{unset as nothing, real as number};

use crate::params::{empty_list, put, real, text};
use crate::step::Kind;
use nc_base::{NoMemory, Number};
use p21_parse::{InstanceList, Param, ParamList};
use std::alloc::Global;

/// What every feature has.
fn feature_front(alloc: Global, n: Number) -> Result<ParamList, NoMemory>
    requires { n + 10 ≤ MAX_NUMBER }
    ensures { IfOk result (λ params. trees_of params ≡ trees (feature_front n)) }
{
    let mut params = ParamList::new(alloc);
    params.push(text(alloc, b"f")?)?;
    params.push(Param::Unset)?;
    params.push(empty_list(alloc))?;
    params.push(Param::Reference(n + 3))?;
    params.push(Param::Reference(n + 5))?;
    Ok(params)
}

/// Puts a hole of diameter 10.
fn put_hole(alloc: Global, items: &mut InstanceList, n: Number) -> Result<(), NoMemory>
    requires { n + 10 ≤ MAX_NUMBER }
    ensures { OnOk result (Adds (feature Hole n ∷ []) items.old items.new) }
{
    let mut params = feature_front(alloc, n)?;
    params.push(real(alloc, b"10.")?)?;
    put(alloc, items, n + 1, b"ROUND_HOLE", params)
}

/// Puts a pocket.
fn put_pocket(alloc: Global, items: &mut InstanceList, n: Number) -> Result<(), NoMemory>
    requires { n + 10 ≤ MAX_NUMBER }
    ensures { OnOk result (Adds (feature Pocket n ∷ []) items.old items.new) }
{
    let mut params = feature_front(alloc, n)?;
    params.push(empty_list(alloc))?;
    params.push(Param::Unset)?;
    params.push(Param::Unset)?;
    params.push(Param::Unset)?;
    params.push(Param::Unset)?;
    params.push(Param::Reference(n + 8))?;
    put(alloc, items, n + 1, b"CLOSED_POCKET", params)
}

/// Puts a face.
fn put_face(alloc: Global, items: &mut InstanceList, n: Number) -> Result<(), NoMemory>
    requires { n + 10 ≤ MAX_NUMBER }
    ensures { OnOk result (Adds (feature Face n ∷ []) items.old items.new) }
{
    let mut params = feature_front(alloc, n)?;
    params.push(Param::Reference(n + 8))?;
    params.push(Param::Reference(n + 9))?;
    put(alloc, items, n + 1, b"PLANAR_FACE", params)
}

/// Puts the feature of a workingstep.
pub fn put_feature(
    alloc: Global,
    items: &mut InstanceList,
    kind: Kind,
    n: Number,
) -> Result<(), NoMemory>
    requires { n + 10 ≤ MAX_NUMBER }
    ensures { OnOk result (Adds (feature kind n ∷ []) items.old items.new) }
{
    match kind {
        Kind::Hole => put_hole(alloc, items, n),
        Kind::Pocket => put_pocket(alloc, items, n),
        Kind::Face => put_face(alloc, items, n),
    }
}

/// What every operation has.
fn operation_front(alloc: Global) -> Result<ParamList, NoMemory>
    ensures { IfOk result (λ params. trees_of params ≡ trees operation_front) }
{
    let mut params = ParamList::new(alloc);
    params.push(Param::Unset)?;
    params.push(Param::Unset)?;
    params.push(text(alloc, b"o")?)?;
    params.push(real(alloc, b"5.")?)?;
    params.push(Param::Unset)?;
    params.push(Param::Reference(30))?;
    params.push(Param::Reference(33))?;
    Ok(params)
}

/// The same of an operation that mills, up to its axial depth.
fn milling_front(alloc: Global) -> Result<ParamList, NoMemory>
    ensures { IfOk result (λ params. trees_of params ≡ trees (operation_front ++ nothing ∷ nothing ∷ nothing ∷ nothing ∷ nothing ∷ number (codes "5.") ∷ [])) }
{
    let mut params = operation_front(alloc)?;
    params.push(Param::Unset)?;
    params.push(Param::Unset)?;
    params.push(Param::Unset)?;
    params.push(Param::Unset)?;
    params.push(Param::Unset)?;
    params.push(real(alloc, b"5.")?)?;
    Ok(params)
}

/// Puts a drilling.
fn put_drilling(alloc: Global, items: &mut InstanceList, n: Number) -> Result<(), NoMemory>
    requires { n + 10 ≤ MAX_NUMBER }
    ensures { OnOk result (Adds (operation Hole n ∷ []) items.old items.new) }
{
    let params = operation_front(alloc)?;
    put(alloc, items, n + 2, b"DRILLING", params)
}

/// Puts the milling of a pocket.
fn put_pocket_milling(alloc: Global, items: &mut InstanceList, n: Number) -> Result<(), NoMemory>
    requires { n + 10 ≤ MAX_NUMBER }
    ensures { OnOk result (Adds (operation Pocket n ∷ []) items.old items.new) }
{
    let mut params = milling_front(alloc)?;
    params.push(real(alloc, b"4.")?)?;
    params.push(Param::Unset)?;
    params.push(Param::Unset)?;
    put(
        alloc,
        items,
        n + 2,
        b"BOTTOM_AND_SIDE_ROUGH_MILLING",
        params,
    )
}

/// Puts the milling of a face.
fn put_face_milling(alloc: Global, items: &mut InstanceList, n: Number) -> Result<(), NoMemory>
    requires { n + 10 ≤ MAX_NUMBER }
    ensures { OnOk result (Adds (operation Face n ∷ []) items.old items.new) }
{
    let mut params = milling_front(alloc)?;
    params.push(Param::Unset)?;
    put(alloc, items, n + 2, b"PLANE_ROUGH_MILLING", params)
}

/// Puts the operation of a workingstep.
pub fn put_operation(
    alloc: Global,
    items: &mut InstanceList,
    kind: Kind,
    n: Number,
) -> Result<(), NoMemory>
    requires { n + 10 ≤ MAX_NUMBER }
    ensures { OnOk result (Adds (operation kind n ∷ []) items.old items.new) }
{
    match kind {
        Kind::Hole => put_drilling(alloc, items, n),
        Kind::Pocket => put_pocket_milling(alloc, items, n),
        Kind::Face => put_face_milling(alloc, items, n),
    }
}
