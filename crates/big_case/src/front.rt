//! The instances that all workingsteps share.

ghost use Rattle.std.specs.Prelude.{◌≡◌, ◌≤◌, [], ◌∷◌, IfOk, OnOk, codes};
ghost use Rattle.p21_parse.specs.Tree.{reference, trees};
ghost use Rattle.p21_parse.specs.View.{trees_of};
ghost use Rattle.big_case.specs.Parameters.{instance, text as words, references as refers, unset, real as number};
ghost use Rattle.big_case.specs.Project.{opening, marks, security, tooling, front};
ghost use Rattle.big_case.specs.declared.workplans.TheConstants.{MAX_STEPS};
ghost use Rattle.big_case.specs.Adds.{Adds};

use crate::params::{put, put_listed, put_placement, put_plane, real, references, text};
use crate::workplans::put_workplans;
use nc_base::{NoMemory, Number};
use p21_parse::{InstanceList, Param, ParamList};
use std::alloc::Global;

/// Puts an instance that has a name alone.
fn put_named(
    alloc: Global,
    items: &mut InstanceList,
    n: Number,
    keyword: &[u8],
    name: &[u8],
) -> Result<(), NoMemory>
    ensures { OnOk result (Adds (instance n keyword.now (words name.now ∷ []) ∷ []) items.old items.new) }
{
    let mut params = ParamList::with_capacity(alloc, 1)?;
    params.push(text(alloc, name)?)?;
    put(alloc, items, n, keyword, params)
}

/// Puts an instance that has a name and refers to another.
fn put_referring(
    alloc: Global,
    items: &mut InstanceList,
    n: Number,
    keyword: &[u8],
    name: &[u8],
    to: Number,
) -> Result<(), NoMemory>
    ensures { OnOk result (Adds (instance n keyword.now (words name.now ∷ reference to ∷ []) ∷ []) items.old items.new) }
{
    let mut params = ParamList::with_capacity(alloc, 2)?;
    params.push(text(alloc, name)?)?;
    params.push(Param::Reference(to))?;
    put(alloc, items, n, keyword, params)
}

/// Puts the main workplan, whose only element is the parallel.
fn put_main(alloc: Global, items: &mut InstanceList) -> Result<(), NoMemory>
    ensures { OnOk result (Adds (instance 5 (codes "WORKPLAN") (words (codes "main") ∷ refers (6 ∷ []) ∷ unset ∷ []) ∷ []) items.old items.new) }
{
    let mut params = ParamList::with_capacity(alloc, 3)?;
    params.push(text(alloc, b"main")?)?;
    params.push(references(alloc, &[6])?)?;
    params.push(Param::Unset)?;
    put(alloc, items, 5, b"WORKPLAN", params)
}

/// Puts the parallel of the three workplans.
fn put_parallel(alloc: Global, items: &mut InstanceList) -> Result<(), NoMemory>
    ensures { OnOk result (Adds (instance 6 (codes "PARALLEL") (words (codes "p") ∷ refers (7 ∷ 8 ∷ 9 ∷ []) ∷ []) ∷ []) items.old items.new) }
{
    let mut params = ParamList::with_capacity(alloc, 2)?;
    params.push(text(alloc, b"p")?)?;
    params.push(references(alloc, &[7, 8, 9])?)?;
    put(alloc, items, 6, b"PARALLEL", params)
}

/// Puts the channels, the project, its main workplan and the parallel.
fn put_opening(alloc: Global, items: &mut InstanceList) -> Result<(), NoMemory>
    ensures { OnOk result (Adds opening items.old items.new) }
{
    put_named(alloc, items, 1, b"CHANNEL", b"0")?;
    put_named(alloc, items, 2, b"CHANNEL", b"1")?;
    put_named(alloc, items, 3, b"CHANNEL", b"2")?;
    put_referring(alloc, items, 4, b"PROJECT", b"big", 5)?;
    put_main(alloc, items)?;
    put_parallel(alloc, items)?;
    Ok(())
}

/// Puts the marks and the waits for them.
fn put_marks(alloc: Global, items: &mut InstanceList) -> Result<(), NoMemory>
    ensures { OnOk result (Adds marks items.old items.new) }
{
    put_named(alloc, items, 10, b"SET_MARK", b"m")?;
    put_named(alloc, items, 11, b"SET_MARK", b"m")?;
    put_referring(alloc, items, 12, b"WAIT_FOR_MARK", b"m", 10)?;
    put_referring(alloc, items, 13, b"WAIT_FOR_MARK", b"m", 11)?;
    Ok(())
}

/// The coordinates of a point of the security plane.
fn security_point(alloc: Global) -> Result<ParamList, NoMemory>
    ensures { IfOk result (λ params. trees_of params ≡ trees (number (codes "0.") ∷ number (codes "0.") ∷ number (codes "30.") ∷ [])) }
{
    let mut params = ParamList::new(alloc);
    params.push(real(alloc, b"0.")?)?;
    params.push(real(alloc, b"0.")?)?;
    params.push(real(alloc, b"30.")?)?;
    Ok(params)
}

/// Puts the security plane.
fn put_security(alloc: Global, items: &mut InstanceList) -> Result<(), NoMemory>
    ensures { OnOk result (Adds security items.old items.new) }
{
    put_plane(alloc, items, 20, 21)?;
    put_placement(alloc, items, 21, 22)?;
    let at = security_point(alloc)?;
    put_listed(alloc, items, 22, b"CARTESIAN_POINT", at)?;
    Ok(())
}

/// Puts the technology: a feed of 0.04 and a spindle speed of 20.
fn put_technology(alloc: Global, items: &mut InstanceList) -> Result<(), NoMemory>
    ensures { OnOk result (Adds (instance 33 (codes "MILLING_TECHNOLOGY") (number (codes "0.04") ∷ unset ∷ unset ∷ number (codes "20.") ∷ []) ∷ []) items.old items.new) }
{
    let mut params = ParamList::with_capacity(alloc, 4)?;
    params.push(real(alloc, b"0.04")?)?;
    params.push(Param::Unset)?;
    params.push(Param::Unset)?;
    params.push(real(alloc, b"20.")?)?;
    put(alloc, items, 33, b"MILLING_TECHNOLOGY", params)
}

/// Puts the body of the tool: an end mill.
fn put_body(alloc: Global, items: &mut InstanceList) -> Result<(), NoMemory>
    ensures { OnOk result (Adds (instance 31 (codes "ENDMILL") (reference 32 ∷ []) ∷ []) items.old items.new) }
{
    let mut params = ParamList::with_capacity(alloc, 1)?;
    params.push(Param::Reference(32))?;
    put(alloc, items, 31, b"ENDMILL", params)
}

/// Puts the dimension of the tool: a diameter of 10.
fn put_dimension(alloc: Global, items: &mut InstanceList) -> Result<(), NoMemory>
    ensures { OnOk result (Adds (instance 32 (codes "MILLING_TOOL_DIMENSION") (number (codes "10.") ∷ []) ∷ []) items.old items.new) }
{
    let mut params = ParamList::with_capacity(alloc, 1)?;
    params.push(real(alloc, b"10.")?)?;
    put(alloc, items, 32, b"MILLING_TOOL_DIMENSION", params)
}

/// Puts the tool and the technology.
fn put_tooling(alloc: Global, items: &mut InstanceList) -> Result<(), NoMemory>
    ensures { OnOk result (Adds tooling items.old items.new) }
{
    put_referring(alloc, items, 30, b"MILLING_CUTTING_TOOL", b"t", 31)?;
    put_body(alloc, items)?;
    put_dimension(alloc, items)?;
    put_technology(alloc, items)?;
    Ok(())
}

/// Puts all instances before those of the workingsteps.
pub fn put_front(alloc: Global, items: &mut InstanceList, steps: u32) -> Result<(), NoMemory>
    requires { steps ≤ MAX_STEPS }
    ensures { OnOk result (Adds (front steps) items.old items.new) }
{
    put_opening(alloc, items)?;
    put_workplans(alloc, items, steps)?;
    put_marks(alloc, items)?;
    put_security(alloc, items)?;
    put_tooling(alloc, items)?;
    Ok(())
}
