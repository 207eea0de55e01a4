//! The path of a drilled hole: the blocks that its definition stands for. The tests stand in the crate path_tests.
#![tactic(auto)]

ghost use Rattle.std.specs.Prelude.{◌≡◌, ◌++◌, All, IfOk, IsTrue, OnOk};
ghost use Rattle.path_blocks.specs.Kind.{is_drill};
ghost use Rattle.path_blocks.specs.Numbers.{numbers_of};
ghost use Rattle.path_blocks.specs.Path.{path_of};
ghost use Rattle.path_blocks.specs.PathDrill.{down_into, dwell_blocks, path_drill, up_from};
ghost use Rattle.path_drill.specs.OverHole.{StaysOver};

use nc_base::NoMemory;
use path_blocks::{Block, Def, Plan, Shape};
use std::alloc::Global;

/// Puts the dwell at the bottom, where there is one.
fn push_dwell(blocks: &mut Vec<Block>, dwell: i64) -> Result<(), NoMemory>
    ensures { OnOk result (blocks.new.items ≡ blocks.old.items ++ dwell_blocks dwell) }
{
    if dwell > 0 {
        blocks.push(Block::Dwell { ms: dwell })?;
    }
    Ok(())
}

/// Puts the tool, the move over the place and down to the retract plane, and the feed to the bottom.
fn push_down(blocks: &mut Vec<Block>, def: &Def, x: i64, y: i64) -> Result<(), NoMemory>
    ensures { OnOk result (blocks.new.items ≡ blocks.old.items ++ down_into (numbers_of def.now) x y) }
{
    blocks.push(Block::Tool {
        tool: def.tool,
        spindle: def.spindle,
    })?;
    blocks.push(Block::Rapid { x, y, z: def.sec })?;
    blocks.push(Block::Rapid { x, y, z: def.ret })?;
    blocks.push(Block::Feed {
        x,
        y,
        z: def.bottom,
        f: def.feed,
    })?;
    Ok(())
}

/// Puts the moves back up to the retract plane and to the security plane.
fn push_up(blocks: &mut Vec<Block>, def: &Def, x: i64, y: i64) -> Result<(), NoMemory>
    ensures { OnOk result (blocks.new.items ≡ blocks.old.items ++ up_from (numbers_of def.now) x y) }
{
    blocks.push(Block::Rapid { x, y, z: def.ret })?;
    blocks.push(Block::Rapid { x, y, z: def.sec })?;
    Ok(())
}

/// The blocks of a hole at x and y.
fn blocks_of(alloc: Global, def: &Def, x: i64, y: i64, dwell: i64) -> Result<Vec<Block>, NoMemory>
    ensures { IfOk result (λ blocks. blocks.items ≡ path_drill (numbers_of def.now) x y dwell) }
{
    let mut blocks = Vec::with_capacity(alloc, def.count() as usize)?;
    push_down(&mut blocks, def, x, y)?;
    push_dwell(&mut blocks, dwell)?;
    push_up(&mut blocks, def, x, y)?;
    Ok(blocks)
}

/// The path of a definition whose shape is a drilled hole: over the place, down to the retract plane, feed to the bottom,
/// dwell there if the definition says so, and back up. Every move stays over the hole's place, and no feed goes below its bottom.
/// The rule is this profile's.
///
/// # Errors
/// `NoMemory` where there is none for the blocks.
pub fn path(alloc: Global, def: &Def) -> Result<Plan, NoMemory>
    requires { IsTrue (is_drill def.now.shape) }
    ensures exact { IfOk result (λ plan. plan ≡ def.now) }
    ensures over { IfOk result (λ plan. All (StaysOver def.now.bottom def.now.shape) (path_of plan)) }
{
    match def.shape {
        Shape::Drill { x, y, dwell } => Ok(Plan::new(*def, blocks_of(alloc, def, x, y, dwell)?)),
        Shape::Plane { .. } | Shape::Pocket { .. } => unreachable!(),
    }
}
