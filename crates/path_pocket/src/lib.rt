//! The path of a rectangular pocket: the blocks that its definition stands for, and where the rings of a pocket lie. The tests stand
//! in the crate path_tests.
#![tactic(auto)]

ghost use Rattle.std.specs.Prelude.{◌≡◌, ◌≤◌, ◌∷◌, [], ◌++◌, All, IfOk, IsTrue, OnOk};
ghost use Rattle.std.specs.List.{flat_map};
ghost use Rattle.path_blocks.specs.Kind.{is_pocket};
ghost use Rattle.path_blocks.specs.Numbers.{levels, numbers_of};
ghost use Rattle.path_blocks.specs.Path.{path_of};
ghost use Rattle.path_blocks.specs.PathPocket.{innermost, path_pocket, pocket_level, rapid_over, rings, round};
ghost use Rattle.path_blocks.specs.WithinPocket.{StaysWithin};
ghost use Rattle.path_pocket.specs.Inset.{rectangle_between, rectangle_of};

mod inset;

pub use inset::{Corners, Inset};
use nc_base::NoMemory;
use path_blocks::{Block, Def, Plan};
use std::alloc::Global;

/// Puts a rapid move to the lower left of a rectangle at the height `z`.
fn push_rapid(blocks: &mut Vec<Block>, corners: &Corners, z: i64) -> Result<(), NoMemory>
    ensures { OnOk result (blocks.new.items ≡ blocks.old.items ++ rapid_over z (rectangle_between corners.now) ∷ []) }
{
    blocks.push(Block::Rapid {
        x: corners.left,
        y: corners.low,
        z,
    })?;
    Ok(())
}

/// Puts a feed to a point.
fn push_feed(blocks: &mut Vec<Block>, x: i64, y: i64, z: i64, f: i64) -> Result<(), NoMemory>
    ensures { OnOk result (blocks.new.items ≡ blocks.old.items ++ Block.Feed x y z f ∷ []) }
{
    blocks.push(Block::Feed { x, y, z, f })?;
    Ok(())
}

/// Puts once round a rectangle: lower left, lower right, upper right, upper left, lower left.
fn push_round(blocks: &mut Vec<Block>, def: &Def, corners: &Corners, z: i64) -> Result<(), NoMemory>
    ensures { OnOk result (blocks.new.items ≡ blocks.old.items ++ round (numbers_of def.now) z (rectangle_between corners.now)) }
{
    push_feed(blocks, corners.left, corners.low, z, def.feed)?;
    push_feed(blocks, corners.right, corners.low, z, def.feed)?;
    push_feed(blocks, corners.right, corners.high, z, def.feed)?;
    push_feed(blocks, corners.left, corners.high, z, def.feed)?;
    push_feed(blocks, corners.left, corners.low, z, def.feed)?;
    Ok(())
}

/// Puts the rings of a level, from the inside out.
fn push_rings(blocks: &mut Vec<Block>, def: &Def, inset: &Inset, z: i64) -> Result<(), NoMemory>
    ensures { OnOk result (blocks.new.items ≡ blocks.old.items ++ rings (numbers_of def.now) (rectangle_of inset.now) inset.now.radial z) }
{
    for number in (0..inset.innermost() + 1).rev() {
        push_round(blocks, def, &inset.ring(number), z)?;
    }
    Ok(())
}

/// Puts a level: down to the retract plane over the innermost ring, the rings from the inside out, and up to the retract plane.
fn push_level(blocks: &mut Vec<Block>, def: &Def, inset: &Inset, z: i64) -> Result<(), NoMemory>
    ensures { OnOk result (blocks.new.items ≡ blocks.old.items ++ pocket_level (numbers_of def.now) (rectangle_of inset.now) inset.now.radial z) }
{
    push_rapid(blocks, &inset.ring(inset.innermost()), def.ret)?;
    push_rings(blocks, def, inset, z)?;
    push_rapid(blocks, &inset.corners(), def.ret)?;
    Ok(())
}

/// Puts all levels.
fn push_levels(blocks: &mut Vec<Block>, def: &Def, inset: &Inset) -> Result<(), NoMemory>
    ensures { OnOk result (blocks.new.items ≡ blocks.old.items ++ flat_map (pocket_level (numbers_of def.now) (rectangle_of inset.now) inset.now.radial) (levels (numbers_of def.now))) }
{
    for index in 0..def.level_count() {
        push_level(blocks, def, inset, def.level(index))?;
    }
    Ok(())
}

/// The blocks of a pocket.
fn blocks_of(alloc: Global, def: &Def, inset: &Inset) -> Result<Vec<Block>, NoMemory>
    ensures { IfOk result (λ blocks. blocks.items ≡ path_pocket (numbers_of def.now) (rectangle_of inset.now) inset.now.radial) }
{
    let mut blocks = Vec::with_capacity(alloc, def.count() as usize)?;
    blocks.push(Block::Tool {
        tool: def.tool,
        spindle: def.spindle,
    })?;
    push_rapid(&mut blocks, &inset.ring(inset.innermost()), def.sec)?;
    push_levels(&mut blocks, def, inset)?;
    push_rapid(&mut blocks, &inset.corners(), def.sec)?;
    Ok(blocks)
}

/// The path of a definition whose shape is a rectangular pocket: on each level rings from the inside out. Every feed stays within
/// the pocket's rectangle and goes no deeper than its bottom. The rule is this profile's.
///
/// # Errors
/// `NoMemory` where there is none for the blocks.
pub fn path(alloc: Global, def: &Def) -> Result<Plan, NoMemory>
    requires { IsTrue (is_pocket def.now.shape) }
    ensures exact { IfOk result (λ plan. plan ≡ def.now) }
    ensures within { IfOk result (λ plan. All (StaysWithin def.now.bottom def.now.shape) (path_of plan)) }
{
    Ok(Plan::new(*def, blocks_of(alloc, def, &Inset::of(def))?))
}
