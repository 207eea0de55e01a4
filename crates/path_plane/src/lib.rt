//! The path of a planar face: the blocks that its definition stands for, and where the rows of a face lie. The tests stand in the
//! crate path_tests.
#![tactic(auto)]

ghost use Rattle.std.specs.Prelude.{◌≡◌, ◌≤◌, ◌∷◌, [], ◌++◌, IfOk, IsTrue, OnOk};
ghost use Rattle.std.specs.List.{flat_map};
ghost use Rattle.path_blocks.specs.Kind.{is_plane};
ghost use Rattle.path_blocks.specs.Numbers.{levels, numbers_of};
ghost use Rattle.path_blocks.specs.declared.limits.TheConstants.{MAX_SIZE};
ghost use Rattle.path_blocks.specs.PathPlane.{feed_to, path_plane, plane_level, rapid_to, row, rows};
ghost use Rattle.path_plane.specs.Facing.{face_of};

mod facing;

pub use facing::Facing;
use nc_base::NoMemory;
use path_blocks::{Block, Def, Plan};
use std::alloc::Global;

/// Puts a rapid move to a point at the height `z`.
fn push_rapid(blocks: &mut Vec<Block>, point: (i64, i64), z: i64) -> Result<(), NoMemory>
    ensures { OnOk result (blocks.new.items ≡ blocks.old.items ++ rapid_to z point ∷ []) }
{
    let (x, y) = point;
    blocks.push(Block::Rapid { x, y, z })?;
    Ok(())
}

/// Puts a feed to a point at the height `z`.
fn push_feed(blocks: &mut Vec<Block>, def: &Def, point: (i64, i64), z: i64) -> Result<(), NoMemory>
    ensures { OnOk result (blocks.new.items ≡ blocks.old.items ++ feed_to (numbers_of def.now) z point ∷ []) }
{
    let (x, y) = point;
    blocks.push(Block::Feed {
        x,
        y,
        z,
        f: def.feed,
    })?;
    Ok(())
}

/// Puts a row: a feed to its start and a feed to its end.
fn push_row(
    blocks: &mut Vec<Block>,
    def: &Def,
    facing: &Facing,
    z: i64,
    index: u64,
    offset: u64,
) -> Result<(), NoMemory>
    requires { offset ≤ MAX_SIZE }
    ensures { OnOk result (blocks.new.items ≡ blocks.old.items ++ row (numbers_of def.now) (face_of facing.now) z (index, offset)) }
{
    push_feed(blocks, def, facing.row_start(index, offset), z)?;
    push_feed(blocks, def, facing.row_end(index, offset), z)?;
    Ok(())
}

/// Puts the rows of a level.
fn push_rows(blocks: &mut Vec<Block>, def: &Def, facing: &Facing, z: i64) -> Result<(), NoMemory>
    ensures { OnOk result (blocks.new.items ≡ blocks.old.items ++ flat_map (row (numbers_of def.now) (face_of facing.now) z) (rows (face_of facing.now))) }
{
    for index in 0..facing.row_count() {
        push_row(blocks, def, facing, z, index, facing.offset(index))?;
    }
    Ok(())
}

/// Puts a level: down to the retract plane over the first row's start, the rows, and up to the retract plane.
fn push_level(blocks: &mut Vec<Block>, def: &Def, facing: &Facing, z: i64) -> Result<(), NoMemory>
    ensures { OnOk result (blocks.new.items ≡ blocks.old.items ++ plane_level (numbers_of def.now) (face_of facing.now) z) }
{
    push_rapid(blocks, facing.near_end(0), def.ret)?;
    push_rows(blocks, def, facing, z)?;
    push_rapid(blocks, facing.last_end(), def.ret)?;
    Ok(())
}

/// Puts all levels.
fn push_levels(blocks: &mut Vec<Block>, def: &Def, facing: &Facing) -> Result<(), NoMemory>
    ensures { OnOk result (blocks.new.items ≡ blocks.old.items ++ flat_map (plane_level (numbers_of def.now) (face_of facing.now)) (levels (numbers_of def.now))) }
{
    for index in 0..def.level_count() {
        push_level(blocks, def, facing, def.level(index))?;
    }
    Ok(())
}

/// The blocks of a face.
fn blocks_of(alloc: Global, def: &Def, facing: &Facing) -> Result<Vec<Block>, NoMemory>
    ensures { IfOk result (λ blocks. blocks.items ≡ path_plane (numbers_of def.now) (face_of facing.now)) }
{
    let mut blocks = Vec::with_capacity(alloc, def.count() as usize)?;
    blocks.push(Block::Tool {
        tool: def.tool,
        spindle: def.spindle,
    })?;
    push_rapid(&mut blocks, facing.near_end(0), def.sec)?;
    push_levels(&mut blocks, def, facing)?;
    push_rapid(&mut blocks, facing.last_end(), def.sec)?;
    Ok(blocks)
}

/// The path of a definition whose shape is a planar face: on each level parallel rows along the course, from the corner on across
/// the width, every second one run back where the face says so. The rule is this profile's.
///
/// # Errors
/// `NoMemory` where there is none for the blocks.
pub fn path(alloc: Global, def: &Def) -> Result<Plan, NoMemory>
    requires { IsTrue (is_plane def.now.shape) }
    ensures { IfOk result (λ plan. plan ≡ def.now) }
{
    Ok(Plan::new(*def, blocks_of(alloc, def, &Facing::of(def))?))
}
