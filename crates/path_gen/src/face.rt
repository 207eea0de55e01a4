//! The blocks of a planar face, by their index.

ghost use Rattle.std.specs.Prelude.{◌≡◌, ◌<◌, ◌≤◌, ◌+◌, ◌*◌, Some, length, slice_get};
ghost use Rattle.std.specs.List.{flat_map};
ghost use Rattle.path_blocks.specs.Numbers.{levels, numbers_of};
ghost use Rattle.path_blocks.specs.PathPlane.{feed_to, path_plane, plane_level, rapid_to, row, rows};
ghost use Rattle.path_blocks.specs.declared.limits.TheConstants.{MAX_SIZE};
ghost use Rattle.path_plane.specs.Facing.{face_of};

use crate::tool::tool_block;
use path_blocks::{Block, Def};
use path_plane::Facing;

/// A rapid move to a point at the height `z`.
fn rapid(point: (i64, i64), z: i64) -> Block
    ensures { result ≡ rapid_to z point }
{
    let (x, y) = point;
    Block::Rapid { x, y, z }
}

/// A feed to a point at the height `z`.
fn feed(def: &Def, point: (i64, i64), z: i64) -> Block
    ensures { result ≡ feed_to (numbers_of def.now) z point }
{
    let (x, y) = point;
    Block::Feed {
        x,
        y,
        z,
        f: def.feed,
    }
}

/// One of the two blocks of a row: to its start, and to its end.
fn end_block(def: &Def, facing: &Facing, z: i64, number: u64, offset: u64, index: u64) -> Block
    requires offset { offset ≤ MAX_SIZE }
    requires index { index < 2 }
    ensures { slice_get (row (numbers_of def.now) (face_of facing.now) z (number, offset)) index ≡ Some result }
{
    if index == 0 {
        feed(def, facing.row_start(number, offset), z)
    } else {
        feed(def, facing.row_end(number, offset), z)
    }
}

/// One of the blocks of the rows of a level.
fn row_block(def: &Def, facing: &Facing, z: i64, index: u64) -> Block
    requires { index < length (rows (face_of facing.now)) * 2 }
    ensures { slice_get (flat_map (row (numbers_of def.now) (face_of facing.now) z) (rows (face_of facing.now))) index ≡ Some result }
{
    let number = index / 2;
    end_block(def, facing, z, number, facing.offset(number), index % 2)
}

/// One of the blocks of a level with so many rows: down to the retract plane over the first row's start, the rows, and up to the
/// retract plane.
fn level_block(def: &Def, facing: &Facing, z: i64, row_count: u64, index: u64) -> Block
    requires counted { row_count ≡ length (rows (face_of facing.now)) }
    requires index { index < 2 + 2 * row_count }
    ensures { slice_get (plane_level (numbers_of def.now) (face_of facing.now) z) index ≡ Some result }
{
    if index == 0 {
        rapid(facing.near_end(0), def.ret)
    } else if (index - 1) / 2 < row_count {
        row_block(def, facing, z, index - 1)
    } else {
        rapid(facing.last_end(), def.ret)
    }
}

/// One of the blocks of the levels.
fn levels_block(def: &Def, facing: &Facing, index: u64) -> Block
    requires { index < length (flat_map (plane_level (numbers_of def.now) (face_of facing.now)) (levels (numbers_of def.now))) }
    ensures { slice_get (flat_map (plane_level (numbers_of def.now) (face_of facing.now)) (levels (numbers_of def.now))) index ≡ Some result }
{
    let row_count = facing.row_count();
    let each = 2 + 2 * row_count;
    level_block(
        def,
        facing,
        def.level(index / each),
        row_count,
        index % each,
    )
}

/// The block with this index, counted from 0, of the path of a face. The last block has the index `last`.
pub(crate) fn block(def: &Def, facing: &Facing, last: u64, index: u64) -> Block
    requires counted { last + 1 ≡ length (path_plane (numbers_of def.now) (face_of facing.now)) }
    requires index { index < last + 1 }
    ensures { slice_get (path_plane (numbers_of def.now) (face_of facing.now)) index ≡ Some result }
{
    match index {
        0 => tool_block(def),
        1 => rapid(facing.near_end(0), def.sec),
        _ if index < last => levels_block(def, facing, index - 2),
        _ => rapid(facing.last_end(), def.sec),
    }
}
