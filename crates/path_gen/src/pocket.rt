//! The blocks of a rectangular pocket, by their index.

ghost use Rattle.std.specs.Prelude.{◌≡◌, ◌<◌, ◌+◌, ◌*◌, Some, length, slice_get};
ghost use Rattle.std.specs.List.{flat_map};
ghost use Rattle.path_blocks.specs.declared.block.Block.TheVariants.{Feed};
ghost use Rattle.path_blocks.specs.Numbers.{levels, numbers_of};
ghost use Rattle.path_blocks.specs.PathPocket.{innermost, path_pocket, pocket_level, rapid_over, rings, round};
ghost use Rattle.path_pocket.specs.Inset.{rectangle_between, rectangle_of};

use crate::tool::tool_block;
use path_blocks::{Block, Def};
use path_pocket::{Corners, Inset};

/// A rapid move to the lower left of a rectangle at the height `z`.
fn rapid(corners: &Corners, z: i64) -> Block
    ensures { result ≡ rapid_over z (rectangle_between corners.now) }
{
    Block::Rapid {
        x: corners.left,
        y: corners.low,
        z,
    }
}

/// A feed to a point.
fn feed(def: &Def, x: i64, y: i64, z: i64) -> Block
    ensures { result ≡ Feed x y z def.now.feed }
{
    Block::Feed {
        x,
        y,
        z,
        f: def.feed,
    }
}

/// One of the blocks once round a rectangle: lower left, lower right, upper right, upper left, lower left.
fn corner_block(def: &Def, corners: &Corners, z: i64, index: u64) -> Block
    requires { index < 5 }
    ensures { slice_get (round (numbers_of def.now) z (rectangle_between corners.now)) index ≡ Some result }
{
    match index {
        1 => feed(def, corners.right, corners.low, z),
        2 => feed(def, corners.right, corners.high, z),
        3 => feed(def, corners.left, corners.high, z),
        _ => feed(def, corners.left, corners.low, z),
    }
}

/// One of the blocks of the rings of a level, from the ring with the number `inner`, the innermost, out.
fn ring_block(def: &Def, inset: &Inset, z: i64, inner: u64, index: u64) -> Block
    requires inner { inner ≡ innermost (rectangle_of inset.now) inset.now.radial }
    requires index { index < (inner + 1) * 5 }
    ensures { slice_get (rings (numbers_of def.now) (rectangle_of inset.now) inset.now.radial z) index ≡ Some result }
{
    corner_block(def, &inset.ring(inner - index / 5), z, index % 5)
}

/// One of the blocks of a level: down to the retract plane over the innermost ring, the rings from the inside out, and up to the
/// retract plane.
fn level_block(def: &Def, inset: &Inset, z: i64, inner: u64, index: u64) -> Block
    requires inner { inner ≡ innermost (rectangle_of inset.now) inset.now.radial }
    requires index { index < 2 + 5 * (inner + 1) }
    ensures { slice_get (pocket_level (numbers_of def.now) (rectangle_of inset.now) inset.now.radial z) index ≡ Some result }
{
    if index == 0 {
        rapid(&inset.ring(inner), def.ret)
    } else if (index - 1) / 5 <= inner {
        ring_block(def, inset, z, inner, index - 1)
    } else {
        rapid(&inset.corners(), def.ret)
    }
}

/// One of the blocks of the levels.
fn levels_block(def: &Def, inset: &Inset, index: u64) -> Block
    requires { index < length (flat_map (pocket_level (numbers_of def.now) (rectangle_of inset.now) inset.now.radial) (levels (numbers_of def.now))) }
    ensures { slice_get (flat_map (pocket_level (numbers_of def.now) (rectangle_of inset.now) inset.now.radial) (levels (numbers_of def.now))) index ≡ Some result }
{
    let inner = inset.innermost();
    let each = 2 + 5 * (inner + 1);
    level_block(def, inset, def.level(index / each), inner, index % each)
}

/// The block with this index, counted from 0, of the path of a pocket. The last block has the index `last`.
pub(crate) fn block(def: &Def, inset: &Inset, last: u64, index: u64) -> Block
    requires counted { last + 1 ≡ length (path_pocket (numbers_of def.now) (rectangle_of inset.now) inset.now.radial) }
    requires index { index < last + 1 }
    ensures { slice_get (path_pocket (numbers_of def.now) (rectangle_of inset.now) inset.now.radial) index ≡ Some result }
{
    match index {
        0 => tool_block(def),
        1 => rapid(&inset.ring(inset.innermost()), def.sec),
        _ if index < last => levels_block(def, inset, index - 2),
        _ => rapid(&inset.corners(), def.sec),
    }
}
