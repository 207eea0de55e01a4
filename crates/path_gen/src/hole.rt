//! The blocks of a drilled hole, by their index.

ghost use Rattle.std.specs.Prelude.{◌≡◌, ◌<◌, ◌++◌, Some, length, slice_get};
ghost use Rattle.path_blocks.specs.Numbers.{numbers_of};
ghost use Rattle.path_blocks.specs.PathDrill.{dwell_blocks, path_drill, up_from};

use crate::tool::tool_block;
use path_blocks::{Block, Def};

/// One of the moves back up, to the retract plane and to the security plane.
fn up_block(def: &Def, x: i64, y: i64, index: u64) -> Block
    requires { index < length (up_from (numbers_of def.now) x y) }
    ensures { slice_get (up_from (numbers_of def.now) x y) index ≡ Some result }
{
    let z = if index == 0 { def.ret } else { def.sec };
    Block::Rapid { x, y, z }
}

/// One of the blocks after the feed to the bottom: the dwell, where there is one, and the moves back up.
fn back_block(def: &Def, x: i64, y: i64, dwell: i64, index: u64) -> Block
    requires { index < length (dwell_blocks dwell ++ up_from (numbers_of def.now) x y) }
    ensures { slice_get (dwell_blocks dwell ++ up_from (numbers_of def.now) x y) index ≡ Some result }
{
    if dwell <= 0 {
        up_block(def, x, y, index)
    } else if index == 0 {
        Block::Dwell { ms: dwell }
    } else {
        up_block(def, x, y, index - 1)
    }
}

/// The block with this index, counted from 0, of the path of a hole at x and y.
pub(crate) fn block(def: &Def, x: i64, y: i64, dwell: i64, index: u64) -> Block
    requires { index < length (path_drill (numbers_of def.now) x y dwell) }
    ensures { slice_get (path_drill (numbers_of def.now) x y dwell) index ≡ Some result }
{
    match index {
        0 => tool_block(def),
        1 => Block::Rapid { x, y, z: def.sec },
        2 => Block::Rapid { x, y, z: def.ret },
        3 => Block::Feed {
            x,
            y,
            z: def.bottom,
            f: def.feed,
        },
        _ => back_block(def, x, y, dwell, index - 4),
    }
}
