//! The block that every path begins with.

ghost use Rattle.std.specs.Prelude.{◌≡◌};
ghost use Rattle.path_blocks.specs.declared.block.Block.TheVariants.{Tool};

use path_blocks::{Block, Def};

/// The tool of a definition, at its spindle speed.
pub(crate) fn tool_block(def: &Def) -> Block
    ensures { result ≡ Tool def.now.tool def.now.spindle }
{
    Block::Tool {
        tool: def.tool,
        spindle: def.spindle,
    }
}
