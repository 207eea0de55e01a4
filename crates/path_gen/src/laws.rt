//! What the definitions mean.

ghost use Rattle.std.specs.Prelude.{◌≡◌, ◌++◌};
ghost use Rattle.path_blocks.specs.Path.{path_of};
ghost use Rattle.path_blocks.specs.Place.{ahead, behind};

use crate::generator::Gen;

/// What was handed out, joined with what is still to come, is the path.
pub fn pieces_join(blocks: &Gen)
    ensures { behind blocks.now ++ ahead blocks.now ≡ path_of blocks.now.def }
{}
