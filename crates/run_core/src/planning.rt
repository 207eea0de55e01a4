//! The plan of a workingstep.

ghost use Rattle.std.specs.Prelude.{◌≡◌, IfOk};

use nc_base::NoMemory;
use path_blocks::{Def, Plan, Shape};
use std::alloc::Global;

/// The plan of a definition of any shape: its path by the crate of that shape.
///
/// # Errors
/// `NoMemory` where there is none for the blocks.
pub fn plan_of(alloc: Global, def: &Def) -> Result<Plan, NoMemory>
    ensures { IfOk result (λ plan. plan ≡ def.now) }
{
    match def.shape {
        Shape::Drill { .. } => path_drill::path(alloc, def),
        Shape::Plane { .. } => path_plane::path(alloc, def),
        Shape::Pocket { .. } => path_pocket::path(alloc, def),
    }
}
