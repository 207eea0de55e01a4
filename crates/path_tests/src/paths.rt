//! Paths of definitions, compared as the text of their blocks.

use crate::expected::expect;
use nc_base::NoMemory;
use nc_outside::MemorySink;
use path_blocks::{Block, Def, Plan, Shape};
use run_log::write_blocks;
use std::alloc::Global;
use std::process::Abort;
use std::test::Fail;

// The plan that the crate of this shape makes.
fn plan_of(alloc: Global, def: &Def) -> Result<Plan, NoMemory> {
    match def.shape {
        Shape::Drill { .. } => path_drill::path(alloc, def),
        Shape::Plane { .. } => path_plane::path(alloc, def),
        Shape::Pocket { .. } => path_pocket::path(alloc, def),
    }
}

/// Stops unless this is what is written for the blocks, a line each.
pub fn expect_text(
    rt: &impl Abort,
    alloc: Global,
    blocks: &[Block],
    text: &str,
) -> Result<(), Fail> {
    let mut sink = MemorySink::new(alloc, 10_000)?;
    write_blocks(blocks, &mut sink)?;
    expect(rt, sink.bytes(), text.as_bytes());
    Ok(())
}

/// Stops unless the plan of a definition is its own and has so many blocks, as many as the definition says.
pub fn expect_count(rt: &impl Abort, alloc: Global, def: &Def, count: usize) -> Result<(), Fail> {
    let plan = plan_of(alloc, def)?;
    assert_eq!(rt; *plan.def(), *def);
    assert_eq!(rt; plan.blocks().len(), count);
    assert_eq!(rt; def.count() as usize, count);
    Ok(())
}

/// Stops unless the plan of a definition has these blocks, a line each.
pub fn expect_path(rt: &impl Abort, alloc: Global, def: &Def, text: &str) -> Result<(), Fail> {
    let plan = plan_of(alloc, def)?;
    expect_text(rt, alloc, plan.blocks(), text)?;
    expect_count(rt, alloc, def, text.lines().count())
}
