//! Paths handed out block by block, and many at a time to the blocks of a plan.

ghost use Rattle.std.specs.Prelude.{◌≤◌};

use crate::expected::expect;
use crate::faces::{self, FACE, FACE_PATH};
use crate::holes::{DWELLING, DWELLING_PATH, PLAIN, PLAIN_PATH};
use crate::paths::expect_text;
use crate::pockets::{self, POCKET, POCKET_PATH};
use nc_base::NoMemory;
use path_blocks::{Block, Def, Plan, PlanPart};
use path_gen::laws::pieces_join;
use path_gen::{Filled, Gen};
use std::alloc::Global;
use std::process::Abort;
use std::test::Fail;

// The blocks of a path, one by one until there are no more, each looked at before.
fn by_next(rt: &impl Abort, alloc: Global, def: &Def) -> Result<Vec<Block>, NoMemory> {
    let mut path = Gen::new(def);
    let mut blocks = Vec::new(alloc);
    for _ in 0..=def.count() {
        let seen = path.peek();
        let block = path.next();
        expect(rt, seen, block);
        let Some(block) = block else {
            break;
        };
        blocks.push(block)?;
    }
    Ok(blocks)
}

// The plan that is filled with so many blocks at a time, and in how many calls.
fn by_fill(alloc: Global, def: &Def, most: u32) -> Result<(Plan, u32), NoMemory>
    requires { 1 ≤ most }
{
    let mut path = Gen::new(def);
    let mut part = PlanPart::new(alloc, *def)?;
    for calls in 0..def.count() {
        match path.fill(&mut part, most) {
            Filled::Whole => return Ok((part.whole(), calls + 1)),
            Filled::More => {}
        }
    }
    Err(NoMemory)
}

// The plan with the first block of its path alone.
fn first_block(alloc: Global, def: &Def) -> Result<PlanPart, NoMemory> {
    let mut part = PlanPart::new(alloc, *def)?;
    if let Some(block) = Gen::new(def).peek() {
        part.push(block);
    }
    Ok(part)
}

// What the first call answers, and how many blocks there are then.
fn first_fill(alloc: Global, def: &Def, most: u32) -> Result<(Filled, u32), NoMemory>
    requires { 1 ≤ most }
{
    let mut path = Gen::new(def);
    let mut part = PlanPart::new(alloc, *def)?;
    let filled = path.fill(&mut part, most);
    Ok((filled, part.count()))
}

// Stops unless a plan is filled with so many blocks at a time in so many calls, and has as many blocks as the path.
fn expect_calls(
    rt: &impl Abort,
    alloc: Global,
    def: &Def,
    most: u32,
    calls: u32,
    count: usize,
) -> Result<(), Fail>
    requires { 1 ≤ most }
{
    let (plan, called) = by_fill(alloc, def, most)?;
    expect(rt, called, calls);
    expect(rt, plan.blocks().len(), count);
    Ok(())
}

// Stops unless the path has so many blocks, one by one and 1, 7 and 64 at a time, in so many calls.
fn expect_counts(
    rt: &impl Abort,
    alloc: Global,
    def: &Def,
    count: u32,
    by_seven: u32,
    by_many: u32,
) -> Result<(), Fail> {
    expect(rt, by_next(rt, alloc, def)?.len(), count as usize);
    expect_calls(rt, alloc, def, 1, count, count as usize)?;
    expect_calls(rt, alloc, def, 7, by_seven, count as usize)?;
    expect_calls(rt, alloc, def, 64, by_many, count as usize)
}

// Stops unless a plan that is filled with so many blocks at a time has these, a line each.
fn expect_filled(
    rt: &impl Abort,
    alloc: Global,
    def: &Def,
    most: u32,
    text: &str,
) -> Result<(), Fail>
    requires { 1 ≤ most }
{
    let (plan, _) = by_fill(alloc, def, most)?;
    expect(rt, *plan.def(), *def);
    expect_text(rt, alloc, plan.blocks(), text)
}

// Stops unless the path has these blocks, one by one and 1, 7 and 64 at a time.
fn expect_pieces(rt: &impl Abort, alloc: Global, def: &Def, text: &str) -> Result<(), Fail> {
    expect_text(rt, alloc, by_next(rt, alloc, def)?.as_slice(), text)?;
    expect_filled(rt, alloc, def, 1, text)?;
    expect_filled(rt, alloc, def, 7, text)?;
    expect_filled(rt, alloc, def, 64, text)
}

#[test]
fn blocks_in_pieces(rt: HostRuntime) -> Result<(), Fail> {
    expect_pieces(&rt, rt.alloc(), &DWELLING, DWELLING_PATH)?;
    expect_pieces(&rt, rt.alloc(), &PLAIN, PLAIN_PATH)?;
    expect_pieces(&rt, rt.alloc(), &FACE, FACE_PATH)?;
    expect_pieces(&rt, rt.alloc(), &POCKET, POCKET_PATH)
}

#[test]
fn levels_in_pieces(rt: HostRuntime) -> Result<(), Fail> {
    expect_pieces(&rt, rt.alloc(), &faces::ONE_WAY, faces::ONE_WAY_PATH)?;
    expect_pieces(&rt, rt.alloc(), &pockets::LEVELS, pockets::LEVELS_PATH)
}

#[test]
fn calls_for_the_plate(rt: HostRuntime) -> Result<(), Fail> {
    expect_counts(&rt, rt.alloc(), &faces::PLATE, 35, 5, 1)?;
    expect_counts(&rt, rt.alloc(), &PLAIN, 6, 1, 1)?;
    expect_counts(&rt, rt.alloc(), &DWELLING, 7, 1, 1)?;
    expect_counts(&rt, rt.alloc(), &pockets::PLATE, 88, 13, 2)
}

#[test]
fn a_path_is_whole_with_its_last_block(rt: HostRuntime) -> Result<(), Fail> {
    expect(
        &rt,
        first_fill(rt.alloc(), &POCKET, 15),
        Ok((Filled::Whole, 15)),
    );
    expect(
        &rt,
        first_fill(rt.alloc(), &POCKET, 14),
        Ok((Filled::More, 14)),
    );
    expect(
        &rt,
        first_fill(rt.alloc(), &POCKET, 16),
        Ok((Filled::Whole, 15)),
    );
    Ok(())
}

#[test]
fn a_path_keeps_its_place(rt: HostRuntime) {
    let mut path = Gen::new(&POCKET);
    path.next();
    path.next();
    pieces_join(&path);
    expect(&rt, *path.def(), POCKET);
    expect(&rt, path.given(), 2);
    expect(&rt, path.left(), 13);
}

#[test]
fn a_plan_is_made_block_by_block(rt: HostRuntime) -> Result<(), Fail> {
    let part = first_block(rt.alloc(), &POCKET)?;
    expect(&rt, *part.def(), POCKET);
    expect(&rt, part.count(), 1);
    expect_text(&rt, rt.alloc(), part.blocks(), "T 44 20000\n")
}
