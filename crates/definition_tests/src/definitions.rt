//! Definitions of workingsteps: what a project says of one, or the first fault of it. Instances are written as in a file.

ghost use Rattle.std.specs.Prelude.{◌≡◌, nat_eq, if◌then◌else◌, Some, option_copied};
ghost use Rattle.project_store.specs.Entities.{entity_at};

use crate::entities::{entities, entity};
use entity_types::Entity;
use nc_base::{Number, Steps};
use path_blocks::{Def, Shape};
use project_store::Entities;
use std::alloc::Global;
use std::marker::Brand;
use std::process::Abort;
use std::sync::ledger::{Blank, Ledger};
use std::test::Fail;
use step_def::{DefFault, is_workingstep, resolve};

/// The numbers of a definition: the tool, then `spindle`, `feed`, `sec`, `ret`, `z0`, `bottom` and `axial`, and the shape. A table has
/// them in this form, which keeps nothing that would have to be proved of each row.
type Numbers = (u32, [i64; 7], Shape);

/// A workingstep, an instance that is put in place of another, and what that makes of the step.
type Row = (Number, &'static str, Result<Numbers, DefFault>);

macro_rules! row {
    ($step:literal $line:literal $answer:expr) => {
        ($step, $line, $answer)
    };
}

/// The drilled hole with these numbers: spindle speed, heights and dwell.
macro_rules! drilled {
    ($spindle:expr, $sec:expr, $ret:expr, $z0:expr, $bottom:expr, $dwell:expr) => {
        (
            44,
            [$spindle, 40, $sec, $ret, $z0, $bottom, $z0 - $bottom],
            Shape::Drill { x: 10_000, y: 20_000, dwell: $dwell },
        )
    };
}

/// The drilled hole.
const DRILLED: Numbers = drilled!(20_000, 30_000, 5_000, 0, -15_000, 0);

mod faces;
mod holes;
mod pockets;
mod steps;

/// All instances.
const PROJECT: [&str; 5] = [
    steps::SHARED,
    holes::HOLE,
    faces::FACE,
    pockets::POCKET,
    pockets::CONTOUR,
];

/// A project with one entity put in place of another.
#[derive(Clone, Copy)]
struct Changed<'a> {
    project: &'a [Entity],
    entity: &'a Entity,
}

impl<'a> Entities for Changed<'a> {
    ghost entities = { λ c n. if nat_eq n c.entity.now.number then Some c.entity.now else entity_at c.project.now n };

    fn get(&self, n: Number) -> Option<&Entity> {
        if n == self.entity.number {
            return Some(self.entity);
        }
        find(self.project, n)
    }
}

fn find(project: &[Entity], n: Number) -> Option<&Entity>
    ensures { option_copied result ≡ entity_at project.now n }
{
    project.iter().find(|entity| n == entity.number)
}

/// All instances of the project.
fn project(rt: &impl Abort, alloc: Global) -> Result<Vec<Entity>, Fail> {
    let mut text = String::new(alloc);
    for part in PROJECT {
        text.push_str(part)?;
    }
    entities(rt, alloc, &text)
}

fn numbers(def: &Def) -> Numbers {
    (
        def.tool,
        [
            def.spindle,
            def.feed,
            def.sec,
            def.ret,
            def.z0,
            def.bottom,
            def.axial,
        ],
        def.shape,
    )
}

/// What a project says of a step, or None where it is no workingstep.
fn answer<L: Ledger>(
    from: &Changed,
    step: Number,
    steps: &mut Steps<L>,
) -> Option<Result<Numbers, DefFault>> {
    if !is_workingstep(from, step) {
        return None;
    }
    Some(match resolve(from, step, steps) {
        Ok(def) => Ok(numbers(&def)),
        Err(fault) => Err(fault),
    })
}

/// Stops unless the row's number is a workingstep with the row's answer, or is none.
fn expect_answer<L: Ledger>(
    rt: &impl Abort,
    alloc: Global,
    project: &[Entity],
    row: &Row,
    is_step: bool,
    steps: &mut Steps<L>,
) -> Result<(), Fail> {
    let (step, line, want) = *row;
    let changed = Changed {
        project,
        entity: &entity(rt, alloc, line)?,
    };
    let want = if is_step { Some(want) } else { None };
    assert_eq!(rt; answer(&changed, step, steps), want, "of {line}");
    Ok(())
}

fn expect_answers<L: Ledger>(
    rt: &impl Abort,
    alloc: Global,
    rows: &[Row],
    are_steps: bool,
    blank: Blank,
) -> Result<(), Fail>
    requires name { blank.name ≡ L.name }
    requires parts { blank.parts ≡ L.parts }
    requires one { blank.parts ≡ 1 }
{
    let (book, share) = blank.open::<L>();
    let mut steps = Steps::new(book, share);
    let project = project(rt, alloc)?;
    for row in rows {
        expect_answer(rt, alloc, project.as_slice(), row, are_steps, &mut steps)?;
    }
    Ok(())
}

/// Stops unless each row's number is a workingstep with the row's answer, or none of them is a workingstep.
fn expect_rows(rt: &impl Abort, alloc: Global, rows: &[Row], are_steps: bool) -> Result<(), Fail> {
    expect_answers::<Brand>(rt, alloc, rows, are_steps, Blank::new(1))
}

/// Each fault, in the order of the codes, which begin with 1.
const ALL_FAULTS: [DefFault; 9] = [
    DefFault::Missing(1, 2),
    DefFault::HasToolpath(1),
    DefFault::BadDirection(1),
    DefFault::Mismatch(1, 2),
    DefFault::NotRectangle(1),
    DefFault::NotPositive(1, 2),
    DefFault::OutOfRange(1, 2),
    DefFault::ToolTooBig(1),
    DefFault::TooManyBlocks(1, 20_005),
];

#[test]
fn codes(rt: HostRuntime) {
    let mut code = 1;
    for fault in &ALL_FAULTS {
        assert_eq!(rt; fault.code(), code);
        code += 1;
    }
}
