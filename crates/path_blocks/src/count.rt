//! How many blocks a path has.

ghost use Rattle.std.specs.Prelude.{◌≡◌, ◌+◌, ◌*◌, ◌≤◌, ◌<ℤ◌, ◌-ℤ◌, ◌/◌, min, unsigned_abs, IsTrue};
ghost use Rattle.std.specs.Int.{is_positive};
ghost use Rattle.path_blocks.specs.Range.{is_within, fits_shape};
ghost use Rattle.path_blocks.specs.Count.{block_count, last_ring, level_count, row_count};
ghost use Rattle.path_blocks.specs.Path.{IsPathLength};
ghost use Rattle.path_blocks.specs.declared.limits.TheConstants.{MAX_SIZE};

use crate::cuts::cut_count;
use crate::def::Shape;

/// How many levels of at most `axial` lie between the two heights.
fn level_count(z0: i64, bottom: i64, axial: i64) -> u64
    requires upper { IsTrue (is_within z0) }
    requires lower { IsTrue (is_within bottom) }
    requires downwards { bottom <ℤ z0 }
    requires cuts { IsTrue (is_positive axial) }
    ensures exact { result ≡ level_count z0 bottom axial }
    ensures few { result ≤ 2 * MAX_SIZE }
{
    cut_count(axial.unsigned_abs(), (z0 - bottom).unsigned_abs())
}

/// How many rows lie side by side on a width.
fn row_count(step: i64, width: i64) -> u64
    requires step { IsTrue (is_positive step) }
    requires width { IsTrue (is_positive width) }
    requires narrow { IsTrue (is_within width) }
    ensures exact { result ≡ row_count step width }
    ensures few { result ≤ MAX_SIZE + 1 }
{
    cut_count(step.unsigned_abs(), width.unsigned_abs()) + 1
}

/// How long a side is.
fn side(from: i64, to: i64) -> u64
    requires from { IsTrue (is_within from) }
    requires to { IsTrue (is_within to) }
    ensures exact { result ≡ unsigned_abs (to -ℤ from) }
    ensures short { result ≤ 2 * MAX_SIZE }
{
    (to - from).unsigned_abs()
}

/// How many times a rectangle with these sides can be shrunk by `radial` on each side.
fn last_ring(along: u64, across: u64, radial: i64) -> u64
    requires short { along ≤ 2 * MAX_SIZE }
    requires radial { IsTrue (is_positive radial) }
    ensures exact { result ≡ min along across / (2 * unsigned_abs radial) }
    ensures few { result ≤ MAX_SIZE }
{
    along.min(across) / (2 * radial.unsigned_abs())
}

/// The blocks of so many levels with so many blocks each, and the three around them.
fn of_levels(levels: u64, each: u64) -> u64
    requires levels { levels ≤ 2 * MAX_SIZE }
    requires each { each ≤ 5 * MAX_SIZE + 7 }
    ensures { result ≡ 3 + levels * each }
{
    3 + levels * each
}

/// How many blocks the path has of a shape between the heights `z0` and `bottom`, cut in levels of at most `axial`. There may be more
/// than `MAX_BLOCKS`: a shape with such heights is no definition then.
pub fn block_count(z0: i64, bottom: i64, axial: i64, shape: &Shape) -> u64
    requires upper { IsTrue (is_within z0) }
    requires lower { IsTrue (is_within bottom) }
    requires downwards { bottom <ℤ z0 }
    requires cuts { IsTrue (is_positive axial) }
    requires shaped { IsTrue (fits_shape shape.now) }
    ensures count { result ≡ block_count z0 bottom axial shape.now }
    ensures path { IsPathLength z0 bottom axial shape.now result }
{
    let levels = level_count(z0, bottom, axial);
    match *shape {
        Shape::Drill { dwell, .. } => { if dwell > 0 { 7 } else { 6 } }
        Shape::Plane { width, step, .. } => of_levels(levels, 2 + 2 * row_count(step, width)),
        Shape::Pocket {
            left,
            low,
            right,
            high,
            radial,
        } => {
            let rings = last_ring(side(left, right), side(low, high), radial) + 1;
            of_levels(levels, 2 + 5 * rings)
        }
    }
}
