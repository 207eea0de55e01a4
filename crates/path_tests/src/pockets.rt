//! Paths of rectangular pockets.

use crate::paths::{expect_count, expect_path};
use path_blocks::{Def, Shape};
use std::test::Fail;

/// A pocket of 40 mm by 20 mm, 5 mm deep, for a tool of 10 mm, in rings 4 mm apart.
pub(crate) const POCKET: Def = Def {
    tool: 44,
    spindle: 20_000,
    feed: 40,
    sec: 30_000,
    ret: 5_000,
    z0: 0,
    bottom: -5_000,
    axial: 5_000,
    shape: Shape::Pocket {
        left: -15_000,
        low: -5_000,
        right: 15_000,
        high: 5_000,
        radial: 4_000,
    },
};

/// Its path.
pub(crate) const POCKET_PATH: &str = "T 44 20000\n\
    R -11000 -1000 30000\n\
    R -11000 -1000 5000\n\
    F -11000 -1000 -5000 40\n\
    F 11000 -1000 -5000 40\n\
    F 11000 1000 -5000 40\n\
    F -11000 1000 -5000 40\n\
    F -11000 -1000 -5000 40\n\
    F -15000 -5000 -5000 40\n\
    F 15000 -5000 -5000 40\n\
    F 15000 5000 -5000 40\n\
    F -15000 5000 -5000 40\n\
    F -15000 -5000 -5000 40\n\
    R -15000 -5000 5000\n\
    R -15000 -5000 30000\n";

#[test]
fn two_rings_from_the_inside_out(rt: HostRuntime) -> Result<(), Fail> {
    expect_path(&rt, rt.alloc(), &POCKET, POCKET_PATH)
}

/// A pocket of 10 mm by 10 mm for a tool of 10 mm.
pub(crate) const POINT: Def = Def {
    tool: 44,
    spindle: 20_000,
    feed: 40,
    sec: 30_000,
    ret: 5_000,
    z0: 0,
    bottom: -5_000,
    axial: 5_000,
    shape: Shape::Pocket {
        left: 0,
        low: 0,
        right: 0,
        high: 0,
        radial: 4_000,
    },
};

/// Its path.
pub(crate) const POINT_PATH: &str = "T 44 20000\n\
    R 0 0 30000\n\
    R 0 0 5000\n\
    F 0 0 -5000 40\n\
    F 0 0 -5000 40\n\
    F 0 0 -5000 40\n\
    F 0 0 -5000 40\n\
    F 0 0 -5000 40\n\
    R 0 0 5000\n\
    R 0 0 30000\n";

#[test]
fn a_pocket_as_wide_as_its_tool(rt: HostRuntime) -> Result<(), Fail> {
    expect_path(&rt, rt.alloc(), &POINT, POINT_PATH)
}

/// A square of 4 mm, 5 mm deep, in levels of 2 mm and rings 2 mm apart: two levels above the bottom, and a ring that is a point.
pub(crate) const LEVELS: Def = Def {
    tool: 7,
    spindle: 0,
    feed: 40,
    sec: 9_000,
    ret: 8_000,
    z0: 1_000,
    bottom: -4_000,
    axial: 2_000,
    shape: Shape::Pocket {
        left: 0,
        low: 0,
        right: 4_000,
        high: 4_000,
        radial: 2_000,
    },
};

/// Its path: in each level the point, and once round the square.
pub(crate) const LEVELS_PATH: &str = "T 7 0\n\
    R 2000 2000 9000\n\
    R 2000 2000 8000\n\
    F 2000 2000 -1000 40\n\
    F 2000 2000 -1000 40\n\
    F 2000 2000 -1000 40\n\
    F 2000 2000 -1000 40\n\
    F 2000 2000 -1000 40\n\
    F 0 0 -1000 40\n\
    F 4000 0 -1000 40\n\
    F 4000 4000 -1000 40\n\
    F 0 4000 -1000 40\n\
    F 0 0 -1000 40\n\
    R 0 0 8000\n\
    R 2000 2000 8000\n\
    F 2000 2000 -3000 40\n\
    F 2000 2000 -3000 40\n\
    F 2000 2000 -3000 40\n\
    F 2000 2000 -3000 40\n\
    F 2000 2000 -3000 40\n\
    F 0 0 -3000 40\n\
    F 4000 0 -3000 40\n\
    F 4000 4000 -3000 40\n\
    F 0 4000 -3000 40\n\
    F 0 0 -3000 40\n\
    R 0 0 8000\n\
    R 2000 2000 8000\n\
    F 2000 2000 -4000 40\n\
    F 2000 2000 -4000 40\n\
    F 2000 2000 -4000 40\n\
    F 2000 2000 -4000 40\n\
    F 2000 2000 -4000 40\n\
    F 0 0 -4000 40\n\
    F 4000 0 -4000 40\n\
    F 4000 4000 -4000 40\n\
    F 0 4000 -4000 40\n\
    F 0 0 -4000 40\n\
    R 0 0 8000\n\
    R 0 0 9000\n";

#[test]
fn the_last_level_is_the_bottom(rt: HostRuntime) -> Result<(), Fail> {
    expect_path(&rt, rt.alloc(), &LEVELS, LEVELS_PATH)
}

/// The pocket of the example plate: 50 mm by 80 mm for a tool of 20 mm, 30 mm deep with 0.5 mm left at the bottom and 1 mm at the
/// sides, in levels of 6.5 mm and rings 5 mm apart.
pub(crate) const PLATE: Def = Def {
    tool: 40,
    spindle: 20_000,
    feed: 40,
    sec: 30_000,
    ret: 15_000,
    z0: 0,
    bottom: -29_500,
    axial: 6_500,
    shape: Shape::Pocket {
        left: 51_000,
        low: 31_000,
        right: 79_000,
        high: 89_000,
        radial: 5_000,
    },
};

#[test]
fn the_pocket_of_the_plate(rt: HostRuntime) -> Result<(), Fail> {
    expect_count(&rt, rt.alloc(), &PLATE, 88)
}
