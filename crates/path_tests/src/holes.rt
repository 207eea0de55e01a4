//! Paths of drilled holes.

use crate::paths::expect_path;
use path_blocks::{Def, Shape};
use std::test::Fail;

/// A hole with a dwell of half a second at its bottom. It is 14 mm deep and is cut in levels of 5 mm, which the path of a drilled
/// hole doesn't show.
pub(crate) const DWELLING: Def = Def {
    tool: 44,
    spindle: 20_000,
    feed: 40,
    sec: 30_000,
    ret: 5_000,
    z0: -1_000,
    bottom: -15_000,
    axial: 5_000,
    shape: Shape::Drill {
        x: 10_000,
        y: -20_000,
        dwell: 500,
    },
};

/// Its path.
pub(crate) const DWELLING_PATH: &str = "T 44 20000\n\
    R 10000 -20000 30000\n\
    R 10000 -20000 5000\n\
    F 10000 -20000 -15000 40\n\
    W 500\n\
    R 10000 -20000 5000\n\
    R 10000 -20000 30000\n";

#[test]
fn a_hole_with_a_dwell(rt: HostRuntime) -> Result<(), Fail> {
    expect_path(&rt, rt.alloc(), &DWELLING, DWELLING_PATH)
}

/// Another hole, without a dwell.
pub(crate) const PLAIN: Def = Def {
    tool: 7,
    spindle: -12_500,
    feed: 1,
    sec: 50_000,
    ret: 50_000,
    z0: 0,
    bottom: -1,
    axial: 1,
    shape: Shape::Drill {
        x: -4_000,
        y: 0,
        dwell: 0,
    },
};

/// Its path.
pub(crate) const PLAIN_PATH: &str = "T 7 -12500\n\
    R -4000 0 50000\n\
    R -4000 0 50000\n\
    F -4000 0 -1 1\n\
    R -4000 0 50000\n\
    R -4000 0 50000\n";

#[test]
fn a_hole_without_a_dwell(rt: HostRuntime) -> Result<(), Fail> {
    expect_path(&rt, rt.alloc(), &PLAIN, PLAIN_PATH)
}
