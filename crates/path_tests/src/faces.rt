//! Paths of planar faces.

use crate::paths::{expect_count, expect_path};
use path_blocks::{Def, Shape};
use std::test::Fail;

/// A face of 100 mm by 50 mm along x, 2 mm deep, in rows 20 mm apart that run there and back.
pub(crate) const FACE: Def = Def {
    tool: 44,
    spindle: 20_000,
    feed: 40,
    sec: 30_000,
    ret: 5_000,
    z0: 0,
    bottom: -2_000,
    axial: 2_000,
    shape: Shape::Plane {
        x: 0,
        y: 0,
        ux: 1,
        uy: 0,
        length: 100_000,
        width: 50_000,
        step: 20_000,
        both: true,
    },
};

/// Its path.
pub(crate) const FACE_PATH: &str = "T 44 20000\n\
    R 0 0 30000\n\
    R 0 0 5000\n\
    F 0 0 -2000 40\n\
    F 100000 0 -2000 40\n\
    F 100000 20000 -2000 40\n\
    F 0 20000 -2000 40\n\
    F 0 40000 -2000 40\n\
    F 100000 40000 -2000 40\n\
    F 100000 50000 -2000 40\n\
    F 0 50000 -2000 40\n\
    R 0 50000 5000\n\
    R 0 50000 30000\n";

#[test]
fn rows_there_and_back(rt: HostRuntime) -> Result<(), Fail> {
    expect_path(&rt, rt.alloc(), &FACE, FACE_PATH)
}

/// A face against y, one way only, in two levels. Its width is two steps, and the row at the width is the third.
pub(crate) const ONE_WAY: Def = Def {
    tool: 7,
    spindle: -1,
    feed: 40,
    sec: 9_000,
    ret: 8_000,
    z0: 1_000,
    bottom: -2_000,
    axial: 2_000,
    shape: Shape::Plane {
        x: 10,
        y: 20,
        ux: 0,
        uy: -1,
        length: 5,
        width: 6,
        step: 3,
        both: false,
    },
};

/// Its path.
pub(crate) const ONE_WAY_PATH: &str = "T 7 -1\n\
    R 10 20 9000\n\
    R 10 20 8000\n\
    F 10 20 -1000 40\n\
    F 10 15 -1000 40\n\
    F 13 20 -1000 40\n\
    F 13 15 -1000 40\n\
    F 16 20 -1000 40\n\
    F 16 15 -1000 40\n\
    R 16 15 8000\n\
    R 10 20 8000\n\
    F 10 20 -2000 40\n\
    F 10 15 -2000 40\n\
    F 13 20 -2000 40\n\
    F 13 15 -2000 40\n\
    F 16 20 -2000 40\n\
    F 16 15 -2000 40\n\
    R 16 15 8000\n\
    R 16 15 9000\n";

#[test]
fn rows_one_way(rt: HostRuntime) -> Result<(), Fail> {
    expect_path(&rt, rt.alloc(), &ONE_WAY, ONE_WAY_PATH)
}

/// The face of the example plate: 120 mm along y and 100 mm across, 5 mm deep, in levels of 2.5 mm and rows 19 mm apart.
pub(crate) const PLATE: Def = Def {
    tool: 40,
    spindle: 20_000,
    feed: 40,
    sec: 30_000,
    ret: 15_000,
    z0: 5_000,
    bottom: 0,
    axial: 2_500,
    shape: Shape::Plane {
        x: 0,
        y: 0,
        ux: 0,
        uy: 1,
        length: 120_000,
        width: 100_000,
        step: 19_000,
        both: true,
    },
};

#[test]
fn the_face_of_the_plate(rt: HostRuntime) -> Result<(), Fail> {
    expect_count(&rt, rt.alloc(), &PLATE, 35)
}
