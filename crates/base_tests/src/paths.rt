use crate::expected::expect;
use nc_base::NoMemory;
use path_blocks::*;
use std::alloc::Global;
use std::test::Fail;

/// A drilled hole without a dwell.
const HOLE: Def = Def {
    tool: 44,
    spindle: 20_000,
    feed: 40,
    sec: 30_000,
    ret: 5_000,
    z0: 0,
    bottom: -15_000,
    axial: 15_000,
    shape: Shape::Drill {
        x: 1_000,
        y: 2_000,
        dwell: 0,
    },
};

/// Its blocks.
const HOLE_BLOCKS: [Block; 6] = [
    Block::Tool {
        tool: 44,
        spindle: 20_000,
    },
    Block::Rapid {
        x: 1_000,
        y: 2_000,
        z: 30_000,
    },
    Block::Rapid {
        x: 1_000,
        y: 2_000,
        z: 5_000,
    },
    Block::Feed {
        x: 1_000,
        y: 2_000,
        z: -15_000,
        f: 40,
    },
    Block::Rapid {
        x: 1_000,
        y: 2_000,
        z: 5_000,
    },
    Block::Rapid {
        x: 1_000,
        y: 2_000,
        z: 30_000,
    },
];

fn hole_plan(alloc: Global) -> Result<Plan, NoMemory> {
    Ok(Plan::new(HOLE, Vec::from_slice(alloc, &HOLE_BLOCKS)?))
}

#[test]
fn a_plan_has_its_definition_and_its_blocks(rt: HostRuntime) -> Result<(), Fail> {
    let plan = hole_plan(rt.alloc())?;
    expect(&rt, *plan.def(), HOLE);
    expect(&rt, plan.blocks(), HOLE_BLOCKS.as_slice());
    Ok(())
}

/// A drilled hole with a dwell.
const DWELLING: Def = Def {
    tool: 41,
    spindle: 16_000,
    feed: 30,
    sec: 30_000,
    ret: 10_000,
    z0: 0,
    bottom: -30_000,
    axial: 30_000,
    shape: Shape::Drill {
        x: 20_000,
        y: 60_000,
        dwell: 500,
    },
};

/// A face 5 mm deep in levels of 2.5 mm, 100 mm wide in rows 19 mm apart.
const FACE: Def = Def {
    tool: 40,
    spindle: 20_000,
    feed: 40,
    sec: 30_000,
    ret: 15_000,
    z0: 5_000,
    bottom: 0,
    axial: 2_500,
    shape: Shape::Plane {
        x: 0,
        y: 0,
        ux: 0,
        uy: 1,
        length: 120_000,
        width: 100_000,
        step: 19_000,
        both: true,
    },
};

/// A pocket of one level with 3,999 rings, 0.001 mm apart: the rectangle that is left of 17.996 mm by 40 mm for a tool of 10 mm.
const FINE: Def = Def {
    tool: 44,
    spindle: 20_000,
    feed: 40,
    sec: 30_000,
    ret: 5_000,
    z0: 0,
    bottom: -5_000,
    axial: 5_000,
    shape: Shape::Pocket {
        left: -3_998,
        low: -15_000,
        right: 3_998,
        high: 15_000,
        radial: 1,
    },
};

/// One ring more than the finest pocket of one level may have.
const WIDER: Shape = Shape::Pocket {
    left: -3_999,
    low: -15_000,
    right: 3_999,
    high: 15_000,
    radial: 1,
};

#[test]
fn counts_of_blocks(rt: HostRuntime) {
    for (def, count) in [(DWELLING, 7), (FACE, 35), (FINE, 20_000)] {
        expect(&rt, def.count(), count);
    }
    expect(&rt, block_count(0, -5_000, 5_000, &WIDER), 20_005);
    expect(&rt, MAX_BLOCKS, 20_000);
}

#[test]
fn levels_down_to_the_bottom(rt: HostRuntime) -> Result<(), Fail> {
    let mut heights = Vec::new(rt.alloc());
    for index in 0..FACE.level_count() {
        heights.push(FACE.level(index))?;
    }
    expect(&rt, heights.as_slice(), [2_500, 0].as_slice());
    Ok(())
}

#[test]
fn counts_of_cuts(rt: HostRuntime) {
    for (step, whole, count) in [
        (19, 100, 6),
        (50, 100, 2),
        (100, 100, 1),
        (99, 100, 2),
        (1, 1, 1),
        (200, 100, 1),
    ] {
        assert!(rt; step > 0 && whole > 0);
        expect(&rt, cut_count(step, whole), count);
    }
}

#[test]
fn cuts_of_a_whole(rt: HostRuntime) {
    for (step, whole, index, to) in [
        (19, 100, 4, 95),
        (19, 100, 5, 100),
        (50, 100, 1, 100),
        (50, 100, 0, 50),
        (200, 100, 0, 100),
    ] {
        assert!(rt; step > 0 && whole > 0);
        assert!(rt; index < cut_count(step, whole));
        expect(&rt, cut(step, whole, index), to);
    }
}
