//! Holes.

use super::*;
use DefFault::{Mismatch, Missing, NotPositive, OutOfRange};

/// Step 10, which drills a hole 15 mm deep.
pub const HOLE: &str = "#10=MACHINING_WORKINGSTEP('',#50,#20,#30);\n\
    #20=ROUND_HOLE('',$,$,#60,#51,10.);\n\
    #30=DRILLING($,$,$,5.,$,#44,#45,$,$,$,$,$);\n\
    #44=MILLING_CUTTING_TOOL('',#46);\n\
    #46=TWIST_DRILL($);\n\
    #51=PLANE('',#62);\n\
    #62=AXIS2_PLACEMENT_3D('',#72,$,$);\n\
    #72=CARTESIAN_POINT('',(0.,0.,-15.));\n";

/// Faults of a hole and of what drills it.
const FAULTS: [Row; 7] = [
    row!(10 "#20=ROUND_HOLE('',$,$,#60,#51,#44);" Err(Missing(20, 6))),
    row!(10 "#20=ROUND_HOLE('',$,$,#60,#51,0.);" Err(NotPositive(20, 6))),
    row!(10 "#30=DRILLING($,$,$,5.,$,#44,#45,$,$,$,$,-0.001);" Err(OutOfRange(30, 12))),
    row!(10 "#20=ROUND_HOLE('',$,$,#60,#51,100000.001);" Err(OutOfRange(20, 6))),
    row!(10 "#20=ROUND_HOLE('',$,$,#60,#51,$);" Err(Missing(20, 6))),
    row!(10 "#30=DRILLING($,$,$,5.,$,#44,#45,$,$,$,$,100000.001);" Err(OutOfRange(30, 12))),
    row!(10 "#30=BOTTOM_AND_SIDE_ROUGH_MILLING($,$,$,5.,$,#41,#45,$,$,$,$,$,$,$,$,$);" Err(Mismatch(30, 20))),
];

/// Holes without a fault.
const FOUND: [Row; 9] = [
    row!(10 "#34=TOLERANCED_LENGTH_MEASURE(100000.001);" Ok(DRILLED)),
    row!(10 "#20=ROUND_HOLE('',$,$,#60,#51,#34);" Ok(DRILLED)),
    row!(10 "#30=BORING($,$,$,$,$,#44,#45,$,$,$,$,0.5);" Ok(drilled!(20_000, 30_000, 30_000, 0, -15_000, 500))),
    row!(10 "#20=ROUND_HOLE('',$,$,#60,#51,#91);" Ok(DRILLED)),
    row!(10 "#20=ROUND_HOLE('',$,$,#60,#51,100000.);" Ok(DRILLED)),
    row!(10 "#30=CENTER_DRILLING($,$,$,5.,$,#44,#45,$,$,$,$,0.);" Ok(DRILLED)),
    row!(10 "#30=REAMING($,$,$,5.,$,#44,#45,$,$,$,$,100000.);" Ok(drilled!(20_000, 30_000, 5_000, 0, -15_000, 100_000_000))),
    row!(10 "#72=CARTESIAN_POINT('',(0.,0.,-0.001));" Ok(drilled!(20_000, 30_000, 5_000, 0, -1, 0))),
    row!(10 "#72=CARTESIAN_POINT('',(0.,0.,-100000.));" Ok(drilled!(20_000, 30_000, 5_000, 0, -100_000_000, 0))),
];

#[test]
fn faults_of_holes(rt: HostRuntime) -> Result<(), Fail> {
    expect_rows(&rt, rt.alloc(), &FAULTS, true)
}

#[test]
fn definitions_of_holes(rt: HostRuntime) -> Result<(), Fail> {
    expect_rows(&rt, rt.alloc(), &FOUND, true)
}
