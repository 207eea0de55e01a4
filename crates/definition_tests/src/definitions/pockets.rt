//! Pockets.

use super::*;
use DefFault::{
    HasToolpath, Mismatch, Missing, NotPositive, NotRectangle, OutOfRange, TooManyBlocks,
    ToolTooBig,
};

/// Step 12, which mills a pocket of 40 mm by 20 mm, 5 mm deep, step 13, which mills it in rings 0.001 mm apart, step 29, which leaves their distance to the tool, and step 18, whose operation makes no pockets.
pub const POCKET: &str = "#12=MACHINING_WORKINGSTEP('',#50,#22,#32);\n\
    #13=MACHINING_WORKINGSTEP('',#50,#22,#33);\n\
    #18=MACHINING_WORKINGSTEP('',#50,#22,#31);\n\
    #29=MACHINING_WORKINGSTEP('',#50,#22,#97);\n\
    #22=CLOSED_POCKET('',$,$,#65,#53,$,$,$,$,$,#26);\n\
    #26=RECTANGULAR_CLOSED_PROFILE('',40.,20.);\n\
    #32=BOTTOM_AND_SIDE_ROUGH_MILLING($,$,$,5.,$,#41,#45,$,$,$,$,$,$,4.,$,$);\n\
    #33=BOTTOM_AND_SIDE_FINISH_MILLING($,$,$,5.,$,#41,#45,$,$,$,$,$,$,0.001,$,$);\n\
    #97=BOTTOM_AND_SIDE_FINISH_MILLING($,$,$,5.,$,#41,#45,$,$,$,$,$,$,$,$,$);\n\
    #41=MILLING_CUTTING_TOOL('',#42);\n\
    #42=ENDMILL(#49);\n\
    #49=MILLING_TOOL_DIMENSION(10.);\n\
    #53=PLANE('',#64);\n\
    #64=AXIS2_PLACEMENT_3D('',#76,$,$);\n\
    #76=CARTESIAN_POINT('',(0.,0.,-5.));\n";

/// Step 14, which mills a pocket of 50 mm by 80 mm whose contour is a polyline, and step 15, which drills it.
pub const CONTOUR: &str = "#14=MACHINING_WORKINGSTEP('',#50,#23,#32);\n\
    #15=MACHINING_WORKINGSTEP('',#50,#23,#30);\n\
    #23=CLOSED_POCKET('',$,$,#60,#53,$,$,$,$,$,#27);\n\
    #27=GENERAL_CLOSED_PROFILE('',#28);\n\
    #28=POLYLINE('',(#81,#82,#83,#84,#81));\n\
    #81=CARTESIAN_POINT('',(0.,0.,0.007));\n\
    #82=CARTESIAN_POINT('',(0.,80.,0.008));\n\
    #83=CARTESIAN_POINT('',(50.,80.,0.009));\n\
    #84=CARTESIAN_POINT('',(50.,0.,0.));\n\
    #85=CARTESIAN_POINT('',(0.,100000.001,0.));\n\
    #86=CARTESIAN_POINT('',(50.,100000.001,0.));\n";

/// A pocket of one level, whose rings lie so far apart, in this rectangle.
macro_rules! pocketed {
    ($left:expr, $low:expr, $right:expr, $high:expr, $radial:expr) => {
        (
            41,
            [20_000, 40, 30_000, 5_000, 0, -5_000, 5_000],
            Shape::Pocket { left: $left, low: $low, right: $right, high: $high, radial: $radial },
        )
    };
}

/// The pocket of 40 mm by 20 mm down to a height, in levels of at most so much.
macro_rules! levelled {
    ($bottom:expr, $axial:expr) => {
        (
            41,
            [20_000, 40, 30_000, 5_000, 0, $bottom, $axial],
            Shape::Pocket { left: -15_000, low: -5_000, right: 15_000, high: 5_000, radial: 4_000 },
        )
    };
}

/// Faults of a pocket and of what mills it.
const FAULTS: [Row; 43] = [
    row!(12 "#22=CLOSED_POCKET('',$,$,#65,#53,$,$,$,$,$,$);" Err(Missing(22, 11))),
    row!(12 "#26=RECTANGULAR_CLOSED_PROFILE('',$,0.);" Err(Missing(26, 2))),
    row!(12 "#26=RECTANGULAR_CLOSED_PROFILE('',0.,$);" Err(Missing(26, 3))),
    row!(14 "#27=GENERAL_CLOSED_PROFILE('',$);" Err(Missing(27, 2))),
    row!(14 "#83=DIRECTION('',(50.,80.,0.));" Err(Missing(28, 2))),
    row!(12 "#32=BOTTOM_AND_SIDE_ROUGH_MILLING($,$,$,5.,$,#41,#45,$,$,$,$,$,#41,$,$,$);" Err(Missing(32, 13))),
    row!(12 "#32=BOTTOM_AND_SIDE_ROUGH_MILLING($,$,$,5.,$,#41,#45,$,$,$,$,$,$,#41,$,$);" Err(Missing(32, 14))),
    row!(12 "#32=BOTTOM_AND_SIDE_ROUGH_MILLING($,$,$,5.,$,#41,#45,$,$,$,$,$,$,$,#41,$);" Err(Missing(32, 15))),
    row!(12 "#32=BOTTOM_AND_SIDE_ROUGH_MILLING($,$,$,5.,$,#41,#45,$,$,$,$,$,$,$,$,#41);" Err(Missing(32, 16))),
    row!(15 "#27=GENERAL_CLOSED_PROFILE('',#60);" Err(Mismatch(30, 23))),
    row!(12 "#26=LINEAR_PATH('',1.,$);" Err(NotRectangle(26))),
    row!(14 "#27=GENERAL_CLOSED_PROFILE('',#60);" Err(NotRectangle(60))),
    row!(14 "#28=POLYLINE('',(#81,#82,#83));" Err(NotRectangle(28))),
    row!(14 "#28=POLYLINE('',(#81,#83,#82,#84));" Err(NotRectangle(28))),
    row!(14 "#28=POLYLINE('',(#81,#82,#82,#81));" Err(NotRectangle(28))),
    row!(14 "#28=POLYLINE('',(#81,#82,#83,#84,#82));" Err(NotRectangle(28))),
    row!(14 "#84=CARTESIAN_POINT('',(100000.001,0.,0.));" Err(NotRectangle(28))),
    row!(12 "#26=RECTANGULAR_CLOSED_PROFILE('',0.,0.);" Err(NotPositive(26, 2))),
    row!(12 "#26=RECTANGULAR_CLOSED_PROFILE('',0.001,0.);" Err(NotPositive(26, 3))),
    row!(12 "#32=BOTTOM_AND_SIDE_ROUGH_MILLING($,$,$,5.,$,#41,#45,$,$,$,$,$,0.,0.,$,$);" Err(NotPositive(32, 13))),
    row!(12 "#32=BOTTOM_AND_SIDE_ROUGH_MILLING($,$,$,5.,$,#41,#45,$,$,$,$,$,$,0.,-0.001,$);" Err(NotPositive(32, 14))),
    row!(12 "#26=RECTANGULAR_CLOSED_PROFILE('',0.001,100000.001);" Err(OutOfRange(26, 3))),
    row!(12 "#49=MILLING_TOOL_DIMENSION(100000.001);" Err(OutOfRange(49, 1))),
    row!(12 "#32=BOTTOM_AND_SIDE_ROUGH_MILLING($,$,$,5.,$,#41,#45,$,$,$,$,$,$,100000.001,-0.001,$);" Err(OutOfRange(32, 14))),
    row!(12 "#32=BOTTOM_AND_SIDE_ROUGH_MILLING($,$,$,5.,$,#41,#45,$,$,$,$,$,$,$,-0.001,-0.001);" Err(OutOfRange(32, 15))),
    row!(12 "#32=BOTTOM_AND_SIDE_ROUGH_MILLING($,$,$,5.,$,#41,#45,$,$,$,$,$,$,$,20.,5.);" Err(OutOfRange(32, 16))),
    row!(14 "#28=POLYLINE('',(#81,#85,#86,#84));" Err(OutOfRange(85, 2))),
    row!(12 "#26=RECTANGULAR_CLOSED_PROFILE('',100000.001,100000.001);" Err(OutOfRange(26, 2))),
    row!(12 "#32=BOTTOM_AND_SIDE_ROUGH_MILLING($,$,$,5.,$,#41,#45,$,$,$,$,$,100000.001,$,-0.001,$);" Err(OutOfRange(32, 13))),
    row!(12 "#32=BOTTOM_AND_SIDE_ROUGH_MILLING((),$,$,5.,$,#41,#45,$,$,$,$,$,$,4.,$,$);" Err(HasToolpath(32))),
    row!(12 "#76=CARTESIAN_POINT('',(0.,0.,0.001));" Err(NotPositive(22, 5))),
    row!(12 "#49=MILLING_TOOL_DIMENSION(20.001);" Err(ToolTooBig(41))),
    row!(13 "#49=MILLING_TOOL_DIMENSION(20.001);" Err(ToolTooBig(41))),
    row!(13 "#26=RECTANGULAR_CLOSED_PROFILE('',17.998,40.);" Err(TooManyBlocks(13, 20_005))),
    row!(18 "#46=TWIST_DRILL($);" Err(Mismatch(31, 22))),
    row!(14 "#82=DIRECTION('',(0.,80.,0.008));" Err(Missing(28, 2))),
    row!(14 "#28=POLYLINE('',(#81,#82,#83,#84,#81,#99));" Err(Missing(28, 2))),
    row!(14 "#28=POLYLINE('',());" Err(NotRectangle(28))),
    row!(14 "#28=POLYLINE('',(#81,#82,#83,#84,#81,#81));" Err(NotRectangle(28))),
    row!(12 "#26=RECTANGULAR_CLOSED_PROFILE('',-0.001,20.);" Err(NotPositive(26, 2))),
    row!(12 "#49=MILLING_TOOL_DIMENSION(0.);" Err(NotPositive(49, 1))),
    row!(12 "#26=RECTANGULAR_CLOSED_PROFILE('',40.,9.999);" Err(ToolTooBig(41))),
    row!(29 "#49=MILLING_TOOL_DIMENSION(0.001);" Err(TooManyBlocks(29, 50_005))),
];

/// Pockets without a fault.
const FOUND: [Row; 12] = [
    row!(13 "#26=RECTANGULAR_CLOSED_PROFILE('',17.996,40.);" Ok(pocketed!(-3_998, -15_000, 3_998, 15_000, 1))),
    row!(12 "#49=MILLING_TOOL_DIMENSION(20.);" Ok(pocketed!(-10_000, 0, 10_000, 0, 4_000))),
    row!(12 "#49=MILLING_TOOL_DIMENSION(9.999);" Ok(pocketed!(-15_000, -5_000, 15_000, 5_000, 4_000))),
    row!(12 "#32=BOTTOM_AND_SIDE_ROUGH_MILLING($,$,$,5.,$,#41,#45,$,$,$,$,$,$,$,1.,$);" Ok(pocketed!(-14_000, -4_000, 14_000, 4_000, 5_000))),
    row!(14 "#46=TWIST_DRILL($);" Ok(pocketed!(15_000, 25_000, 55_000, 95_000, 4_000))),
    row!(12 "#26=RECTANGULAR_CLOSED_PROFILE('',40.001,20.);" Ok(pocketed!(-15_000, -5_000, 15_001, 5_000, 4_000))),
    row!(12 "#26=RECTANGULAR_CLOSED_PROFILE('',10.,10.);" Ok(pocketed!(0, 0, 0, 0, 4_000))),
    row!(29 "#49=MILLING_TOOL_DIMENSION(9.999);" Ok(pocketed!(-15_000, -5_000, 15_000, 5_000, 4_999))),
    row!(14 "#28=POLYLINE('',(#83,#84,#81,#82));" Ok(pocketed!(15_000, 25_000, 55_000, 95_000, 4_000))),
    row!(14 "#28=POLYLINE('',(#84,#83,#82,#81));" Ok(pocketed!(15_000, 25_000, 55_000, 95_000, 4_000))),
    row!(14 "#28=POLYLINE('',(#82,#83,#84,#81,#82));" Ok(pocketed!(15_000, 25_000, 55_000, 95_000, 4_000))),
    row!(12 "#32=BOTTOM_AND_SIDE_ROUGH_MILLING($,$,$,5.,$,#41,#45,$,$,$,$,$,2.,4.,$,4.999);" Ok(levelled!(-1, 2_000))),
];

#[test]
fn faults_of_pockets(rt: HostRuntime) -> Result<(), Fail> {
    expect_rows(&rt, rt.alloc(), &FAULTS, true)
}

#[test]
fn definitions_of_pockets(rt: HostRuntime) -> Result<(), Fail> {
    expect_rows(&rt, rt.alloc(), &FOUND, true)
}
