//! Planar faces.

use super::*;
use DefFault::{
    BadDirection, HasToolpath, Mismatch, Missing, NotPositive, OutOfRange, TooManyBlocks,
};

/// Step 11, which mills a face of 100 mm by 50 mm, 2 mm deep, step 16, which finishes it with an overlap of 0.05 in levels of 0.5 mm and leaves 0.4 mm, and steps 17 and 19, whose operations make no faces.
pub const FACE: &str = "#11=MACHINING_WORKINGSTEP('',#50,#21,#31);\n\
    #16=MACHINING_WORKINGSTEP('',#50,#21,#96);\n\
    #17=MACHINING_WORKINGSTEP('',#50,#21,#30);\n\
    #19=MACHINING_WORKINGSTEP('',#50,#21,#32);\n\
    #21=PLANAR_FACE('',$,$,#65,#52,#24,#25);\n\
    #24=LINEAR_PATH('',100.,#78);\n\
    #25=LINEAR_PROFILE('',50.);\n\
    #31=PLANE_ROUGH_MILLING($,$,$,5.,$,#40,#45,$,$,$,$,$,$,$);\n\
    #96=PLANE_FINISH_MILLING($,$,$,$,$,#40,#45,$,$,$,$,#35,0.5,0.4);\n\
    #40=MILLING_CUTTING_TOOL('',#43);\n\
    #43=ENDMILL(#48);\n\
    #48=MILLING_TOOL_DIMENSION(20.);\n\
    #35=UNIDIRECTIONAL(0.05);\n\
    #36=UNIDIRECTIONAL(1.);\n\
    #37=BIDIRECTIONAL(-0.001);\n\
    #52=PLANE('',#63);\n\
    #63=AXIS2_PLACEMENT_3D('',#73,$,$);\n\
    #73=CARTESIAN_POINT('',(0.,0.,-2.));\n\
    #95=TOLERANCED_LENGTH_MEASURE(50.);\n";

/// The face of 100 mm by 50 mm along this course.
macro_rules! faced {
    ($ux:expr, $uy:expr) => {
        (
            40,
            [20_000, 40, 30_000, 5_000, 0, -2_000, 2_000],
            Shape::Plane { x: 0, y: 0, ux: $ux, uy: $uy, length: 100_000, width: 50_000, step: 20_000, both: true },
        )
    };
}

/// The same in levels of 0.5 mm, with 0.4 mm left at the bottom: whether its rows run both ways, and how far they lie apart.
macro_rules! finished {
    ($both:expr, $step:expr) => {
        (
            40,
            [20_000, 40, 30_000, 30_000, 0, -1_600, 500],
            Shape::Plane { x: 0, y: 0, ux: 1, uy: 0, length: 100_000, width: 50_000, step: $step, both: $both },
        )
    };
}

/// The face along x.
const FACED: Numbers = faced!(1, 0);

/// Faults of a face and of what mills it.
const FAULTS: [Row; 40] = [
    row!(11 "#21=PLANAR_FACE('',$,$,#65,#52,$,#25);" Err(Missing(21, 6))),
    row!(11 "#21=PLANAR_FACE('',$,$,#65,#52,#24,#24);" Err(Missing(21, 7))),
    row!(11 "#24=LINEAR_PATH('',$,#78);" Err(Missing(24, 2))),
    row!(11 "#24=LINEAR_PATH('',0.,$);" Err(Missing(24, 3))),
    row!(11 "#25=LINEAR_PROFILE('',#40);" Err(Missing(25, 2))),
    row!(11 "#40=MILLING_CUTTING_TOOL('',#40);" Err(Missing(40, 2))),
    row!(11 "#43=ENDMILL($);" Err(Missing(43, 1))),
    row!(11 "#48=MILLING_TOOL_DIMENSION($);" Err(Missing(48, 1))),
    row!(11 "#31=PLANE_ROUGH_MILLING((),$,$,5.,$,#40,#45,$,$,$,$,#45,$,$);" Err(Missing(31, 12))),
    row!(11 "#31=PLANE_ROUGH_MILLING($,$,$,5.,$,#40,#45,$,$,$,$,$,#40,$);" Err(Missing(31, 13))),
    row!(11 "#31=PLANE_ROUGH_MILLING($,$,$,5.,$,#40,#45,$,$,$,$,$,$,#40);" Err(Missing(31, 14))),
    row!(11 "#78=DIRECTION('',(1.,0.,0.001));" Err(BadDirection(78))),
    row!(11 "#78=DIRECTION('',(1.,1.,0.));" Err(BadDirection(78))),
    row!(11 "#78=DIRECTION('',(0.,0.,0.));" Err(BadDirection(78))),
    row!(11 "#24=LINEAR_PATH('',0.,#78);" Err(NotPositive(24, 2))),
    row!(11 "#25=LINEAR_PROFILE('',-0.001);" Err(NotPositive(25, 2))),
    row!(11 "#48=MILLING_TOOL_DIMENSION(0.);" Err(NotPositive(48, 1))),
    row!(11 "#31=PLANE_ROUGH_MILLING($,$,$,-5.,$,#40,#45,$,$,$,$,$,0.,$);" Err(NotPositive(31, 13))),
    row!(11 "#24=LINEAR_PATH('',100000.001,#78);" Err(OutOfRange(24, 2))),
    row!(11 "#25=LINEAR_PROFILE('',100000.001);" Err(OutOfRange(25, 2))),
    row!(11 "#31=PLANE_ROUGH_MILLING($,$,$,5.,$,#40,#45,$,$,$,$,$,100000.001,-0.001);" Err(OutOfRange(31, 13))),
    row!(11 "#31=PLANE_ROUGH_MILLING($,$,$,5.,$,#40,#45,$,$,$,$,$,$,2.);" Err(OutOfRange(31, 14))),
    row!(11 "#31=PLANE_ROUGH_MILLING($,$,$,5.,$,#40,#45,$,$,$,$,#36,$,$);" Err(OutOfRange(36, 1))),
    row!(11 "#31=PLANE_ROUGH_MILLING($,$,$,5.,$,#40,#45,$,$,$,$,#37,$,$);" Err(OutOfRange(37, 1))),
    row!(11 "#31=PLANE_ROUGH_MILLING((),$,$,5.,$,#40,#45,$,$,$,$,$,$,$);" Err(HasToolpath(31))),
    row!(11 "#73=CARTESIAN_POINT('',(0.,0.,0.));" Err(NotPositive(21, 5))),
    row!(10 "#30=PLANE_ROUGH_MILLING($,$,$,5.,$,#40,#45,$,$,$,$,$,$,$);" Err(Mismatch(30, 20))),
    row!(11 "#24=LINEAR_PROFILE('',100.);" Err(Missing(21, 6))),
    row!(11 "#25=LINEAR_PATH('',50.,$);" Err(Missing(21, 7))),
    row!(11 "#78=CARTESIAN_POINT('',(1.,0.,0.));" Err(Missing(24, 3))),
    row!(11 "#40=ENDMILL(#48);" Err(Missing(31, 6))),
    row!(11 "#43=PLANE('',$);" Err(Missing(40, 2))),
    row!(11 "#48=LINEAR_PROFILE('',20.);" Err(Missing(43, 1))),
    row!(17 "#78=DIRECTION('',(0.,0.,0.001));" Err(BadDirection(78))),
    row!(17 "#46=TWIST_DRILL($);" Err(Mismatch(30, 21))),
    row!(19 "#46=TWIST_DRILL($);" Err(Mismatch(32, 21))),
    row!(16 "#35=UNIDIRECTIONAL(0.999);" Err(TooManyBlocks(16, 20_019))),
    row!(16 "#48=MILLING_TOOL_DIMENSION(0.019);" Err(TooManyBlocks(16, 22_243))),
    row!(11 "#48=MILLING_TOOL_DIMENSION(0.001);" Err(TooManyBlocks(11, 100_007))),
    row!(11 "#31=PLANE_ROUGH_MILLING($,$,$,5.,$,#40,#45,$,$,$,$,$,$,-0.001);" Err(OutOfRange(31, 14))),
];

/// Faces without a fault.
const FOUND: [Row; 14] = [
    row!(11 "#46=TWIST_DRILL($);" Ok(FACED)),
    row!(11 "#31=PLANE_FINISH_MILLING($,$,$,$,$,#40,#45,$,$,$,$,#35,0.5,0.4);" Ok(finished!(false, 19_000))),
    row!(11 "#78=DIRECTION('',(-0.001,0.,0.));" Ok(faced!(-1, 0))),
    row!(11 "#78=DIRECTION('',(0.,0.007,0.));" Ok(faced!(0, 1))),
    row!(11 "#78=DIRECTION('',(0.,-100000.001,0.));" Ok(faced!(0, -1))),
    row!(11 "#43=TAPERED_ENDMILL(#48);" Ok(FACED)),
    row!(11 "#43=BALL_ENDMILL(#48);" Ok(FACED)),
    row!(11 "#43=FACEMILL(#48);" Ok(FACED)),
    row!(11 "#43=TWIST_DRILL(#48);" Ok(FACED)),
    row!(11 "#25=LINEAR_PROFILE('',#95);" Ok(FACED)),
    row!(16 "#48=MILLING_TOOL_DIMENSION(20.001);" Ok(finished!(false, 19_000))),
    row!(16 "#35=UNIDIRECTIONAL($);" Ok(finished!(false, 20_000))),
    row!(16 "#35=BIDIRECTIONAL(0.05);" Ok(finished!(true, 19_000))),
    row!(16 "#35=BIDIRECTIONAL(0.9);" Ok(finished!(true, 2_000))),
];

#[test]
fn faults_of_faces(rt: HostRuntime) -> Result<(), Fail> {
    expect_rows(&rt, rt.alloc(), &FAULTS, true)
}

#[test]
fn definitions_of_faces(rt: HostRuntime) -> Result<(), Fail> {
    expect_rows(&rt, rt.alloc(), &FOUND, true)
}
