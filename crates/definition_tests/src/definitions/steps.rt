//! What every workingstep has: its places, its retract, its tool and its technology.

use super::*;
use DefFault::{BadDirection, HasToolpath, Missing, NotPositive, OutOfRange};

/// What the workingsteps share: the security plane, placements, directions, measures and a technology.
pub const SHARED: &str = "#45=MILLING_TECHNOLOGY(0.04,$,$,20.);\n\
    #50=PLANE('',#61);\n\
    #60=AXIS2_PLACEMENT_3D('',#70,$,$);\n\
    #61=AXIS2_PLACEMENT_3D('',#71,$,$);\n\
    #65=AXIS2_PLACEMENT_3D('',#77,$,$);\n\
    #70=CARTESIAN_POINT('',(10.,20.,0.));\n\
    #71=CARTESIAN_POINT('',(0.,0.,30.));\n\
    #74=DIRECTION('',(0.,1.,0.));\n\
    #75=DIRECTION('',(0.,0.,1.));\n\
    #77=CARTESIAN_POINT('',(0.,0.,0.));\n\
    #78=DIRECTION('',(1.,0.,0.));\n\
    #34=TOLERANCED_LENGTH_MEASURE(22.);\n\
    #91=NUMERIC_PARAMETER('',5.);\n\
    #92=NUMERIC_PARAMETER('',-0.001);\n\
    #93=DIRECTION('',(0.,0.,-1.));\n\
    #94=DIRECTION('',(-1.,0.,0.));\n";

/// What is missing, turned or out of its range.
const FAULTS: [Row; 31] = [
    row!(10 "#10=MACHINING_WORKINGSTEP('',$,#20,#30);" Err(Missing(10, 2))),
    row!(10 "#20=ROUND_HOLE('',$,$,$,#51,10.);" Err(Missing(20, 4))),
    row!(10 "#30=DRILLING((),$,$,5.,$,#46,#45,$,$,$,$,$);" Err(Missing(30, 6))),
    row!(10 "#45=MILLING_TECHNOLOGY(0.04,$,$,$);" Err(Missing(45, 4))),
    row!(10 "#60=AXIS2_PLACEMENT_3D('',#70,#74,#70);" Err(Missing(60, 4))),
    row!(10 "#62=AXIS2_PLACEMENT_3D('',#74,$,$);" Err(Missing(62, 2))),
    row!(10 "#50=PLANE('',#70);" Err(Missing(50, 2))),
    row!(10 "#60=AXIS2_PLACEMENT_3D('',#70,#70,$);" Err(Missing(60, 3))),
    row!(10 "#20=ROUND_HOLE('',$,$,#60,#60,10.);" Err(Missing(20, 5))),
    row!(10 "#30=DRILLING($,$,$,#46,$,#44,#45,$,$,$,$,$);" Err(Missing(30, 4))),
    row!(10 "#30=DRILLING($,$,$,5.,$,#44,#44,$,$,$,$,$);" Err(Missing(30, 7))),
    row!(10 "#45=MILLING_TECHNOLOGY($,$,$,$);" Err(Missing(45, 1))),
    row!(10 "#30=DRILLING((),$,$,-5.,$,#44,#45,$,$,$,$,$);" Err(HasToolpath(30))),
    row!(10 "#60=AXIS2_PLACEMENT_3D('',#70,#74,$);" Err(BadDirection(74))),
    row!(10 "#61=AXIS2_PLACEMENT_3D('',#71,$,#75);" Err(BadDirection(75))),
    row!(10 "#72=CARTESIAN_POINT('',(0.,0.,0.));" Err(NotPositive(20, 5))),
    row!(10 "#45=MILLING_TECHNOLOGY(0.,$,$,100000.001);" Err(NotPositive(45, 1))),
    row!(10 "#71=CARTESIAN_POINT('',(0.,0.,-100000.001));" Err(OutOfRange(71, 2))),
    row!(10 "#70=CARTESIAN_POINT('',(10.,100000.001,0.));" Err(OutOfRange(70, 2))),
    row!(10 "#72=CARTESIAN_POINT('',(0.,0.,-100000.001));" Err(OutOfRange(72, 2))),
    row!(10 "#30=DRILLING($,$,$,-5.,$,#44,#45,$,$,$,$,-0.001);" Err(OutOfRange(30, 4))),
    row!(10 "#45=MILLING_TECHNOLOGY(0.04,$,$,-100000.001);" Err(OutOfRange(45, 4))),
    row!(10 "#45=MILLING_TECHNOLOGY(100000.001,$,$,100000.001);" Err(OutOfRange(45, 1))),
    row!(10 "#50=CARTESIAN_POINT('',(0.,0.,30.));" Err(Missing(10, 2))),
    row!(10 "#61=PLANE('',#71);" Err(Missing(50, 2))),
    row!(10 "#71=DIRECTION('',(0.,0.,30.));" Err(Missing(61, 2))),
    row!(10 "#44=TWIST_DRILL($);" Err(Missing(30, 6))),
    row!(10 "#60=AXIS2_PLACEMENT_3D('',#70,#93,#94);" Err(BadDirection(93))),
    row!(10 "#60=AXIS2_PLACEMENT_3D('',#70,$,#94);" Err(BadDirection(94))),
    row!(10 "#62=AXIS2_PLACEMENT_3D('',#72,$,#93);" Err(BadDirection(93))),
    row!(10 "#30=DRILLING($,$,$,#92,$,#44,#45,$,$,$,$,$);" Err(OutOfRange(30, 4))),
];

/// What is as it should be, or is not looked at.
const FOUND: [Row; 10] = [
    row!(10 "#60=AXIS2_PLACEMENT_3D('',#70,#75,$);" Ok(DRILLED)),
    row!(10 "#45=MILLING_TECHNOLOGY(0.04,$,$,20.);" Ok(DRILLED)),
    row!(10 "#61=AXIS2_PLACEMENT_3D('',#71,#75,#78);" Ok(DRILLED)),
    row!(10 "#71=CARTESIAN_POINT('',(100000.001,-100000.001,30.));" Ok(DRILLED)),
    row!(10 "#72=CARTESIAN_POINT('',(100000.001,-100000.001,-15.));" Ok(DRILLED)),
    row!(10 "#71=CARTESIAN_POINT('',(0.,0.,-100000.));" Ok(drilled!(20_000, -100_000_000, 5_000, 0, -15_000, 0))),
    row!(10 "#70=CARTESIAN_POINT('',(10.,20.,-1.));" Ok(drilled!(20_000, 30_000, 4_000, -1_000, -16_000, 0))),
    row!(10 "#30=DRILLING($,$,$,0.,$,#44,#45,$,$,$,$,$);" Ok(drilled!(20_000, 30_000, 0, 0, -15_000, 0))),
    row!(10 "#30=DRILLING($,$,$,#91,$,#44,#45,$,$,$,$,$);" Ok(DRILLED)),
    row!(10 "#45=MILLING_TECHNOLOGY(0.04,$,$,-100000.);" Ok(drilled!(-100_000_000, 30_000, 5_000, 0, -15_000, 0))),
];

#[test]
fn faults_of_steps(rt: HostRuntime) -> Result<(), Fail> {
    expect_rows(&rt, rt.alloc(), &FAULTS, true)
}

#[test]
fn definitions_of_steps(rt: HostRuntime) -> Result<(), Fail> {
    expect_rows(&rt, rt.alloc(), &FOUND, true)
}

#[test]
fn other_instances_are_no_workingsteps(rt: HostRuntime) -> Result<(), Fail> {
    let rows = [
        row!(20 "#46=TWIST_DRILL($);" Err(Missing(20, 2))),
        row!(99 "#46=TWIST_DRILL($);" Err(Missing(99, 2))),
    ];
    expect_rows(&rt, rt.alloc(), &rows, false)
}
