//! Whole texts, of which each was written down by hand from the draws.

use big_case::text;
use edit_script::{ScriptErr, read as read_script};
use nc_base::{NcText, NoMemory};
use p21_lex::MAX_TEXT;
use p21_parse::{Exchange, ReadErr, read};
use p21_print::{PrintErr, print};
use std::alloc::{AllocError, Global};
use std::fmt::Debug;
use std::process::Abort;
use std::test::Fail;

// What every project begins with.
const FRONT: &[u8] = b"\
    ISO-10303-21;\n\
    HEADER;\n\
    FILE_DESCRIPTION((''),'2;1');\n\
    FILE_NAME('','',(''),(''),'','','');\n\
    FILE_SCHEMA((''));\n\
    ENDSEC;\n\
    DATA;\n\
    #1=CHANNEL('0');\n\
    #2=CHANNEL('1');\n\
    #3=CHANNEL('2');\n\
    #4=PROJECT('big',#5);\n\
    #5=WORKPLAN('main',(#6),$);\n\
    #6=PARALLEL('p',(#7,#8,#9));\n\
";

// The workplans of one workingstep, and of three.
const ALONE: &[u8] = b"\
    #7=WORKPLAN('w',(#1000,#10),#1);\n\
    #8=WORKPLAN('w',(#12,#11),#2);\n\
    #9=WORKPLAN('w',(#13),#3);\n\
";

const THREE: &[u8] = b"\
    #7=WORKPLAN('w',(#1000,#10),#1);\n\
    #8=WORKPLAN('w',(#12,#1020,#11),#2);\n\
    #9=WORKPLAN('w',(#1040,#13),#3);\n\
";

// What all workingsteps share.
const SHARED: &[u8] = b"\
    #10=SET_MARK('m');\n\
    #11=SET_MARK('m');\n\
    #12=WAIT_FOR_MARK('m',#10);\n\
    #13=WAIT_FOR_MARK('m',#11);\n\
    #20=PLANE('',#21);\n\
    #21=AXIS2_PLACEMENT_3D('',#22,$,$);\n\
    #22=CARTESIAN_POINT('',(0.,0.,30.));\n\
    #30=MILLING_CUTTING_TOOL('t',#31);\n\
    #31=ENDMILL(#32);\n\
    #32=MILLING_TOOL_DIMENSION(10.);\n\
    #33=MILLING_TECHNOLOGY(0.04,$,$,20.);\n\
";

// From 0 on the draws are 0, 21468, 9988, 22117, and then 3498, 16927, 16045, 19741, and 12122, 8410, 12261, 27052: a hole, a hole, a face.
const FIRST_OF_0: &[u8] = b"\
    #1000=MACHINING_WORKINGSTEP('s',#20,#1001,#1002);\n\
    #1001=ROUND_HOLE('f',$,(),#1003,#1005,10.);\n\
    #1002=DRILLING($,$,'o',5.,$,#30,#33);\n\
    #1003=AXIS2_PLACEMENT_3D('',#1004,$,$);\n\
    #1004=CARTESIAN_POINT('',(468.,988.,0.));\n\
    #1005=PLANE('',#1006);\n\
    #1006=AXIS2_PLACEMENT_3D('',#1007,$,$);\n\
    #1007=CARTESIAN_POINT('',(0.,0.,-18.));\n\
";

const OTHERS_OF_0: &[u8] = b"\
    #1020=MACHINING_WORKINGSTEP('s',#20,#1021,#1022);\n\
    #1021=ROUND_HOLE('f',$,(),#1023,#1025,10.);\n\
    #1022=DRILLING($,$,'o',5.,$,#30,#33);\n\
    #1023=AXIS2_PLACEMENT_3D('',#1024,$,$);\n\
    #1024=CARTESIAN_POINT('',(927.,45.,0.));\n\
    #1025=PLANE('',#1026);\n\
    #1026=AXIS2_PLACEMENT_3D('',#1027,$,$);\n\
    #1027=CARTESIAN_POINT('',(0.,0.,-42.));\n\
    #1040=MACHINING_WORKINGSTEP('s',#20,#1041,#1042);\n\
    #1041=PLANAR_FACE('f',$,(),#1043,#1045,#1048,#1049);\n\
    #1042=PLANE_ROUGH_MILLING($,$,'o',5.,$,#30,#33,$,$,$,$,$,5.,$);\n\
    #1043=AXIS2_PLACEMENT_3D('',#1044,$,$);\n\
    #1044=CARTESIAN_POINT('',(410.,261.,0.));\n\
    #1045=PLANE('',#1046);\n\
    #1046=AXIS2_PLACEMENT_3D('',#1047,$,$);\n\
    #1047=CARTESIAN_POINT('',(0.,0.,-3.));\n\
    #1048=LINEAR_PATH($,100.,#1050);\n\
    #1049=LINEAR_PROFILE($,50.);\n\
    #1050=DIRECTION('',(1.,0.,0.));\n\
";

// From 7 on they are 19564, 9806, 10868, 22674, and then 32531, 3365, 32034, 31790, and 7985, 10913, 11213, 25363: a pocket, a face, a face.
const FIRST_OF_7: &[u8] = b"\
    #1000=MACHINING_WORKINGSTEP('s',#20,#1001,#1002);\n\
    #1001=CLOSED_POCKET('f',$,(),#1003,#1005,(),$,$,$,$,#1008);\n\
    #1002=BOTTOM_AND_SIDE_ROUGH_MILLING($,$,'o',5.,$,#30,#33,$,$,$,$,$,5.,4.,$,$);\n\
    #1003=AXIS2_PLACEMENT_3D('',#1004,$,$);\n\
    #1004=CARTESIAN_POINT('',(806.,868.,0.));\n\
    #1005=PLANE('',#1006);\n\
    #1006=AXIS2_PLACEMENT_3D('',#1007,$,$);\n\
    #1007=CARTESIAN_POINT('',(0.,0.,-25.));\n\
    #1008=RECTANGULAR_CLOSED_PROFILE($,40.,20.);\n\
";

const OTHERS_OF_7: &[u8] = b"\
    #1020=MACHINING_WORKINGSTEP('s',#20,#1021,#1022);\n\
    #1021=PLANAR_FACE('f',$,(),#1023,#1025,#1028,#1029);\n\
    #1022=PLANE_ROUGH_MILLING($,$,'o',5.,$,#30,#33,$,$,$,$,$,5.,$);\n\
    #1023=AXIS2_PLACEMENT_3D('',#1024,$,$);\n\
    #1024=CARTESIAN_POINT('',(365.,34.,0.));\n\
    #1025=PLANE('',#1026);\n\
    #1026=AXIS2_PLACEMENT_3D('',#1027,$,$);\n\
    #1027=CARTESIAN_POINT('',(0.,0.,-41.));\n\
    #1028=LINEAR_PATH($,100.,#1030);\n\
    #1029=LINEAR_PROFILE($,50.);\n\
    #1030=DIRECTION('',(1.,0.,0.));\n\
    #1040=MACHINING_WORKINGSTEP('s',#20,#1041,#1042);\n\
    #1041=PLANAR_FACE('f',$,(),#1043,#1045,#1048,#1049);\n\
    #1042=PLANE_ROUGH_MILLING($,$,'o',5.,$,#30,#33,$,$,$,$,$,5.,$);\n\
    #1043=AXIS2_PLACEMENT_3D('',#1044,$,$);\n\
    #1044=CARTESIAN_POINT('',(913.,213.,0.));\n\
    #1045=PLANE('',#1046);\n\
    #1046=AXIS2_PLACEMENT_3D('',#1047,$,$);\n\
    #1047=CARTESIAN_POINT('',(0.,0.,-14.));\n\
    #1048=LINEAR_PATH($,100.,#1050);\n\
    #1049=LINEAR_PROFILE($,50.);\n\
    #1050=DIRECTION('',(1.,0.,0.));\n\
";

const END: &[u8] = b"ENDSEC;\nEND-ISO-10303-21;\n";

// Steps, start, and the parts of the project's text.
const PROJECTS: &[(u32, u32, &[&[u8]])] = &[
    (1, 0, &[FRONT, ALONE, SHARED, FIRST_OF_0, END]),
    (1, 7, &[FRONT, ALONE, SHARED, FIRST_OF_7, END]),
    (3, 0, &[FRONT, THREE, SHARED, FIRST_OF_0, OTHERS_OF_0, END]),
    (3, 7, &[FRONT, THREE, SHARED, FIRST_OF_7, OTHERS_OF_7, END]),
];

// Steps, start, and the script: below ten workingsteps there is none. Behind the draws of 10 workingsteps from 0 on come 23479, 9992; of 20 from 7 on 10483, 7265, 2587, 20235.
const SCRIPTS: &[(u32, u32, &[u8])] = &[
    (1, 0, b""),
    (9, 7, b""),
    (
        10,
        0,
        b"\
        EDIT AT 0; #1187=CARTESIAN_POINT('',(0.,0.,-43.)); ENDEDIT;\n\
    ",
    ),
    (
        20,
        7,
        b"\
        EDIT AT 0; #1067=CARTESIAN_POINT('',(0.,0.,-16.)); ENDEDIT;\n\
        EDIT AT 20; #1147=CARTESIAN_POINT('',(0.,0.,-36.)); ENDEDIT;\n\
    ",
    ),
];

/// Parts one behind the other.
fn joined(alloc: Global, parts: &[&[u8]]) -> Result<Vec<u8>, AllocError> {
    let mut text = Vec::new(alloc);
    for part in parts {
        text.extend_from_slice(part)?;
    }
    Ok(text)
}

/// The two texts. It promises nothing, so that its callers are proved without what `text` promises.
fn texts(
    rt: &impl Abort,
    alloc: Global,
    steps: u32,
    start: u32,
) -> Result<(NcText, NcText), NoMemory> {
    assert!(rt; 1 <= steps && steps <= 1_000 && start <= 9_999_999);
    text(alloc, steps, start)
}

/// What a text holds, or why it is refused.
fn read_text(rt: &impl Abort, alloc: Global, text: &[u8]) -> Result<Exchange, ReadErr> {
    assert!(rt; text.len() <= MAX_TEXT as usize);
    read(alloc, text)
}

/// How many edits a script has, or why it is refused.
fn edit_count(rt: &impl Abort, alloc: Global, text: &[u8]) -> Result<u32, ScriptErr> {
    assert!(rt; text.len() <= MAX_TEXT as usize);
    Ok(read_script(alloc, text)?.len())
}

/// What is printed.
fn printed(alloc: Global, exchange: &Exchange) -> Result<Vec<u8>, PrintErr> {
    print(alloc, exchange)
}

/// Stops unless the two are equal.
fn expect<T: PartialEq + Debug + Drop>(rt: &impl Abort, found: T, wanted: T) {
    assert_eq!(rt; found, wanted);
}

#[test]
fn projects_are_those_of_the_draws(rt: HostRuntime) -> Result<(), Fail> {
    for (steps, start, parts) in PROJECTS {
        let (project, _) = texts(&rt, rt.alloc(), *steps, *start)?;
        let wanted = joined(rt.alloc(), *parts)?;
        expect(&rt, project.bytes(), wanted.as_slice());
    }
    Ok(())
}

#[test]
fn scripts_are_those_of_the_draws_behind(rt: HostRuntime) -> Result<(), Fail> {
    for (steps, start, wanted) in SCRIPTS {
        let (_, script) = texts(&rt, rt.alloc(), *steps, *start)?;
        expect(&rt, script.bytes(), *wanted);
    }
    Ok(())
}

// Of 1,000 workingsteps there are the 20 instances that all share, and between 8,000 and 11,000 of their own.
#[test]
fn what_is_written_is_read_again(rt: HostRuntime) -> Result<(), Fail> {
    for (steps, start) in [(1, 0), (30, 7), (1_000, 9_999_999)] {
        let (project, script) = texts(&rt, rt.alloc(), steps, start)?;
        let exchange = read_text(&rt, rt.alloc(), project.bytes())?;
        let count = exchange.items.len();
        assert!(rt;
            20 + 8 * steps <= count && count <= 20 + 11 * steps,
            "{count} instances"
        );
        expect(
            &rt,
            printed(rt.alloc(), &exchange)?.as_slice(),
            project.bytes(),
        );
        expect(
            &rt,
            edit_count(&rt, rt.alloc(), script.bytes())?,
            steps / 10,
        );
    }
    Ok(())
}
