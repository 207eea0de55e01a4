//! A long run of every kind of path and of executable, compared whole with the text that the format of logs gives it.

use crate::asked::{answered, replaced};
use controller::Status;
use nc_base::NoMemory;
use std::alloc::Global;
use std::process::Abort;
use std::test::Fail;

/// What stands before the workplan. Numbers of its elements begin at `FIRST_STEP`.
const HEAD: &str = "ISO-10303-21;\n\
    HEADER;\n\
    FILE_DESCRIPTION((''),'2;1');\n\
    FILE_NAME('LONG','',(''),(''),'','','');\n\
    FILE_SCHEMA(('MACHINING_SCHEMA'));\n\
    ENDSEC;\n\
    DATA;\n\
    #1=PROJECT('LONG',#2);\n\
    #20=ROUND_HOLE('H',$,(),#60,#51,10.);\n\
    #21=PLANAR_FACE('F',$,(),#61,#52,#80,#81);\n\
    #22=CLOSED_POCKET('P',$,(),#61,#53,(),$,$,$,$,#83);\n\
    #30=DRILLING($,$,'D',5.,$,#40,#45,$,$,$,$,$);\n\
    #31=REAMING($,$,'R',5.,$,#40,#45,$,$,$,$,0.25);\n\
    #32=PLANE_ROUGH_MILLING($,$,'F',5.,$,#41,#45,$,$,$,$,#35,$,$);\n\
    #33=PLANE_FINISH_MILLING($,$,'F',5.,$,#41,#45,$,$,$,$,#36,1.,$);\n\
    #34=BOTTOM_AND_SIDE_ROUGH_MILLING($,$,'P',5.,$,#42,#45,$,$,$,$,$,$,4.,$,$);\n\
    #35=BIDIRECTIONAL($,.T.,$,.LEFT.,$);\n\
    #36=UNIDIRECTIONAL($,.T.,$,.LEFT.);\n\
    #40=MILLING_CUTTING_TOOL('T',#43);\n\
    #41=MILLING_CUTTING_TOOL('M',#44);\n\
    #42=MILLING_CUTTING_TOOL('S',#46);\n\
    #43=TWIST_DRILL(#48);\n\
    #44=ENDMILL(#47);\n\
    #45=MILLING_TECHNOLOGY(0.040,$,$,20.);\n\
    #46=ENDMILL(#48);\n\
    #47=MILLING_TOOL_DIMENSION(20.);\n\
    #48=MILLING_TOOL_DIMENSION(10.);\n\
    #50=PLANE('SEC',#62);\n\
    #51=PLANE('D',#63);\n\
    #52=PLANE('D',#64);\n\
    #53=PLANE('D',#65);\n\
    #60=AXIS2_PLACEMENT_3D('',#70,$,$);\n\
    #61=AXIS2_PLACEMENT_3D('',#71,$,$);\n\
    #62=AXIS2_PLACEMENT_3D('',#72,$,$);\n\
    #63=AXIS2_PLACEMENT_3D('',#73,$,$);\n\
    #64=AXIS2_PLACEMENT_3D('',#74,$,$);\n\
    #65=AXIS2_PLACEMENT_3D('',#75,$,$);\n\
    #70=CARTESIAN_POINT('',(10.,20.,0.));\n\
    #71=CARTESIAN_POINT('',(0.,0.,0.));\n\
    #72=CARTESIAN_POINT('',(0.,0.,30.));\n\
    #73=CARTESIAN_POINT('',(0.,0.,-15.));\n\
    #74=CARTESIAN_POINT('',(0.,0.,-2.));\n\
    #75=CARTESIAN_POINT('',(0.,0.,-5.));\n\
    #80=LINEAR_PATH($,100.,#82);\n\
    #81=LINEAR_PROFILE($,20.);\n\
    #82=DIRECTION('',(1.,0.,0.));\n\
    #83=RECTANGULAR_CLOSED_PROFILE($,40.,20.);\n\
    #90=CHANNEL('A');\n\
    #91=CHANNEL('B');\n";

const TAIL: &str = "ENDSEC;\n\
    END-ISO-10303-21;\n";

/// The number of the first element; the others follow it.
const FIRST_STEP: u32 = 1000;

/// How many elements there are.
const STEPS: u32 = 3000;

/// The kinds of elements, which they have in turn: the instances in the file, and the lines of the log, with `@` in place of the element's number. What
/// stands in an element has that number and one more digit. The blocks were worked out by hand.
const KINDS: [(&str, &str); 13] = [
    (
        "#@=MACHINING_WORKINGSTEP('S',#50,#20,#30);\n",
        "D @ 0\n\
            B @ 0 T 40 20000\n\
            B @ 1 R 10000 20000 30000\n\
            B @ 2 R 10000 20000 5000\n\
            B @ 3 F 10000 20000 -15000 40\n\
            B @ 4 R 10000 20000 5000\n\
            B @ 5 R 10000 20000 30000\n\
            E @\n",
    ),
    (
        "#@=MACHINING_WORKINGSTEP('S',#50,#20,#31);\n",
        "D @ 0\n\
            B @ 0 T 40 20000\n\
            B @ 1 R 10000 20000 30000\n\
            B @ 2 R 10000 20000 5000\n\
            B @ 3 F 10000 20000 -15000 40\n\
            B @ 4 W 250\n\
            B @ 5 R 10000 20000 5000\n\
            B @ 6 R 10000 20000 30000\n\
            E @\n",
    ),
    (
        "#@=MACHINING_WORKINGSTEP('S',#50,#21,#32);\n",
        "D @ 0\n\
            B @ 0 T 41 20000\n\
            B @ 1 R 0 0 30000\n\
            B @ 2 R 0 0 5000\n\
            B @ 3 F 0 0 -2000 40\n\
            B @ 4 F 100000 0 -2000 40\n\
            B @ 5 F 100000 20000 -2000 40\n\
            B @ 6 F 0 20000 -2000 40\n\
            B @ 7 R 0 20000 5000\n\
            B @ 8 R 0 20000 30000\n\
            E @\n",
    ),
    (
        "#@=MACHINING_WORKINGSTEP('S',#50,#21,#33);\n",
        "D @ 0\n\
            B @ 0 T 41 20000\n\
            B @ 1 R 0 0 30000\n\
            B @ 2 R 0 0 5000\n\
            B @ 3 F 0 0 -1000 40\n\
            B @ 4 F 100000 0 -1000 40\n\
            B @ 5 F 0 20000 -1000 40\n\
            B @ 6 F 100000 20000 -1000 40\n\
            B @ 7 R 100000 20000 5000\n\
            B @ 8 R 0 0 5000\n\
            B @ 9 F 0 0 -2000 40\n\
            B @ 10 F 100000 0 -2000 40\n\
            B @ 11 F 0 20000 -2000 40\n\
            B @ 12 F 100000 20000 -2000 40\n\
            B @ 13 R 100000 20000 5000\n\
            B @ 14 R 100000 20000 30000\n\
            E @\n",
    ),
    (
        "#@=MACHINING_WORKINGSTEP('S',#50,#22,#34);\n",
        "D @ 0\n\
            B @ 0 T 42 20000\n\
            B @ 1 R -11000 -1000 30000\n\
            B @ 2 R -11000 -1000 5000\n\
            B @ 3 F -11000 -1000 -5000 40\n\
            B @ 4 F 11000 -1000 -5000 40\n\
            B @ 5 F 11000 1000 -5000 40\n\
            B @ 6 F -11000 1000 -5000 40\n\
            B @ 7 F -11000 -1000 -5000 40\n\
            B @ 8 F -15000 -5000 -5000 40\n\
            B @ 9 F 15000 -5000 -5000 40\n\
            B @ 10 F 15000 5000 -5000 40\n\
            B @ 11 F -15000 5000 -5000 40\n\
            B @ 12 F -15000 -5000 -5000 40\n\
            B @ 13 R -15000 -5000 5000\n\
            B @ 14 R -15000 -5000 30000\n\
            E @\n",
    ),
    (
        "#@=PARALLEL('P',(#@1,#@2));\n\
            #@1=DISPLAY_MESSAGE('M');\n\
            #@2=MACHINING_WORKINGSTEP('S',#50,#20,#30);\n",
        "M @1\n\
            D @2 0\n\
            B @2 0 T 40 20000\n\
            B @2 1 R 10000 20000 30000\n\
            B @2 2 R 10000 20000 5000\n\
            B @2 3 F 10000 20000 -15000 40\n\
            B @2 4 R 10000 20000 5000\n\
            B @2 5 R 10000 20000 30000\n\
            E @2\n",
    ),
    (
        "#@=NON_SEQUENTIAL('N',(#@1,#@2));\n\
            #@1=DISPLAY_MESSAGE('M');\n\
            #@2=OPTIONAL_STOP('O');\n",
        "P @ 0\nM @1\nP @ 1\nM @2\n",
    ),
    (
        "#@=SELECTIVE('N',(#@1,#@2));\n\
            #@1=DISPLAY_MESSAGE('M');\n\
            #@2=PROGRAM_STOP('O');\n",
        "P @ 0\nM @1\n",
    ),
    (
        "#@=IF_STATEMENT('I',#@1,#@2,$);\n\
            #@1=COMPARISON_EQUAL(#@3,7.);\n\
            #@2=DISPLAY_MESSAGE('M');\n\
            #@3=NC_VARIABLE('V',7.);\n",
        "T @ 1\nM @2\n",
    ),
    (
        "#@=WHILE_STATEMENT('W',#@1,#@2);\n\
            #@1=COMPARISON_LESS(#@3,3.);\n\
            #@2=ASSIGNMENT('A',#@3,#@4);\n\
            #@3=NC_VARIABLE('V',$);\n\
            #@4=!NC_SUM(#@3,1.);\n",
        "T @ 1\nA @2 1000\nT @ 1\nA @2 2000\nT @ 1\nA @2 3000\nT @ 0\n",
    ),
    (
        "#@=WORKPLAN('L',(#@1,#@2,#@3),$);\n\
            #@1=SET_MARK('S');\n\
            #@2=WAIT_FOR_MARK('W',#@1);\n\
            #@3=LOAD_TOOL('T');\n",
        "S @1\nW @2\nM @3\n",
    ),
    // The wait of channel 0 comes behind the mark of channel 1.
    (
        "#@=PARALLEL('P',(#@1,#@2));\n\
            #@1=WORKPLAN('A',(#@3),#90);\n\
            #@2=WORKPLAN('B',(#@4),#91);\n\
            #@3=WAIT_FOR_MARK('W',#@4);\n\
            #@4=SET_MARK('S');\n",
        "S @4\nW @3\n",
    ),
    (
        "#@=IF_STATEMENT('I',#@1,#@2,$);\n\
            #@1=OR_EXPRESSION(());\n\
            #@2=DISPLAY_MESSAGE('M');\n",
        "T @ 0\n",
    ),
];

/// The kind of an element.
fn kind_of(step: u32) -> (&'static str, &'static str) {
    KINDS[(step % 13) as usize]
}

/// A form with the number of an element in place of each `@`.
fn filled(alloc: Global, form: &str, step: u32) -> Result<String, NoMemory> {
    let number = FIRST_STEP.wrapping_add(step).to_string(alloc)?;
    replaced(alloc, form, "@", &number)
}

fn put_form(alloc: Global, text: &mut String, form: &str, step: u32) -> Result<(), NoMemory> {
    Ok(text.push_str(&filled(alloc, form, step)?)?)
}

/// A workplan of these elements.
fn workplan(alloc: Global) -> Result<String, NoMemory> {
    let mut text = String::from_str(alloc, "#2=WORKPLAN('MAIN',(#1000")?;
    for step in 1..STEPS {
        put_form(alloc, &mut text, ",#@", step)?;
    }
    text.push_str("),$);\n")?;
    Ok(text)
}

/// The instances of the elements.
fn workingsteps(alloc: Global) -> Result<String, NoMemory> {
    let mut text = String::new(alloc);
    for step in 0..STEPS {
        let (instance, _) = kind_of(step);
        put_form(alloc, &mut text, instance, step)?;
    }
    Ok(text)
}

/// A project of these elements.
fn project(alloc: Global) -> Result<String, NoMemory> {
    let plan = workplan(alloc)?;
    let steps = workingsteps(alloc)?;
    Ok(format!(in alloc; "{HEAD}{plan}{steps}{TAIL}")?)
}

/// The lines of all entries of its whole run.
fn entries(alloc: Global) -> Result<String, NoMemory> {
    let mut text = String::new(alloc);
    for step in 0..STEPS {
        let (_, lines) = kind_of(step);
        put_form(alloc, &mut text, lines, step)?;
    }
    Ok(text)
}

/// The log with so many of these lines, and this last one.
fn log_of(alloc: Global, lines: &str, count: usize, last: &str) -> Result<String, NoMemory> {
    let mut log = String::from_str(alloc, "STEPNC-LOG 1\n")?;
    for line in lines.lines().take(count) {
        log.push_str(line)?;
        log.push_str("\n")?;
    }
    log.push_str(last)?;
    Ok(log)
}

/// A limit, the status of the replay up to it, how many entries it has, and the log's last line.
type Row = (&'static str, Status, usize, &'static str);

const ROWS: [Row; 4] = [
    ("2000000", Status::Done, 21_246, "end done 21246\n"),
    ("21246", Status::Done, 21_246, "end done 21246\n"),
    ("21245", Status::RunLimit, 21_245, "end limit 21245\n"),
    ("20000", Status::RunLimit, 20_000, "end limit 20000\n"),
];

/// Stops unless the replay up to the row's limit gives its status, and the log with its lines.
fn expect_log(
    rt: &impl Abort,
    alloc: Global,
    project: &str,
    lines: &str,
    row: &Row,
) -> Result<(), Fail> {
    let (limit, status, count, last) = *row;
    let (said, sink) = answered(alloc, project, &["replay", "plate.stp", "-", "-", limit])?;
    let log = log_of(alloc, lines, count, last)?;
    assert_eq!(rt; said, status);
    assert!(rt; sink.bytes() == log.as_bytes(), "up to {limit} entries");
    Ok(())
}

#[test]
fn a_long_run_of_every_kind_is_written_whole(rt: HostRuntime) -> Result<(), Fail> {
    let project = project(rt.alloc())?;
    let lines = entries(rt.alloc())?;
    for row in &ROWS {
        expect_log(&rt, rt.alloc(), &project, &lines, row)?;
    }
    Ok(())
}
