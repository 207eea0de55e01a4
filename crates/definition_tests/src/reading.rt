//! Projects read from bytes, slice by slice and as a whole.

use edit_rules::Project;
use nc_base::{NoMemory, Number, NumberList};
use p21_lex::LexErr;
use p21_parse::ReadErr;
use project_read::{MAX_PROJECT_BYTES, ProjectErr, ProjectReason, project_in, project_laws};
use std::alloc::{AllocError, Global};
use std::process::Abort;
use std::test::Fail;

/// One drilled hole.
const HOLE: &[u8] =
    b"ISO-10303-21;\nHEADER;\nFILE_DESCRIPTION((''),'2;1');\nFILE_NAME('A','',(''),(''),'','','');\nFILE_SCHEMA(('MACHINING_SCHEMA'));\nENDSEC;\nDATA;\n#1=PROJECT('P',#2);\n#2=WORKPLAN('MAIN',(#10),$);\n#10=MACHINING_WORKINGSTEP('WS',#50,#20,#30);\n#20=ROUND_HOLE('H',$,(),#60,#51,10.);\n#30=DRILLING($,$,'D',5.,$,#44,#45,$,$,$,$,$);\n#44=MILLING_CUTTING_TOOL('T',#46);\n#45=MILLING_TECHNOLOGY(0.040,$,$,20.);\n#46=TWIST_DRILL(#47);\n#47=MILLING_TOOL_DIMENSION(10.);\n#50=PLANE('SEC',#61);\n#51=PLANE('DEPTH',#62);\n#60=AXIS2_PLACEMENT_3D('',#70,$,$);\n#61=AXIS2_PLACEMENT_3D('',#71,$,$);\n#62=AXIS2_PLACEMENT_3D('',#72,$,$);\n#70=CARTESIAN_POINT('',(10.,20.,0.));\n#71=CARTESIAN_POINT('',(0.,0.,30.));\n#72=CARTESIAN_POINT('',(0.,0.,-15.));\nENDSEC;\nEND-ISO-10303-21;\n";

/// Three workingsteps, not in order of number, of which two drill a hole without a diameter.
const STEPS: &[u8] =
    b"ISO-10303-21;\nHEADER;\nFILE_DESCRIPTION((''),'2;1');\nFILE_NAME('A','',(''),(''),'','','');\nFILE_SCHEMA(('MACHINING_SCHEMA'));\nENDSEC;\nDATA;\n#1=PROJECT('P',#2);\n#2=WORKPLAN('MAIN',(#12,#10,#11),$);\n#10=MACHINING_WORKINGSTEP('WS',#50,#20,#30);\n#11=MACHINING_WORKINGSTEP('WS',#50,#21,#30);\n#12=MACHINING_WORKINGSTEP('WS',#50,#21,#30);\n#21=ROUND_HOLE('H',$,(),#60,#51,0.);\n#20=ROUND_HOLE('H',$,(),#60,#51,10.);\n#30=DRILLING($,$,'D',5.,$,#44,#45,$,$,$,$,$);\n#44=MILLING_CUTTING_TOOL('T',#46);\n#45=MILLING_TECHNOLOGY(0.040,$,$,20.);\n#46=TWIST_DRILL(#47);\n#47=MILLING_TOOL_DIMENSION(10.);\n#50=PLANE('SEC',#61);\n#51=PLANE('DEPTH',#62);\n#60=AXIS2_PLACEMENT_3D('',#70,$,$);\n#61=AXIS2_PLACEMENT_3D('',#71,$,$);\n#62=AXIS2_PLACEMENT_3D('',#72,$,$);\n#70=CARTESIAN_POINT('',(10.,20.,0.));\n#71=CARTESIAN_POINT('',(0.,0.,30.));\n#72=CARTESIAN_POINT('',(0.,0.,-15.));\nENDSEC;\nEND-ISO-10303-21;\n";

/// The same, all of which drill the right one.
const RIGHT_STEPS: &[u8] =
    b"ISO-10303-21;\nHEADER;\nFILE_DESCRIPTION((''),'2;1');\nFILE_NAME('A','',(''),(''),'','','');\nFILE_SCHEMA(('MACHINING_SCHEMA'));\nENDSEC;\nDATA;\n#1=PROJECT('P',#2);\n#2=WORKPLAN('MAIN',(#12,#10,#11),$);\n#10=MACHINING_WORKINGSTEP('WS',#50,#20,#30);\n#11=MACHINING_WORKINGSTEP('WS',#50,#21,#30);\n#12=MACHINING_WORKINGSTEP('WS',#50,#21,#30);\n#21=ROUND_HOLE('H',$,(),#60,#51,10.);\n#20=ROUND_HOLE('H',$,(),#60,#51,10.);\n#30=DRILLING($,$,'D',5.,$,#44,#45,$,$,$,$,$);\n#44=MILLING_CUTTING_TOOL('T',#46);\n#45=MILLING_TECHNOLOGY(0.040,$,$,20.);\n#46=TWIST_DRILL(#47);\n#47=MILLING_TOOL_DIMENSION(10.);\n#50=PLANE('SEC',#61);\n#51=PLANE('DEPTH',#62);\n#60=AXIS2_PLACEMENT_3D('',#70,$,$);\n#61=AXIS2_PLACEMENT_3D('',#71,$,$);\n#62=AXIS2_PLACEMENT_3D('',#72,$,$);\n#70=CARTESIAN_POINT('',(10.,20.,0.));\n#71=CARTESIAN_POINT('',(0.,0.,30.));\n#72=CARTESIAN_POINT('',(0.,0.,-15.));\nENDSEC;\nEND-ISO-10303-21;\n";

/// The beginning of a file whose main workplan is empty, and the end of a file.
const FRONT: &[u8] =
    b"ISO-10303-21;\nHEADER;\nFILE_DESCRIPTION((''),'2;1');\nFILE_NAME('A','',(''),(''),'','','');\nFILE_SCHEMA(('MACHINING_SCHEMA'));\nENDSEC;\nDATA;\n#1=PROJECT('P',#2);\n#2=WORKPLAN('MAIN',(),$);\n";

const BACK: &[u8] = b"ENDSEC;\nEND-ISO-10303-21;\n";

/// How many entities a text has, or why it has none. A text that is longer than any file counts as empty. It promises nothing, so that
/// its callers are proved without what reading promises.
fn count_in(alloc: Global, text: &[u8]) -> Result<usize, ProjectErr> {
    if text.len() > MAX_PROJECT_BYTES {
        return Ok(0);
    }
    let project = project_in(alloc, text)?;
    Ok(project.store().len())
}

/// Why a text is to be refused.
fn refused(refusal: ReadErr) -> Result<usize, ProjectErr> {
    Err(ProjectErr::Refused(ProjectReason::Read(refusal)))
}

fn expect_count(rt: &impl Abort, alloc: Global, text: &[u8], want: Result<usize, ProjectErr>) {
    assert_eq!(rt; count_in(alloc, text), want, "of {} bytes", text.len());
}

/// A front, a gap of so many bytes with semicolons and line ends in it, and then these parts.
fn spread(alloc: Global, gap: usize, parts: &[&[u8]]) -> Result<Vec<u8>, AllocError> {
    let mut text = Vec::from_slice(alloc, FRONT)?;
    text.extend_from_slice(b"/*")?;
    for i in 0..gap {
        text.push(match i % 40 {
            38 => b';',
            39 => b'\n',
            _ => b'.',
        })?;
    }
    text.extend_from_slice(b"*/")?;
    for part in parts {
        text.extend_from_slice(part)?;
    }
    Ok(text)
}

/// What may stand where a slice has bytes enough: texts, comments and numbers that a careless cut would part, and a complex instance.
const STRADDLING: &[&[u8]] = &[
    b"",
    b"#9=CARTESIAN_POINT('a;\\X\\0A;''b;',(1.5E+1,2.5,-3.E0));\n",
    b"#9=CARTESIAN_POINT('',(1.,2.,3.))/*;\n*;/*/;/*#9;*/\n",
    b"#9=(FIRST('x;',(1.5E2))SECOND(.T.)THIRD(\"0F\"));",
    b"#9 = UNKNOWN_THING ( ( ( 1.0E+10 , !KIND(2.) ) ) , .ENUM. , * , $ ) ;\n\n",
];

/// A slice has enough bytes within the part, at each of its bytes, or within the end of the file.
fn expect_straddling(rt: &impl Abort, alloc: Global, part: &[u8], want: usize) -> Result<(), Fail> {
    for gap in 65_340..65_500 {
        let text = spread(alloc, gap, &[part, BACK])?;
        expect_count(rt, alloc, text.as_slice(), Ok(want));
    }
    Ok(())
}

#[test]
fn what_straddles_two_slices_is_read(rt: HostRuntime) -> Result<(), Fail> {
    for part in STRADDLING {
        let want = if part.is_empty() { 2 } else { 3 };
        expect_straddling(&rt, rt.alloc(), part, want)?;
    }
    Ok(())
}

#[test]
fn laws_of_projects_can_be_cited() {
    project_laws();
}

/// Why a file is refused for what stands behind its first slice.
#[derive(Clone, Copy)]
enum Late {
    BadByte,
    Syntax,
    Twice,
}

fn refusal(late: Late, place: u32) -> ReadErr {
    match late {
        Late::BadByte => ReadErr::Lex(LexErr::BadByte(place)),
        Late::Syntax => ReadErr::Syntax(place),
        Late::Twice => ReadErr::Duplicate(2),
    }
}

/// Parts behind the first slice, and why the file is refused for them: the refusal's place is so many bytes before the text's end.
const LATE: [(&[&[u8]], Late, usize); 6] = [
    (&[b"@", BACK], Late::BadByte, 1 + BACK.len()),
    (&[b"#9=A();\n", BACK, b"@"], Late::BadByte, 1),
    (&[b"#9=A(;\n", BACK], Late::Syntax, 2 + BACK.len()),
    (&[b"END-ISO-10303-21;\n"], Late::Syntax, 18),
    (&[b"ENDSEC;\n"], Late::Syntax, 0),
    (&[b"#2=CHANNEL('0');\n", BACK], Late::Twice, 0),
];

fn expect_late(
    rt: &impl Abort,
    alloc: Global,
    parts: &[&[u8]],
    late: Late,
    before_end: usize,
) -> Result<(), Fail> {
    let text = spread(alloc, 70_000, parts)?;
    let place = u32::try_from(text.len().saturating_sub(before_end)).unwrap_or(0);
    expect_count(rt, alloc, text.as_slice(), refused(refusal(late, place)));
    Ok(())
}

#[test]
fn faults_behind_a_slice_keep_their_places(rt: HostRuntime) -> Result<(), Fail> {
    for (parts, late, before_end) in &LATE {
        expect_late(&rt, rt.alloc(), *parts, *late, *before_end)?;
    }
    Ok(())
}

/// So many lines of a form, with a number in place of each `@` and the next in place of each `%`. Numbers go by a step.
fn numbered(
    alloc: Global,
    form: &str,
    first: u32,
    step: u32,
    count: u32,
) -> Result<Vec<u8>, AllocError> {
    let mut text = Vec::new(alloc);
    let mut number = first;
    for _ in 0..count {
        let next = number.wrapping_add(step);
        let line = with_numbers(alloc, form, number, next)?;
        text.extend_from_slice(line.as_bytes())?;
        number = next;
    }
    Ok(text)
}

fn with_numbers(alloc: Global, form: &str, number: u32, next: u32) -> Result<String, AllocError> {
    let line = form.replace(alloc, "@", &number.to_string(alloc)?)?;
    line.replace(alloc, "%", &next.to_string(alloc)?)
}

/// A file of these parts.
fn file(alloc: Global, parts: &[&[u8]]) -> Result<Vec<u8>, AllocError> {
    let mut text = Vec::from_slice(alloc, FRONT)?;
    for part in parts {
        text.extend_from_slice(part)?;
    }
    text.extend_from_slice(BACK)?;
    Ok(text)
}

#[test]
fn a_file_without_line_ends_is_read(rt: HostRuntime) -> Result<(), Fail> {
    let points = numbered(
        rt.alloc(),
        "#@=CARTESIAN_POINT('a;b',(1.,2.5,-3.));",
        3,
        1,
        20_000,
    )?;
    let text = file(rt.alloc(), &[&points])?;
    expect_count(&rt, rt.alloc(), text.as_slice(), Ok(20_002));
    Ok(())
}

/// 199,900 planes whose numbers are apart by a power of two, each of which refers to the next and the last to #2; then a part, and what
/// the file is read to.
const FAR_APART: [(&[u8], Result<usize, ProjectErr>); 2] = [
    (b"", Ok(199_902)),
    (
        b"#8195=CHANNEL('0');\n",
        Err(ProjectErr::Refused(ProjectReason::Read(ReadErr::Duplicate(8_195)))),
    ),
];

fn far_apart<'a>(alloc: Global, planes: &'a [u8], part: &'a [u8]) -> Result<Vec<u8>, AllocError> {
    file(alloc, &[planes, b"#1637572611=PLANE('',#2);\n", part])
}

#[test]
fn numbers_far_apart_are_read(rt: HostRuntime) -> Result<(), Fail> {
    let planes = numbered(rt.alloc(), "#@=PLANE('',#%);\n", 3, 8_192, 199_899)?;
    for (part, want) in FAR_APART {
        let text = far_apart(rt.alloc(), &planes, part)?;
        expect_count(&rt, rt.alloc(), text.as_slice(), want);
    }
    Ok(())
}

/// The project in a text, which is no longer than a file may be.
fn project(rt: &impl Abort, alloc: Global, text: &[u8]) -> Result<Project, Fail> {
    assert!(rt; text.len() <= MAX_PROJECT_BYTES);
    Ok(project_in(alloc, text)?)
}

/// What an entity of a project uses, itself among them.
fn reached(project: &Project, alloc: Global, n: u32) -> Result<NumberList, NoMemory> {
    project.store().closure(alloc, n)
}

fn reached_count(project: &Project, alloc: Global, n: u32) -> Result<u32, NoMemory> {
    Ok(reached(project, alloc, n)?.len())
}

fn expect_counts(
    rt: &impl Abort,
    alloc: Global,
    project: &Project,
    counts: &[(u32, u32)],
) -> Result<(), Fail> {
    for (n, count) in counts {
        assert_eq!(rt; reached_count(project, alloc, *n)?, *count);
    }
    Ok(())
}

/// Stops unless a file of these parts has 200,000 entities, and these entities use so many.
fn expect_reached(
    rt: &impl Abort,
    alloc: Global,
    parts: &[&[u8]],
    counts: &[(u32, u32)],
) -> Result<(), Fail> {
    let text = file(alloc, parts)?;
    let project = project(rt, alloc, text.as_slice())?;
    assert_eq!(rt; project.store().len(), 200_000);
    expect_counts(rt, alloc, &project, counts)
}

/// 199,997 planes from number 3 on, each of which refers to the next, and a channel as the last.
#[test]
fn what_a_chain_uses_is_found(rt: HostRuntime) -> Result<(), Fail> {
    let planes = numbered(rt.alloc(), "#@=PLANE('',#%);\n", 3, 1, 199_997)?;
    expect_reached(
        &rt,
        rt.alloc(),
        &[&planes, b"#200000=CHANNEL('0');\n"],
        &[(3, 199_998), (200_000, 1)],
    )
}

/// 199,997 points from number 4 on, and a line through all of them.
#[test]
fn what_a_star_uses_is_found(rt: HostRuntime) -> Result<(), Fail> {
    let others = numbered(rt.alloc(), ",#@", 5, 1, 199_996)?;
    let points = numbered(rt.alloc(), "#@=CARTESIAN_POINT('',(0.));\n", 4, 1, 199_997)?;
    expect_reached(
        &rt,
        rt.alloc(),
        &[b"#3=POLYLINE('',(#4", &others, b"));\n", &points],
        &[(3, 199_998)],
    )
}

/// The main workplan of a project, and how many nodes its tree, workingsteps and entities it has.
fn sizes(project: &Project) -> (u32, u32, usize, usize) {
    (
        project.tree().main_workplan(),
        project.tree().len(),
        project.steps().len(),
        project.store().len(),
    )
}

#[test]
fn a_drilled_hole_is_read(rt: HostRuntime) -> Result<(), Fail> {
    let project = project(&rt, rt.alloc(), HOLE)?;
    assert_eq!(&rt; sizes(&project), (2, 2, 1, 17));
    assert_eq!(&rt;
        reached(&project, rt.alloc(), 10)?.as_slice(),
        [10, 20, 30, 44, 45, 46, 47, 50, 51, 60, 61, 62, 70, 71, 72].as_slice()
    );
    Ok(())
}

#[test]
fn an_empty_file_is_refused(rt: HostRuntime) {
    expect_count(&rt, rt.alloc(), b"", refused(ReadErr::Syntax(0)));
}

/// The number of the workingstep for whose definition a text is refused.
fn faulty_in(alloc: Global, text: &[u8]) -> Option<u32> {
    if text.len() > MAX_PROJECT_BYTES {
        return None;
    }
    match project_in(alloc, text) {
        Err(ProjectErr::Refused(ProjectReason::Definition(n, _))) => Some(n),
        _ => None,
    }
}

#[test]
fn the_least_faulty_step_is_told(rt: HostRuntime) {
    assert_eq!(&rt; faulty_in(rt.alloc(), STEPS), Some(11));
}

/// The numbers of a project's workingsteps, in their order.
fn step_numbers(alloc: Global, project: &Project) -> Result<Vec<Number>, AllocError> {
    project
        .steps()
        .iter()
        .map(|step| step.number)
        .collect(alloc)
}

#[test]
fn steps_stand_in_the_order_of_the_plan(rt: HostRuntime) -> Result<(), Fail> {
    let project = project(&rt, rt.alloc(), RIGHT_STEPS)?;
    let numbers = step_numbers(rt.alloc(), &project)?;
    assert_eq!(&rt; numbers.as_slice(), [12, 10, 11].as_slice());
    Ok(())
}

/// The tool of the definition that a project has of a workingstep.
fn tool_of(project: &Project, n: Number) -> Option<Number> {
    match project.definition(n) {
        Some(def) => Some(def.tool),
        None => None,
    }
}

#[test]
fn definitions_are_found_by_number(rt: HostRuntime) -> Result<(), Fail> {
    let project = project(&rt, rt.alloc(), RIGHT_STEPS)?;
    project.sound();
    for n in [10, 11, 12] {
        assert_eq!(&rt; tool_of(&project, n), Some(44));
    }
    for n in [0, 2, 9, 20] {
        assert_eq!(&rt; tool_of(&project, n), None);
    }
    Ok(())
}

#[test]
fn a_project_gives_its_store_and_tree(rt: HostRuntime) -> Result<(), Fail> {
    let (store, tree) = project(&rt, rt.alloc(), HOLE)?.parts();
    assert_eq!(&rt; (store.len(), tree.len()), (17, 2));
    Ok(())
}
