//! What the controller answers to words and files.

use crate::asked::{
    BIG, PATH, REPLAY, answered, changed, expect, files_with, status_of, top_status_of,
};
use crate::projects::{
    FACE, FACE_PATH, HOLE, HOLE_LOG, HOLE_LOG_OF_SEVEN, HOLE_PATH, PLATE, POCKET, POCKET_PATH,
    TWO_HOLES,
};
use controller::{LogReason, ScriptReason, Status};
use nc_base::NoMemory;
use nc_outside::{MemoryFiles, MemorySink};
use project_read::ProjectReason;
use std::alloc::Global;
use std::process::Abort;
use std::test::Fail;
use step_def::DefFault;

/// What is to be written: a text, a text with this beginning or this end, or so many lines.
#[derive(Clone, Copy)]
enum Wanted {
    Text(&'static str),
    Front(&'static str),
    End(&'static str),
    Lines(usize),
}

use Wanted::{End, Front, Lines, Text};

/// Parts of a text, and what is put in place of each.
type Changes = &'static [(&'static str, &'static str)];

/// What `plate.stp` holds, with its changes; words; the status that they give, and what they write.
type Row = (
    &'static str,
    Changes,
    &'static [&'static str],
    Status,
    Wanted,
);

fn is_wanted(bytes: &[u8], wanted: Wanted) -> bool {
    match wanted {
        Text(text) => bytes == text.as_bytes(),
        Front(text) => bytes.starts_with(text.as_bytes()),
        End(text) => bytes.ends_with(text.as_bytes()),
        Lines(count) => bytes.iter().filter(|b| **b == b'\n').count() == count,
    }
}

/// Stops unless the row's words give its status and write what it says.
fn expect_row(rt: &impl Abort, alloc: Global, row: &Row) -> Result<(), Fail> {
    let (text, changes, words, status, wanted) = *row;
    let text = changed(alloc, text, changes)?;
    let (said, sink) = answered(alloc, &text, words)?;
    assert_eq!(rt; said, status, "of {words:?}");
    assert!(rt; is_wanted(sink.bytes(), wanted), "of {words:?}");
    Ok(())
}

fn expect_rows(rt: &impl Abort, alloc: Global, rows: &[Row]) -> Result<(), Fail> {
    for row in rows {
        expect_row(rt, alloc, row)?;
    }
    Ok(())
}

const RUNS: [Row; 9] = [
    (HOLE, &[], &REPLAY, Status::Done, Text(HOLE_LOG)),
    (
        HOLE,
        &[],
        &["replay", "plate.stp", "-", "-", "8"],
        Status::Done,
        Text(HOLE_LOG),
    ),
    (
        HOLE,
        &[],
        &["replay", "plate.stp", "-", "-", "7"],
        Status::RunLimit,
        Text(HOLE_LOG_OF_SEVEN),
    ),
    // An empty plan.
    (
        HOLE,
        &[("(#10),$", "(),$")],
        &REPLAY,
        Status::Done,
        Text("STEPNC-LOG 1\nend done 0\n"),
    ),
    // The main workplan's channel is named for display alone.
    (
        HOLE,
        &[("(#10),$", "(#10),#3);\n#3=CHANNEL('0'")],
        &REPLAY,
        Status::Done,
        Text(HOLE_LOG),
    ),
    // What isn't a workingstep directly in the main workplan.
    (
        HOLE,
        &[("(#10),$);", "(#10,#3),$);\n#3=SET_MARK('S');")],
        &REPLAY,
        Status::Done,
        End("E 10\nS 3\nend done 9\n"),
    ),
    (
        HOLE,
        &[("(#10),$);", "(#3),$);\n#3=WORKPLAN('INNER',(#10),$);")],
        &REPLAY,
        Status::Done,
        Text(HOLE_LOG),
    ),
    (
        HOLE,
        &[(
            "(#10),$);",
            "(#10,#3),$);\n#3=PARALLEL('BOTH',(#4));\n#4=SET_MARK('S');",
        )],
        &REPLAY,
        Status::Done,
        End("E 10\nS 4\nend done 9\n"),
    ),
    (
        PLATE,
        &[],
        &["replay", "plate.stp", "-", "-", "1000"],
        Status::Done,
        End("end done 144\n"),
    ),
];

#[test]
fn projects_are_run_up_to_the_limit(rt: HostRuntime) -> Result<(), Fail> {
    expect_rows(&rt, rt.alloc(), &RUNS)
}

const PATHS: [Row; 10] = [
    (HOLE, &[], &PATH, Status::Written, Text(HOLE_PATH)),
    (FACE, &[], &PATH, Status::Written, Text(FACE_PATH)),
    (POCKET, &[], &PATH, Status::Written, Text(POCKET_PATH)),
    (
        PLATE,
        &[],
        &["path", "plate.stp", "10"],
        Status::Written,
        Lines(35),
    ),
    (
        PLATE,
        &[],
        &["path", "plate.stp", "11"],
        Status::Written,
        Lines(6),
    ),
    (
        PLATE,
        &[],
        &["path", "plate.stp", "12"],
        Status::Written,
        Lines(7),
    ),
    (
        PLATE,
        &[],
        &["path", "plate.stp", "13"],
        Status::Written,
        Lines(88),
    ),
    // A step that stands deeper in the tree has its path as well.
    (
        HOLE,
        &[("(#10),$);", "(#3),$);\n#3=WORKPLAN('INNER',(#10),$);")],
        &PATH,
        Status::Written,
        Text(HOLE_PATH),
    ),
    // The smallest pocket, and the one with the most blocks.
    (
        POCKET,
        &[("$,40.,20.)", "$,10.,10.)")],
        &PATH,
        Status::Written,
        Lines(10),
    ),
    (
        POCKET,
        &[
            ("$,40.,20.)", "$,17.996,40.)"),
            ("$,4.,$,$)", "$,0.001,$,$)"),
        ],
        &PATH,
        Status::Written,
        Lines(20_000),
    ),
];

#[test]
fn paths_are_written_block_by_block(rt: HostRuntime) -> Result<(), Fail> {
    expect_rows(&rt, rt.alloc(), &PATHS)
}

const HELP: [Row; 2] = [
    (
        HOLE,
        &[],
        &["--version"],
        Status::Written,
        Text("stepnc 0.1.0\n"),
    ),
    (
        HOLE,
        &[],
        &["--help"],
        Status::Written,
        Front("stepnc runs a STEP-NC project"),
    ),
];

#[test]
fn help_and_version_are_written(rt: HostRuntime) -> Result<(), Fail> {
    expect_rows(&rt, rt.alloc(), &HELP)
}

/// Two holes: the second is bad, and the first of them too, in either order of the plan. And numbers of no workingstep.
const STEPS: [Row; 5] = [
    (
        TWO_HOLES,
        &[
            ("#60,#52,10.", "#60,#52,-10."),
            ("#60,#51,10.", "#60,#51,-1."),
        ],
        &REPLAY,
        Status::ProjectRefused(ProjectReason::Definition(10, DefFault::NotPositive(20, 6))),
        Text("refused Definition 10 NotPositive 20 6\n"),
    ),
    (
        TWO_HOLES,
        &[
            ("#60,#52,10.", "#60,#52,-10."),
            ("#60,#51,10.", "#60,#51,-1."),
            ("(#10,#11)", "(#11,#10)"),
        ],
        &REPLAY,
        Status::ProjectRefused(ProjectReason::Definition(10, DefFault::NotPositive(20, 6))),
        Text("refused Definition 10 NotPositive 20 6\n"),
    ),
    (
        HOLE,
        &[("(#10),$", "(),$")],
        &PATH,
        Status::ProjectRefused(ProjectReason::NoStep(10)),
        Text("refused NoStep 10\n"),
    ),
    (
        HOLE,
        &[],
        &["path", "plate.stp", "20"],
        Status::ProjectRefused(ProjectReason::NoStep(20)),
        Text("refused NoStep 20\n"),
    ),
    (
        HOLE,
        &[],
        &["path", "plate.stp", "2147483647"],
        Status::ProjectRefused(ProjectReason::NoStep(2_147_483_647)),
        Text("refused NoStep 2147483647\n"),
    ),
];

#[test]
fn the_least_faulty_step_is_named_and_no_step_that_is_none(rt: HostRuntime) -> Result<(), Fail> {
    expect_rows(&rt, rt.alloc(), &STEPS)
}

/// Words that aren't a line of the table, with their bad place.
macro_rules! bad {
    ($words:expr, $place:literal) => {
        (
            HOLE,
            &[],
            &$words,
            Status::BadWords($place),
            Text(concat!("refused BadWords ", $place, "\n")),
        )
    };
}

const BAD_WORDS: [Row; 43] = [
    bad!([], 0),
    bad!(["fly"], 0),
    bad!(["replay"], 1),
    bad!(["replay", "plate.stp", "-", "-"], 4),
    bad!(["replay", "plate.stp", "-", "-", "007"], 4),
    bad!(["replay", "plate.stp", "-", "-", "0"], 4),
    bad!(["replay", "plate.stp", "-", "-", "2000001"], 4),
    bad!(["replay", "plate.stp", "-", "-", "1e3"], 4),
    bad!(["replay", "plate.stp", "", "-", "100"], 2),
    bad!(["replay", "", "-", "-", "100"], 1),
    bad!(["replay", "plate.stp", "-"], 3),
    bad!(["replay", "plate.stp", "-", "", "100"], 3),
    bad!(["replay", "plate.stp", "-", "turns"], 4),
    bad!(["replay", "plate.stp", "-", "turns", "007"], 4),
    bad!(["replay", "plate.stp", "-", "-", "100", "more"], 5),
    bad!(["path", "plate.stp"], 2),
    bad!(["path", "plate.stp", "010"], 2),
    bad!(["path", "plate.stp", "0"], 2),
    bad!(["path", "plate.stp", "2147483648"], 2),
    bad!(["path", "plate.stp", "12345678901"], 2),
    bad!(["path", "", "10"], 1),
    bad!(["path", "plate.stp", "10", "20"], 3),
    bad!(["big"], 1),
    bad!(["big", "0", "0"], 1),
    bad!(["big", "1001", "0"], 1),
    bad!(["big", "010", "0"], 1),
    bad!(["big", "", "0"], 1),
    bad!(["big", "1"], 2),
    bad!(["big", "1", ""], 2),
    bad!(["big", "1", "00"], 2),
    bad!(["big", "1", "10000000"], 2),
    bad!(["big", "1", "x"], 2),
    bad!(["big", "1", "0", "0"], 3),
    bad!(["check"], 1),
    bad!(["check", "plate.stp"], 2),
    bad!(["check", "plate.stp", "-"], 3),
    bad!(["check", "", "-", "log"], 1),
    bad!(["check", "plate.stp", "", "log"], 2),
    bad!(["check", "plate.stp", "-", ""], 3),
    bad!(["check", "plate.stp", "-", "log", "100"], 4),
    bad!(["check", "plate.stp", "-", "log", "-", "-"], 4),
    bad!(["--help", "me"], 1),
    bad!(["--version", "me"], 1),
];

#[test]
fn bad_words_are_refused_at_their_place(rt: HostRuntime) -> Result<(), Fail> {
    expect_rows(&rt, rt.alloc(), &BAD_WORDS)
}

/// What `plate.stp` holds, with its changes, and the reason for which it is refused whatever the words ask of it.
type Refused = (&'static str, Changes, &'static str);

const REFUSED: [Refused; 28] = [
    (
        HOLE,
        &[("#51,10.)", "#51,111111111111111111111111111111111111111)")],
        "NumberTooLong 265",
    ),
    (
        HOLE,
        &[("ENDSEC;\nEND-ISO", "#0=A();\nENDSEC;\nEND-ISO")],
        "BadName 713",
    ),
    (
        HOLE,
        &[(
            "ENDSEC;\nEND-ISO",
            "#72=CARTESIAN_POINT('',(0.,0.,-15.));\nENDSEC;\nEND-ISO",
        )],
        "Duplicate 72",
    ),
    (
        HOLE,
        &[("(#10),$);", "(#77),$);\n#77=RAPID_MOVEMENT('R');")],
        "WrongKind 2 2",
    ),
    (HOLE, &[("#60,#51,10.", "#60,#99,10.")], "Unresolved 20 99"),
    (HOLE, &[("(10.,20.,0.)", "$")], "BadAttribute 70 2"),
    (HOLE, &[("#1=PROJECT('P',#2);\n", "")], "NoProject"),
    (
        HOLE,
        &[("#10=MACH", "#3=PROJECT('Q',#2);\n#10=MACH")],
        "ManyProjects 3",
    ),
    (HOLE, &[("(#10),$", "(#10,#10),$")], "Shared 10"),
    (HOLE, &[("(#10),$);", "(#10,#2),$);")], "Shared 2"),
    // What a step is made of is looked at after the tree.
    (
        HOLE,
        &[("(#10),$", "(#10,#10),$"), ("#60,#51,10.", "$,#51,10.")],
        "Shared 10",
    ),
    (
        HOLE,
        &[(
            "(#10),$);",
            "(#10,#3),$);\n#3=ASSIGNMENT('A',#4,#5);\n#4=NC_VARIABLE('V',0.);\n#5=!NC_SUM(#5,#5);",
        )],
        "ExprTooBig 3",
    ),
    (
        HOLE,
        &[("#60,#51,10.", "$,#51,10.")],
        "Definition 10 Missing 20 4",
    ),
    (
        HOLE,
        &[("DRILLING($,$,'D',5.", "DRILLING(#44,$,'D',5.")],
        "Definition 10 HasToolpath 30",
    ),
    (
        HOLE,
        &[(
            "#60=AXIS2_PLACEMENT_3D('',#70,$,$);",
            "#60=AXIS2_PLACEMENT_3D('',#70,#74,$);\n#74=DIRECTION('',(0.,1.,0.));",
        )],
        "Definition 10 BadDirection 74",
    ),
    (
        HOLE,
        &[("=DRILLING(", "=PLANE_ROUGH_MILLING(")],
        "Definition 10 Mismatch 30 20",
    ),
    (
        HOLE,
        &[("(0.040,", "(0.,")],
        "Definition 10 NotPositive 45 1",
    ),
    (
        HOLE,
        &[("'D',5.", "'D',-5.")],
        "Definition 10 OutOfRange 30 4",
    ),
    (
        HOLE,
        &[("(0.,0.,-15.)", "(0.,0.,15.)")],
        "Definition 10 NotPositive 20 5",
    ),
    (HOLE, &[("(10.,20.,0.)", "(10. 20.,0.)")], "Syntax 628"),
    (HOLE, &[("DATA;", "DATA; /* open")], "OpenComment 139"),
    (HOLE, &[("DATA;", "DATA; ~")], "BadByte 139"),
    (
        HOLE,
        &[("'P',#2)", "'P',#2,(((((((((((((((((((((((((((((((()")],
        "TooDeep 188",
    ),
    (
        POCKET,
        &[
            ("$,40.,20.)", "$,10.,10.)"),
            ("DIMENSION(10.)", "DIMENSION(12.)"),
        ],
        "Definition 10 ToolTooBig 44",
    ),
    (
        POCKET,
        &[
            ("$,40.,20.)", "$,17.998,40.)"),
            ("$,4.,$,$)", "$,0.001,$,$)"),
        ],
        "Definition 10 TooManyBlocks 10 20005",
    ),
    (
        TWO_HOLES,
        &[("#60,#52,10.", "#60,#52,-10.")],
        "Definition 11 NotPositive 21 6",
    ),
    (
        "ISO-10303-21;\nHEADER;\nFILE_DESCRIPTION(('AB",
        &[],
        "OpenString 40",
    ),
    ("", &[], "Syntax 0"),
];

/// Stops unless the words are refused with status 4 and this line, where `plate.stp` holds the text.
fn expect_line(
    rt: &impl Abort,
    alloc: Global,
    text: &str,
    words: &[&str],
    line: &str,
) -> Result<(), Fail> {
    let (status, sink) = answered(alloc, text, words)?;
    assert_eq!(rt; status.code(), 4, "of {line}");
    assert_eq!(rt; sink.bytes(), line.as_bytes());
    Ok(())
}

/// Stops unless a replay and a path are refused for this reason.
fn expect_refused(rt: &impl Abort, alloc: Global, text: &str, reason: &str) -> Result<(), Fail> {
    let line = format!(in alloc; "refused {reason}\n")?;
    expect_line(rt, alloc, text, &REPLAY, &line)?;
    expect_line(rt, alloc, text, &PATH, &line)
}

fn expect_all_refused(rt: &impl Abort, alloc: Global, rows: &[Refused]) -> Result<(), Fail> {
    for (text, changes, reason) in rows {
        let text = changed(alloc, *text, *changes)?;
        expect_refused(rt, alloc, &text, *reason)?;
    }
    Ok(())
}

#[test]
fn projects_are_refused_for_the_first_reason(rt: HostRuntime) -> Result<(), Fail> {
    expect_all_refused(&rt, rt.alloc(), &REFUSED)
}

#[test]
fn a_file_may_have_so_many_bytes(rt: HostRuntime) -> Result<(), Fail> {
    let blanks = " ".repeat(rt.alloc(), 16_777_217)?;
    expect_refused(&rt, rt.alloc(), &blanks, "TooLong")
}

#[test]
fn the_host_calls_top(rt: HostRuntime) -> Result<(), Fail> {
    let mut files = files_with(rt.alloc(), HOLE)?;
    let mut sink = MemorySink::new(rt.alloc(), 10000)?;
    let status = top_status_of(rt, &REPLAY, &mut files, &mut sink)?;
    expect(&rt, status, Status::Done);
    expect(&rt, sink.bytes(), HOLE_LOG.as_bytes());
    Ok(())
}

/// What goes wrong in a call: a read or a put, counted from 0, or the sink has room for so many bytes alone.
#[derive(Clone, Copy)]
enum Outage {
    Read(u32),
    Put(u32),
    Room(u32),
}

fn failing_files(alloc: Global, outage: Outage) -> Result<MemoryFiles, NoMemory> {
    let mut files = files_with(alloc, HOLE)?;
    if let Outage::Read(call) = outage {
        files.fail_at(call)?;
    }
    Ok(files)
}

fn failing_sink(alloc: Global, outage: Outage) -> Result<MemorySink, NoMemory> {
    let room = if let Outage::Room(room) = outage {
        room
    } else {
        10000
    };
    let mut sink = MemorySink::new(alloc, room)?;
    if let Outage::Put(call) = outage {
        sink.fail_at(call)?;
    }
    Ok(sink)
}

/// What goes wrong, the words, the status that they give then, and what the sink has taken.
type Failing = (Outage, &'static [&'static str], Status, &'static str);

const FAILING: [Failing; 8] = [
    (Outage::Read(0), &REPLAY, Status::ReadFault, ""),
    (Outage::Read(0), &PATH, Status::ReadFault, ""),
    (
        Outage::Read(0),
        &["path", "missing.stp", "10"],
        Status::ReadFault,
        "",
    ),
    (
        Outage::Put(1),
        &REPLAY,
        Status::WriteFault,
        "STEPNC-LOG 1\n",
    ),
    (Outage::Put(1), &PATH, Status::WriteFault, "T 44 20000\n"),
    (
        Outage::Room(11),
        &["--help"],
        Status::WriteFault,
        "stepnc runs",
    ),
    (Outage::Put(0), &BIG, Status::WriteFault, ""),
    (
        Outage::Room(20),
        &BIG,
        Status::WriteFault,
        "big 1 0 done entries",
    ),
];

fn expect_failing(rt: &impl Abort, alloc: Global, row: &Failing) -> Result<(), Fail> {
    let (outage, words, status, front) = *row;
    let mut files = failing_files(alloc, outage)?;
    let mut sink = failing_sink(alloc, outage)?;
    let said = status_of(alloc, words, &mut files, &mut sink)?;
    assert_eq!(rt; said, status, "of {words:?}");
    assert_eq!(rt; sink.bytes(), front.as_bytes());
    Ok(())
}

#[test]
fn a_failed_read_writes_nothing_and_a_failed_put_leaves_a_front(
    rt: HostRuntime,
) -> Result<(), Fail> {
    for row in &FAILING {
        expect_failing(&rt, rt.alloc(), row)?;
    }
    Ok(())
}

#[test]
fn statuses_have_their_codes(rt: HostRuntime) {
    for (status, code) in [
        (Status::Done, 0),
        (Status::Written, 0),
        (Status::Blocked, 1),
        (Status::RunLimit, 2),
        (Status::BadWords(4), 3),
        (Status::ProjectRefused(ProjectReason::NoStep(7)), 4),
        (Status::ScriptRefused(ScriptReason::TooLong), 5),
        (Status::ScriptRefused(ScriptReason::Schedule(2)), 5),
        (Status::Illegal(5), 6),
        (Status::LogRefused(LogReason::BadLine(3)), 6),
        (Status::ReadFault, 7),
        (Status::WriteFault, 8),
        (Status::NoMemory, 9),
    ] {
        assert_eq!(rt; status.code(), code);
    }
}
