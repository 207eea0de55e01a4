//! Runs of projects with scripts of edits: what is written, byte for byte, and when a script is refused.

use crate::asked::{files_with, replaced, status_of};
use crate::projects::{HOLE, TWO_HOLES};
use nc_base::{NcText, NoMemory};
use nc_outside::{MemoryFiles, MemorySink};
use std::alloc::Global;
use std::process::Abort;
use std::test::Fail;

/// Puts the first hole's depth.
const DEEPER: &str = "#72=CARTESIAN_POINT('',(0.,0.,-18.));";

/// What workingstep 10 makes of the drilled hole behind its dispatch.
const STEP: &str =
    "B 10 0 T 44 20000 / B 10 1 R 10000 20000 30000 / B 10 2 R 10000 20000 5000 / B 10 3 F 10000 20000 -15000 40 / B 10 4 R 10000 20000 5000 / B 10 5 R 10000 20000 30000 / E 10";

/// What it makes of the hole that an edit made deeper.
const DEEP_STEP: &str =
    "B 10 0 T 44 20000 / B 10 1 R 10000 20000 30000 / B 10 2 R 10000 20000 5000 / B 10 3 F 10000 20000 -18000 40 / B 10 4 R 10000 20000 5000 / B 10 5 R 10000 20000 30000 / E 10";

/// A line for each run of the drilled hole: the script, with `deeper` for the instance `DEEPER`, and the log behind its first line, with ` / ` in place of a
/// line feed and `step` or `deep step` for what workingstep 10 makes.
const RUNS: &str = "|D 10 0 / step / end done 8\n\
    EDIT AT 0; deeper ENDEDIT;|X 0 ok / D 10 1 / deep step / end done 9\n\
    EDIT AT 0; ENDEDIT;|X 0 ok / D 10 0 / step / end done 9\n\
    EDIT AT 1; deeper ENDEDIT;|D 10 0 / X 0 no J4 10 0 / step / end done 9\n\
    EDIT AT 1; #30=DRILLING($,$,'D',5.,$,#99,#45); ENDEDIT;|D 10 0 / X 0 no J2 30 99 / step / end done 9\n\
    EDIT AT 0; #2=WORKPLAN('M',(),$); ENDEDIT;|X 0 no J1 2 2 / D 10 0 / step / end done 9\n\
    EDIT AT 0; #99=CHANNEL('X'); ENDEDIT;|X 0 no J1 99 13 / D 10 0 / step / end done 9\n\
    EDIT AT 0; #46=ENDMILL(#47); ENDEDIT;|X 0 no J1 46 57 / D 10 0 / step / end done 9\n\
    EDIT AT 0; #10=MACHINING_WORKINGSTEP('W',#50,#20,#44); ENDEDIT;|X 0 no J3 10 4 / D 10 0 / step / end done 9\n\
    EDIT AT 0; #72=CARTESIAN_POINT('',(0.,0.,15.)); ENDEDIT;|X 0 no J5 10 6 / D 10 0 / step / end done 9\n\
    EDIT AT 1000; deeper ENDEDIT;|D 10 0 / step / X 0 no J4 10 0 / end done 9\n\
    EDIT AT 0; deeper ENDEDIT; EDIT AT 0; deeper ENDEDIT;|X 0 ok / X 1 ok / D 10 2 / deep step / end done 10\n";

/// The same of two holes with one tool.
const RUNS_OF_TWO: &str =
    "EDIT AT 1; #44=MILLING_CUTTING_TOOL('X',#46); ENDEDIT;|D 10 0 / X 0 no J4 10 0 / step / D 11 0 / B 11 0 T 44 20000 / B 11 1 R 10000 20000 30000 / B 11 2 R 10000 20000 5000 / B 11 3 F 10000 20000 -8000 40 / B 11 4 R 10000 20000 5000 / B 11 5 R 10000 20000 30000 / E 11 / end done 17\n\
    EDIT AT 1; #75=CARTESIAN_POINT('',(0.,0.,-9.)); ENDEDIT;|D 10 0 / X 0 ok / step / D 11 1 / B 11 0 T 44 20000 / B 11 1 R 10000 20000 30000 / B 11 2 R 10000 20000 5000 / B 11 3 F 10000 20000 -9000 40 / B 11 4 R 10000 20000 5000 / B 11 5 R 10000 20000 30000 / E 11 / end done 17\n";

/// A line for each script that is refused, with its refusal.
const REFUSED: &str = "EDIT AT 5; ENDEDIT; EDIT AT 4; ENDEDIT;|AtOrder 1\n\
    EDIT AT 0; #72=PLANE('',$); #72=PLANE('',$); ENDEDIT;|Repeated 0 72\n\
    EDIT AT 0; #70=CARTESIAN_POINT('',$); ENDEDIT;|Attribute 0 70 2\n\
    EDIT AT 0; ENDEDIT; EDIT AT 0; #2147483647=CARTESIAN_POINT('',$); ENDEDIT;|Attribute 1 2147483647 2\n\
    EDIT 0;|Syntax 5\n\
    EDIT AT 00; ENDEDIT;|Syntax 8\n\
    EDIT AT 0; ENDEDIT; ~|BadByte 20\n\
    EDIT AT 0; #0=A(); ENDEDIT;|BadName 11\n\
    EDIT AT 0; #1=A('|OpenString 16\n\
    EDIT AT 0; /*|OpenComment 11\n\
    EDIT AT 0; #1=A(123456789012345678901234567890123456789); ENDEDIT;|NumberTooLong 16\n\
    EDIT AT 0; #1=A((((((((((((((((((((((((((((((((()))))))))))))))))))))))))))))))))|TooDeep 47\n";

/// The two parts of a row.
fn parts(row: &str) -> (&str, &str) {
    row.split_once('|').unwrap_or((row, ""))
}

/// Files with these texts in `plate.stp`, `edits` and `turns`.
fn files_of(
    alloc: Global,
    project: &str,
    edits: &str,
    turns: &str,
) -> Result<MemoryFiles, NoMemory> {
    let mut files = files_with(alloc, project)?;
    files.add(&NcText::of(alloc, b"edits")?, edits.as_bytes())?;
    files.add(&NcText::of(alloc, b"turns")?, turns.as_bytes())?;
    Ok(files)
}

/// The exit status of a replay of these files with the script `edits` and this word for the schedule, and the sink.
fn answered(
    alloc: Global,
    mut files: MemoryFiles,
    schedule: &str,
) -> Result<(u8, MemorySink), NoMemory> {
    let mut sink = MemorySink::new(alloc, 10_000)?;
    let words = ["replay", "plate.stp", "edits", schedule, "100"];
    let status = status_of(alloc, &words, &mut files, &mut sink)?;
    Ok((status.code(), sink))
}

/// Stops unless the replay has this exit status and writes this text.
fn expect_answer(
    rt: &impl Abort,
    alloc: Global,
    files: MemoryFiles,
    schedule: &str,
    code: u8,
    wanted: &str,
) -> Result<(), Fail> {
    let (found, sink) = answered(alloc, files, schedule)?;
    assert_eq!(rt; found, code, "of {wanted}");
    assert!(rt; sink.bytes() == wanted.as_bytes(), "not {wanted}");
    Ok(())
}

/// The text of a log of a row.
fn log_of(alloc: Global, log: &str) -> Result<String, NoMemory> {
    let log = replaced(alloc, log, "deep step", DEEP_STEP)?;
    let log = replaced(alloc, &log, "step", STEP)?;
    let lines = replaced(alloc, &log, " / ", "\n")?;
    Ok(format!(in alloc; "STEPNC-LOG 1\n{lines}\n")?)
}

/// Stops unless each row's script with this project gives its log.
fn expect_runs(rt: &impl Abort, alloc: Global, project: &str, rows: &str) -> Result<(), Fail> {
    for row in rows.lines() {
        let (edits, log) = parts(row);
        let edits = replaced(alloc, edits, "deeper", DEEPER)?;
        let wanted = log_of(alloc, log)?;
        let files = files_of(alloc, project, &edits, "")?;
        expect_answer(rt, alloc, files, "-", 0, &wanted)?;
    }
    Ok(())
}

#[test]
fn edits_of_a_hole_are_judged(rt: HostRuntime) -> Result<(), Fail> {
    expect_runs(&rt, rt.alloc(), HOLE, RUNS)
}

#[test]
fn edits_of_two_holes_are_judged(rt: HostRuntime) -> Result<(), Fail> {
    expect_runs(&rt, rt.alloc(), TWO_HOLES, RUNS_OF_TWO)
}

#[test]
fn scripts_are_refused_in_a_line(rt: HostRuntime) -> Result<(), Fail> {
    let alloc = rt.alloc();
    for row in REFUSED.lines() {
        let (edits, refusal) = parts(row);
        let wanted = format!(in alloc; "refused {refusal}\n")?;
        let files = files_of(alloc, HOLE, edits, "")?;
        expect_answer(&rt, alloc, files, "-", 5, &wanted)?;
    }
    Ok(())
}

#[test]
fn a_script_may_have_so_many_edits(rt: HostRuntime) -> Result<(), Fail> {
    let alloc = rt.alloc();
    let edits = "EDIT AT 0;ENDEDIT;".repeat(alloc, 1001)?;
    let files = files_of(alloc, HOLE, &edits, "")?;
    expect_answer(&rt, alloc, files, "-", 5, "refused TooMany 18000\n")
}

#[test]
fn a_script_may_have_so_many_bytes(rt: HostRuntime) -> Result<(), Fail> {
    let alloc = rt.alloc();
    let edits = " ".repeat(alloc, 16_777_217)?;
    let files = files_of(alloc, HOLE, &edits, "01x")?;
    expect_answer(&rt, alloc, files, "turns", 5, "refused TooLong\n")
}

#[test]
fn projects_scripts_and_schedules_are_refused_in_this_order(rt: HostRuntime) -> Result<(), Fail> {
    let alloc = rt.alloc();
    let shared = replaced(alloc, HOLE, "(#10),$", "(#10,#10),$")?;
    let files = files_of(alloc, &shared, "EDIT 0;", "01x")?;
    expect_answer(&rt, alloc, files, "turns", 4, "refused Shared 10\n")?;
    let files = files_of(alloc, HOLE, "EDIT 0;", "01x")?;
    expect_answer(&rt, alloc, files, "turns", 5, "refused Syntax 5\n")?;
    let files = files_of(alloc, HOLE, "EDIT 0;", "")?;
    expect_answer(&rt, alloc, files, "missing", 5, "refused Syntax 5\n")?;
    let files = files_of(alloc, HOLE, "", "01x")?;
    expect_answer(&rt, alloc, files, "turns", 5, "refused Schedule 2\n")?;
    let files = files_of(alloc, HOLE, "", "")?;
    expect_answer(&rt, alloc, files, "missing", 7, "")
}

/// Stops unless a replay of the hole with one edit has this exit status and writes this text, where one read fails.
fn expect_without(
    rt: &impl Abort,
    alloc: Global,
    read: u32,
    code: u8,
    wanted: &str,
) -> Result<(), Fail> {
    let mut files = files_of(alloc, HOLE, "EDIT AT 0; ENDEDIT;", "01x")?;
    files.fail_at(read)?;
    expect_answer(rt, alloc, files, "turns", code, wanted)
}

#[test]
fn a_script_that_is_not_read_is_a_fault_of_a_file(rt: HostRuntime) -> Result<(), Fail> {
    expect_without(&rt, rt.alloc(), 0, 7, "")?;
    expect_without(&rt, rt.alloc(), 1, 7, "")?;
    expect_without(&rt, rt.alloc(), 2, 7, "")?;
    expect_without(&rt, rt.alloc(), 3, 5, "refused Schedule 2\n")
}

#[test]
fn a_log_with_a_verdict_is_put_line_by_line(rt: HostRuntime) -> Result<(), Fail> {
    let alloc = rt.alloc();
    let mut files = files_of(alloc, HOLE, "EDIT AT 0; ENDEDIT;", "")?;
    let mut sink = MemorySink::new(alloc, 10_000)?;
    sink.fail_at(1)?;
    let words = ["replay", "plate.stp", "edits", "-", "100"];
    let status = status_of(alloc, &words, &mut files, &mut sink)?;
    assert_eq!(rt; status.code(), 8);
    assert!(rt; sink.bytes() == b"STEPNC-LOG 1\n".as_slice());
    Ok(())
}
