//! Checks of logs: what is found of them, when their files hold none, and what is read and written.

use crate::asked::{expect, files_with, replaced, status_of};
use crate::projects::{HOLE, HOLE_LOG, HOLE_LOG_OF_SEVEN};
use controller::{LogReason, Status};
use nc_base::{NcText, NoMemory};
use nc_outside::{MemoryFiles, MemorySink};
use std::alloc::Global;
use std::process::Abort;
use std::test::Fail;

/// A script that makes the hole deeper before it is dispatched.
const DEEPER: &str = "EDIT AT 0; #72=CARTESIAN_POINT('',(0.,0.,-18.)); ENDEDIT;";

/// The log of the run of the drilled hole and that script.
const DEEP_LOG: &str = "STEPNC-LOG 1\n\
    X 0 ok\n\
    D 10 1\n\
    B 10 0 T 44 20000\n\
    B 10 1 R 10000 20000 30000\n\
    B 10 2 R 10000 20000 5000\n\
    B 10 3 F 10000 20000 -18000 40\n\
    B 10 4 R 10000 20000 5000\n\
    B 10 5 R 10000 20000 30000\n\
    E 10\n\
    end done 9\n";

/// Files with these texts in `plate.stp`, `edits` and `log`.
fn files_of(alloc: Global, project: &str, edits: &str, log: &str) -> Result<MemoryFiles, NoMemory> {
    let mut files = files_with(alloc, project)?;
    files.add(&NcText::of(alloc, b"edits")?, edits.as_bytes())?;
    files.add(&NcText::of(alloc, b"log")?, log.as_bytes())?;
    Ok(files)
}

/// The status of a check by `plate.stp` and the script of this word, and the sink.
fn checked(
    alloc: Global,
    mut files: MemoryFiles,
    script: &str,
) -> Result<(Status, MemorySink), NoMemory> {
    let mut sink = MemorySink::new(alloc, 10_000)?;
    let words = ["check", "plate.stp", script, "log"];
    let status = status_of(alloc, &words, &mut files, &mut sink)?;
    Ok((status, sink))
}

/// Stops unless the check has this exit status and writes this line.
fn expect_line(
    rt: &impl Abort,
    alloc: Global,
    files: MemoryFiles,
    script: &str,
    code: u8,
    line: &str,
) -> Result<(), Fail> {
    let wanted = format!(in alloc; "{line}\n")?;
    let (status, sink) = checked(alloc, files, script)?;
    assert_eq!(rt; status.code(), code, "of {line}");
    assert!(rt; sink.bytes() == wanted.as_bytes(), "not {line}");
    Ok(())
}

/// The exit status of a check whose line this is, where project and script are accepted.
fn code_of(line: &str) -> u8 {
    if line.starts_with("legal") { 0 } else { 6 }
}

/// The first part of a row up to a `|`, and what stands behind it.
fn part(row: &str) -> (&str, &str) {
    row.split_once('|').unwrap_or((row, ""))
}

/// The log with a row's first part replaced by its second, in which a `¶` stands for a line feed, and the row's third part.
fn changed<'a>(alloc: Global, log: &str, row: &'a str) -> Result<(String, &'a str), NoMemory> {
    let (old, rest) = part(row);
    let (new, line) = part(rest);
    let old = replaced(alloc, old, "¶", "\n")?;
    let new = replaced(alloc, new, "¶", "\n")?;
    Ok((replaced(alloc, log, &old, &new)?, line))
}

/// A row for each change of the log of the deeper hole: what is replaced, what stands in its place, and what is found.
const CHANGES: &str = "done 9|done 9|legal done\n\
    -18000|-15000|illegal 5\n\
    -18000|-18001|illegal 5\n\
    X 0 ok|X 0 no J4 10 0|illegal 0\n\
    X 0 ok¶D 10 1|D 10 1¶X 0 ok|illegal 0\n\
    D 10 1|D 10 0|illegal 1\n\
    D 10 1|D 11 1|illegal 1\n\
    B 10 3 F|B 10 4 F|illegal 5\n\
    E 10¶end done 9|end done 8|illegal 8\n\
    E 10¶end done 9|end limit 8|legal limit\n\
    E 10¶end done 9|end blocked 8|illegal 8\n\
    end done 9|end blocked 9|illegal 9\n\
    end done 9|end limit 9|illegal 9\n\
    E 10¶end done 9|E 10¶E 10¶end done 10|illegal 9\n\
    D 10 1|D 10 01|refused BadLine 3\n\
    STEPNC-LOG 1|STEPNC-LOG 2|refused BadLine 1\n\
    end done 9|end done 8|refused BadLine 11\n\
    end done 9¶|end done 9¶¶|refused BadLine 12\n\
    end done 9¶||refused NoEnd\n";

#[test]
fn a_log_is_legal_or_wrong_at_its_first_place(rt: HostRuntime) -> Result<(), Fail> {
    let alloc = rt.alloc();
    for row in CHANGES.lines() {
        let (log, line) = changed(alloc, DEEP_LOG, row)?;
        let files = files_of(alloc, HOLE, DEEPER, &log)?;
        expect_line(&rt, alloc, files, "edits", code_of(line), line)?;
    }
    Ok(())
}

/// Without the script another log is legal, and so is its front up to a limit. A log without an entry that isn't done has no ending of its own, and a text
/// without a line has no end.
const LOGS: [(&str, &str); 5] = [
    (HOLE_LOG, "legal done"),
    (HOLE_LOG_OF_SEVEN, "legal limit"),
    (DEEP_LOG, "illegal 0"),
    ("STEPNC-LOG 1\nend limit 0\n", "illegal 0"),
    ("", "refused NoEnd"),
];

#[test]
fn a_log_is_judged_by_the_script_that_is_named(rt: HostRuntime) -> Result<(), Fail> {
    let alloc = rt.alloc();
    for (log, line) in &LOGS {
        let files = files_of(alloc, HOLE, DEEPER, *log)?;
        expect_line(&rt, alloc, files, "-", code_of(*line), *line)?;
    }
    Ok(())
}

/// Parts that set a mark behind a wait for it: nothing can go on.
const WAITING: &str = "(#3,#4),$);\n#3=WAIT_FOR_MARK('W',#4);\n#4=SET_MARK('S');";

#[test]
fn a_log_may_be_blocked(rt: HostRuntime) -> Result<(), Fail> {
    let alloc = rt.alloc();
    let project = replaced(alloc, HOLE, "(#10),$);", WAITING)?;
    let files = files_of(alloc, &project, "", "STEPNC-LOG 1\nend blocked 0\n")?;
    expect_line(&rt, alloc, files, "-", 0, "legal blocked")?;
    let files = files_of(alloc, &project, "", "STEPNC-LOG 1\nend done 0\n")?;
    expect_line(&rt, alloc, files, "-", 6, "illegal 0")
}

#[test]
fn what_is_refused_hides_what_is_read_behind_it(rt: HostRuntime) -> Result<(), Fail> {
    let alloc = rt.alloc();
    let project = replaced(alloc, HOLE, "(10.,20.,0.)", "$")?;
    let files = files_of(alloc, &project, "EDIT 0;", "")?;
    expect_line(&rt, alloc, files, "edits", 4, "refused BadAttribute 70 2")?;
    let files = files_of(alloc, HOLE, "EDIT 0;", "")?;
    expect_line(&rt, alloc, files, "edits", 5, "refused Syntax 5")?;
    let files = files_of(alloc, HOLE, "", "")?;
    expect_line(&rt, alloc, files, "edits", 6, "refused NoEnd")
}

/// Stops unless the check of files of which the read of this number fails has a read fault, with nothing written.
fn expect_read_fault(rt: &impl Abort, alloc: Global, call: u32) -> Result<(), Fail> {
    let mut files = files_of(alloc, HOLE, DEEPER, DEEP_LOG)?;
    files.fail_at(call)?;
    let (status, sink) = checked(alloc, files, "edits")?;
    assert_eq!(rt; status, Status::ReadFault);
    assert!(rt; sink.bytes().is_empty());
    Ok(())
}

#[test]
fn each_of_the_three_files_may_fail(rt: HostRuntime) -> Result<(), Fail> {
    for call in 0..3 {
        expect_read_fault(&rt, rt.alloc(), call)?;
    }
    Ok(())
}

#[test]
fn the_status_says_where_a_log_is_wrong(rt: HostRuntime) -> Result<(), Fail> {
    let alloc = rt.alloc();
    let (status, _) = checked(alloc, files_of(alloc, HOLE, "", DEEP_LOG)?, "-")?;
    expect(&rt, status, Status::Illegal(0));
    let (status, _) = checked(alloc, files_of(alloc, HOLE, "", "")?, "-")?;
    expect(&rt, status, Status::LogRefused(LogReason::NoEnd));
    let (status, _) = checked(alloc, files_of(alloc, HOLE, "", "end done 0\n")?, "-")?;
    expect(&rt, status, Status::LogRefused(LogReason::BadLine(1)));
    Ok(())
}

#[test]
fn a_sink_that_fails_has_a_front_of_the_line(rt: HostRuntime) -> Result<(), Fail> {
    let alloc = rt.alloc();
    let mut files = files_of(alloc, HOLE, "", HOLE_LOG)?;
    let mut sink = MemorySink::new(alloc, 5)?;
    let words = ["check", "plate.stp", "-", "log"];
    let status = status_of(alloc, &words, &mut files, &mut sink)?;
    expect(&rt, status, Status::WriteFault);
    expect(&rt, sink.bytes(), b"legal".as_slice());
    Ok(())
}
