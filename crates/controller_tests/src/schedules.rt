//! Runs of trees under schedules: what is written, byte for byte, and when a schedule is refused.

use crate::asked::{files_with, replaced, status_of};
use crate::projects::HOLE;
use controller::{ScriptReason, Status};
use nc_base::{NcText, NoMemory};
use nc_outside::{MemoryFiles, MemorySink};
use std::alloc::Global;
use std::process::Abort;
use std::test::Fail;

/// Each part has the instances that stand in place of the hole's main workplan; behind that a line for each run: what the schedule holds, the limit, the
/// status, and the log behind its first line, with ` / ` in place of a line feed.
const RUNS: &str =
    "#2=WORKPLAN('M',(#3),$);#3=WHILE_STATEMENT('W',#4,#6);#4=COMPARISON_LESS(#5,3);#5=NC_VARIABLE('V',$);#6=ASSIGNMENT('A',#5,#7);#7=!NC_SUM(#5,1);\n\
    |1000|0|T 3 1 / A 6 1000 / T 3 1 / A 6 2000 / T 3 1 / A 6 3000 / T 3 0 / end done 7\n\
    |7|0|T 3 1 / A 6 1000 / T 3 1 / A 6 2000 / T 3 1 / A 6 3000 / T 3 0 / end done 7\n\
    |5|2|T 3 1 / A 6 1000 / T 3 1 / A 6 2000 / T 3 1 / end limit 5\n\
    * #2=WORKPLAN('M',(#3),$);#3=PARALLEL('P',(#4,#5));#4=WORKPLAN('A',(#6),#8);#5=WORKPLAN('B',(#7),#9);#6=WAIT_FOR_MARK('W',#7);#7=SET_MARK('S');#8=CHANNEL('0');#9=CHANNEL('1');\n\
    0011|1000|0|S 7 / W 6 / end done 2\n\
    |1000|0|S 7 / W 6 / end done 2\n\
    |1|2|S 7 / end limit 1\n\
    * #2=WORKPLAN('M',(#3),$);#3=PARALLEL('P',(#4,#5));#4=WORKPLAN('A',(#6,#13),#8);#5=WORKPLAN('B',(#7,#11),#9);#6=WAIT_FOR_MARK('W',#11);#7=WAIT_FOR_MARK('W',#13);#11=SET_MARK('S');#13=SET_MARK('S');#8=CHANNEL('0');#9=CHANNEL('1');\n\
    |1000|1|end blocked 0\n\
    |1|1|end blocked 0\n\
    * #2=WORKPLAN('M',(#3),$);#3=PARALLEL('P',(#4,#5,#14));#4=WORKPLAN('A',(#6,#13),#8);#5=WORKPLAN('B',(#7,#11),#9);#6=WAIT_FOR_MARK('W',#11);#7=WAIT_FOR_MARK('W',#13);#11=SET_MARK('S');#13=SET_MARK('S');#14=WORKPLAN('C',(#15),#16);#15=DISPLAY_MESSAGE('HI');#8=CHANNEL('0');#9=CHANNEL('1');#16=CHANNEL('2');\n\
    |1000|1|M 15 / end blocked 1\n\
    |1|1|M 15 / end blocked 1\n\
    * #2=WORKPLAN('M',(#3),$);#3=NON_SEQUENTIAL('N',(#4,#5,#6));#4=DISPLAY_MESSAGE('');#5=DISPLAY_MESSAGE('');#6=DISPLAY_MESSAGE('');\n\
    |1000|0|P 3 0 / M 4 / P 3 1 / M 5 / P 3 2 / M 6 / end done 6\n\
    * #2=WORKPLAN('M',(#3),$);#3=SELECTIVE('N',(#4,#5,#6));#4=DISPLAY_MESSAGE('');#5=DISPLAY_MESSAGE('');#6=DISPLAY_MESSAGE('');\n\
    |1000|0|P 3 0 / M 4 / end done 2\n\
    * #2=WORKPLAN('M',(#3),$);#3=PARALLEL('P',(#4,#5));#4=WORKPLAN('A',(#6),#8);#5=WORKPLAN('B',(#7),#9);#6=DISPLAY_MESSAGE('');#7=DISPLAY_MESSAGE('');#8=CHANNEL('0');#9=CHANNEL('1');\n\
    |1000|0|M 6 / M 7 / end done 2\n\
    1|1000|0|M 7 / M 6 / end done 2\n\
     \t7 1|1000|0|M 7 / M 6 / end done 2\n";

/// The first part of a row, and what follows it.
fn first(row: &str) -> (&str, &str) {
    row.split_once('|').unwrap_or((row, ""))
}

/// Files with these texts in `plate.stp` and `turns`.
fn files_of(alloc: Global, project: &str, turns: &str) -> Result<MemoryFiles, NoMemory> {
    let mut files = files_with(alloc, project)?;
    files.add(&NcText::of(alloc, b"turns")?, turns.as_bytes())?;
    Ok(files)
}

/// Stops unless a replay of these files under the schedule `turns` has this exit status and writes this text.
fn expect_answer(
    rt: &impl Abort,
    alloc: Global,
    mut files: MemoryFiles,
    limit: &str,
    code: &str,
    wanted: &str,
) -> Result<(), Fail> {
    let mut sink = MemorySink::new(alloc, 10_000)?;
    let words = ["replay", "plate.stp", "-", "turns", limit];
    let status = status_of(alloc, &words, &mut files, &mut sink)?;
    let shown = status.code().to_string(alloc)?;
    assert_eq!(rt; shown.as_str(), code, "of {wanted}");
    assert!(rt; sink.bytes() == wanted.as_bytes(), "not {wanted}");
    Ok(())
}

/// The text of a log of a row.
fn log_of(alloc: Global, log: &str) -> Result<String, NoMemory> {
    let lines = replaced(alloc, log, " / ", "\n")?;
    Ok(format!(in alloc; "STEPNC-LOG 1\n{lines}\n")?)
}

fn expect_row(rt: &impl Abort, alloc: Global, project: &str, row: &str) -> Result<(), Fail> {
    let (turns, rest) = first(row);
    let (limit, rest) = first(rest);
    let (code, log) = first(rest);
    let wanted = log_of(alloc, log)?;
    let files = files_of(alloc, project, turns)?;
    expect_answer(rt, alloc, files, limit, code, &wanted)
}

fn expect_part(rt: &impl Abort, alloc: Global, part: &str) -> Result<(), Fail> {
    let (instances, rows) = part.split_once('\n').unwrap_or((part, ""));
    let project = replaced(alloc, HOLE, "#2=WORKPLAN('MAIN',(#10),$);", instances)?;
    for row in rows.lines() {
        expect_row(rt, alloc, &project, row)?;
    }
    Ok(())
}

#[test]
fn trees_are_run_under_schedules(rt: HostRuntime) -> Result<(), Fail> {
    for part in RUNS.split("* ") {
        expect_part(&rt, rt.alloc(), part)?;
    }
    Ok(())
}

/// What a schedule holds, and the place for which it is refused. An underscore stands for a line feed.
const REFUSED: &str = "01x|2\n\
    8|0\n\
    p|0\n\
    0 0__-|5\n\
    0,1|1\n\
    0_9|2\n";

#[test]
fn schedules_are_refused_at_their_first_bad_byte(rt: HostRuntime) -> Result<(), Fail> {
    let alloc = rt.alloc();
    for row in REFUSED.lines() {
        let (turns, place) = first(row);
        let turns = replaced(alloc, turns, "_", "\n")?;
        let wanted = format!(in alloc; "refused Schedule {place}\n")?;
        expect_answer(
            &rt,
            alloc,
            files_of(alloc, HOLE, &turns)?,
            "100",
            "5",
            &wanted,
        )?;
    }
    Ok(())
}

#[test]
fn a_schedule_may_have_so_many_bytes(rt: HostRuntime) -> Result<(), Fail> {
    let alloc = rt.alloc();
    let blanks = " ".repeat(alloc, 16_777_217)?;
    let files = files_of(alloc, HOLE, &blanks)?;
    expect_answer(&rt, alloc, files, "100", "5", "refused TooLong\n")
}

/// The status of a replay of a project under a schedule, where one read of the two fails.
fn status_without(alloc: Global, project: &str, turns: &str, read: u32) -> Result<Status, Fail> {
    let mut files = files_of(alloc, project, turns)?;
    files.fail_at(read)?;
    let mut sink = MemorySink::new(alloc, 10_000)?;
    let words = ["replay", "plate.stp", "-", "turns", "100"];
    Ok(status_of(alloc, &words, &mut files, &mut sink)?)
}

#[test]
fn a_schedule_that_is_not_read_is_a_fault_of_a_file(rt: HostRuntime) -> Result<(), Fail> {
    let first = status_without(rt.alloc(), HOLE, "01", 0)?;
    assert_eq!(rt; first, Status::ReadFault);
    let second = status_without(rt.alloc(), HOLE, "01", 1)?;
    assert_eq!(rt; second, Status::ReadFault);
    let later = status_without(rt.alloc(), HOLE, "01x", 2)?;
    assert_eq!(rt; later, Status::ScriptRefused(ScriptReason::Schedule(2)));
    Ok(())
}

#[test]
fn a_refused_project_hides_its_schedule(rt: HostRuntime) -> Result<(), Fail> {
    let project = replaced(rt.alloc(), HOLE, "(#10),$", "(#10,#10),$")?;
    let files = files_of(rt.alloc(), &project, "01x")?;
    expect_answer(&rt, rt.alloc(), files, "100", "4", "refused Shared 10\n")
}
