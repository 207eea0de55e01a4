//! Logs as the tables have them, and as they are written.
//!
//! In a table the entries are parted by ` / `, and the log's last line stands behind them. `step 10` stands for all eight entries of a workingstep
//! 10 that drills the hole `#150,#120,#130`, and `b 10 3` for its block 3.

use crate::checks::expect_legal;
use crate::projects::{project, script};
use edit_rules::Project;
use entity_types::Script;
use nc_base::NoMemory;
use nc_outside::MemorySink;
use run_core::replay;
use run_log::{Ending, Entry, Log, MAX_ENTRIES, write};
use std::alloc::Global;
use std::process::Abort;
use std::test::Fail;

/// The blocks of the hole `#150,#120,#130`.
const BLOCKS: &str = "T 44 20000\n\
    R 10000 20000 30000\n\
    R 10000 20000 5000\n\
    F 10000 20000 -15000 40\n\
    R 10000 20000 5000\n\
    R 10000 20000 30000\n";

/// The number that decimal digits are. Those of the tables fit.
pub(crate) fn number(digits: &str) -> u32 {
    let mut value: u32 = 0;
    for digit in digits.bytes() {
        value = value
            .wrapping_mul(10)
            .wrapping_add(u32::from(digit.wrapping_sub(b'0')));
    }
    value
}

fn put(text: &mut String, more: &str) -> Result<(), NoMemory> {
    Ok(text.push_str(more)?)
}

fn put_block(alloc: Global, text: &mut String, place: &str, block: &str) -> Result<(), NoMemory> {
    put(text, &format!(in alloc; "B {place} {block}\n")?)
}

/// The lines of a workingstep of this number.
fn put_step(alloc: Global, text: &mut String, n: &str) -> Result<(), NoMemory> {
    put(text, &format!(in alloc; "D {n} 0\n")?)?;
    for (k, block) in BLOCKS.lines().enumerate() {
        let place = format!(in alloc; "{n} {k}")?;
        put_block(alloc, text, &place, block)?;
    }
    put(text, &format!(in alloc; "E {n}\n")?)
}

/// The block of this number.
fn block(k: &str) -> &'static str {
    BLOCKS.lines().nth(number(k) as usize).unwrap_or("")
}

/// The lines that an entry of a table stands for.
fn put_entry(alloc: Global, text: &mut String, entry: &str) -> Result<(), NoMemory> {
    if let Some(n) = entry.strip_prefix("step ") {
        return put_step(alloc, text, n);
    }
    if let Some(place) = entry.strip_prefix("b ") {
        let (_, k) = place.rsplit_once(' ').unwrap_or(("", place));
        return put_block(alloc, text, place, block(k));
    }
    put(text, entry)?;
    put(text, "\n")
}

/// The lines of the entries of a table.
pub(crate) fn lines_of(alloc: Global, entries: &str) -> Result<String, NoMemory> {
    let mut text = String::new(alloc);
    for entry in entries.split(" / ") {
        if !entry.is_empty() {
            put_entry(alloc, &mut text, entry)?;
        }
    }
    Ok(text)
}

/// How many lines there are.
pub(crate) fn count_of(lines: &str) -> u32 {
    u32::try_from(lines.lines().count()).unwrap_or(0)
}

/// The log with the first so many of these lines, and this last one.
fn front_of(alloc: Global, lines: &str, count: u32, last: &str) -> Result<String, NoMemory> {
    let mut log = String::from_str(alloc, "STEPNC-LOG 1\n")?;
    for line in lines.lines().take(count as usize) {
        put(&mut log, line)?;
        put(&mut log, "\n")?;
    }
    put(&mut log, last)?;
    put(&mut log, "\n")?;
    Ok(log)
}

/// The log up to a limit of a run with these lines and this last one.
pub(crate) fn log_up_to(
    alloc: Global,
    lines: &str,
    last: &str,
    limit: u32,
) -> Result<String, NoMemory> {
    if limit < count_of(lines) {
        return front_of(
            alloc,
            lines,
            limit,
            &format!(in alloc; "end limit {limit}")?,
        );
    }
    front_of(alloc, lines, limit, last)
}

/// The run of a project and a script. It promises nothing, so that what is done with its log is proved without what `replay` promises.
fn ran(
    rt: &impl Abort,
    alloc: Global,
    project: Project,
    script: Script,
    limit: u32,
    schedule: &[u8],
) -> Result<(Log, Ending), NoMemory> {
    assert!(rt;
        1 <= limit && limit <= MAX_ENTRIES,
        "a limit is 1 to 2,000,000"
    );
    replay(alloc, project, script, limit, schedule)
}

fn written(alloc: Global, log: &Log, ending: Ending) -> Result<MemorySink, Fail> {
    let mut sink = MemorySink::new(alloc, 100_000)?;
    write(log, ending, &mut sink)?;
    Ok(sink)
}

/// Stops unless this is the text of the log.
pub(crate) fn expect_text(
    rt: &impl Abort,
    alloc: Global,
    log: &Log,
    ending: Ending,
    wanted: &str,
    place: &str,
) -> Result<(), Fail> {
    let sink = written(alloc, log, ending)?;
    let found = String::from_utf8(Vec::from_slice(alloc, sink.bytes())?)?;
    assert_eq!(rt; found.as_str(), wanted, "of {place}");
    Ok(())
}

/// Stops unless the run of these instances, of this text of a script and of this schedule gives this log, which is judged legal with its ending.
pub(crate) fn expect_run(
    rt: &impl Abort,
    alloc: Global,
    data: &str,
    edits: &str,
    schedule: &[u8],
    limit: u32,
    wanted: &str,
    place: &str,
) -> Result<(), Fail> {
    let project = project(rt, alloc, data)?;
    let script = script(rt, alloc, edits)?;
    let (log, ending) = ran(rt, alloc, project, script, limit, schedule)?;
    expect_text(rt, alloc, &log, ending, wanted, place)?;
    expect_legal(rt, alloc, data, edits, log, ending, place)
}

/// These entries as a log.
pub(crate) fn log_of(alloc: Global, entries: &[Entry]) -> Result<Log, NoMemory> {
    let mut log = Log::new(alloc);
    for entry in entries {
        log.push(*entry)?;
    }
    Ok(log)
}
