//! Logs that are written, and read again.

use crate::expected::expect;
use log_read::{LogErr, read};
use nc_base::{NoMemory, Verdict};
use nc_outside::MemorySink;
use path_blocks::Block;
use run_log::{Ending, Entry, Log, MAX_ENTRIES, write};
use std::alloc::Global;
use std::process::Abort;
use std::test::Fail;

/// One entry of each kind, and their text.
const LOG: [Entry; 10] = [
    Entry::Dispatch { n: 10, v: 1_000 },
    Entry::Block {
        n: 10,
        k: 3,
        b: Block::Feed {
            x: 10_000,
            y: -20_000,
            z: 0,
            f: 40,
        },
    },
    Entry::End { n: 10 },
    Entry::Pick { n: 3, k: 0 },
    Entry::Test { n: 4, yes: true },
    Entry::Assign { n: 6, x: -1 },
    Entry::Set { n: 7 },
    Entry::Pass { n: 6 },
    Entry::Note { n: 15 },
    Entry::Edit {
        i: 0,
        verdict: Verdict::Refused {
            code: 4,
            a: 10,
            b: 0,
        },
    },
];

const TEXT: &[u8] =
    b"STEPNC-LOG 1\nD 10 1000\nB 10 3 F 10000 -20000 0 40\nE 10\nP 3 0\nT 4 1\nA 6 -1\nS 7\nW 6\nM 15\nX 0 no J4 10 0\nend blocked 10\n";

fn log_of(alloc: Global, entries: &[Entry]) -> Result<Log, NoMemory> {
    let mut log = Log::new(alloc);
    for entry in entries {
        log.push(*entry)?;
    }
    Ok(log)
}

// Stops unless the text is that of these entries with this ending.
fn expect_log(
    rt: &impl Abort,
    alloc: Global,
    text: &[u8],
    entries: &[Entry],
    ending: Ending,
) -> Result<(), Fail> {
    let (log, found) = read(alloc, text)?;
    expect(rt, log.as_slice(), entries);
    expect(rt, found, ending);
    Ok(())
}

#[test]
fn a_log_of_each_kind_is_read(rt: HostRuntime) -> Result<(), Fail> {
    expect_log(&rt, rt.alloc(), TEXT, &LOG, Ending::Blocked)?;
    expect_log(
        &rt,
        rt.alloc(),
        b"STEPNC-LOG 1\nend limit 0\n",
        &[],
        Ending::Limit,
    )
}

#[test]
fn what_is_written_is_read(rt: HostRuntime) -> Result<(), Fail> {
    let mut sink = MemorySink::new(rt.alloc(), 1000)?;
    let log = log_of(rt.alloc(), &LOG)?;
    expect(&rt, write(&log, Ending::Blocked, &mut sink), Ok(()));
    expect(&rt, sink.bytes(), TEXT);
    expect_log(&rt, rt.alloc(), sink.bytes(), &LOG, Ending::Blocked)
}

// The text of so many ends of one workingstep, and a last line with this count.
fn long_text(alloc: Global, entries: u32, last: &[u8]) -> Result<Vec<u8>, Fail> {
    let mut text = Vec::from_slice(alloc, b"STEPNC-LOG 1\n")?;
    for _ in 0..entries {
        text.extend_from_slice(b"E 1\n")?;
    }
    text.extend_from_slice(last)?;
    Ok(text)
}

// The count of entries of such a text, or why it is none.
fn long_count(alloc: Global, entries: u32, last: &[u8]) -> Result<Result<u32, LogErr>, Fail> {
    let text = long_text(alloc, entries, last)?;
    Ok(read(alloc, text.as_slice()).map(|read| read.0.len()))
}

#[test]
fn a_log_has_so_many_entries_at_most(rt: HostRuntime) -> Result<(), Fail> {
    let most = long_count(rt.alloc(), MAX_ENTRIES, b"end limit 2000000\n")?;
    expect(&rt, most, Ok(2_000_000));
    let more = long_count(rt.alloc(), MAX_ENTRIES + 1, b"end limit 2000001\n")?;
    expect(&rt, more, Err(LogErr::BadLine(2_000_002)));
    Ok(())
}
