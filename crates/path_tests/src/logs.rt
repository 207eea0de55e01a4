//! Texts of logs and of blocks.

use crate::expected::expect;
use nc_base::NoMemory;
use nc_outside::MemorySink;
use path_blocks::Block;
use run_log::{Ending, Entry, Log, WriteErr, write, write_blocks};
use std::alloc::Global;
use std::test::Fail;

const LOG: [Entry; 4] = [
    Entry::Dispatch { n: 10, v: 0 },
    Entry::Block {
        n: 10,
        k: 0,
        b: Block::Tool {
            tool: 44,
            spindle: 20000,
        },
    },
    Entry::Block {
        n: 10,
        k: 1,
        b: Block::Feed {
            x: 10000,
            y: -20000,
            z: 0,
            f: 40,
        },
    },
    Entry::End { n: 10 },
];

const LONG_NUMBERS: [Entry; 3] = [
    Entry::Dispatch {
        n: 2_147_483_647,
        v: 1_000,
    },
    Entry::Block {
        n: 2_147_483_647,
        k: 19_999,
        b: Block::Rapid {
            x: -200_000_000,
            y: 0,
            z: 200_000_000,
        },
    },
    Entry::Block {
        n: 1,
        k: 0,
        b: Block::Dwell { ms: 1 },
    },
];

/// The text of each log with its ending.
const TEXTS: [(&[Entry], Ending, &[u8]); 3] = [
    (
        &LOG,
        Ending::Done,
        b"STEPNC-LOG 1\nD 10 0\nB 10 0 T 44 20000\nB 10 1 F 10000 -20000 0 40\nE 10\nend done 4\n",
    ),
    (
        &LONG_NUMBERS,
        Ending::Limit,
        b"STEPNC-LOG 1\nD 2147483647 1000\nB 2147483647 19999 R -200000000 0 200000000\nB 1 0 W 1\nend limit 3\n",
    ),
    (&[], Ending::Done, b"STEPNC-LOG 1\nend done 0\n"),
];

fn log_of(alloc: Global, entries: &[Entry]) -> Result<Log, NoMemory> {
    let mut log = Log::new(alloc);
    for entry in entries {
        log.push(*entry)?;
    }
    Ok(log)
}

// Writes a log of these entries behind what the sink has taken.
fn written(
    alloc: Global,
    sink: &mut MemorySink,
    entries: &[Entry],
    ending: Ending,
) -> Result<Result<(), WriteErr>, NoMemory> {
    let log = log_of(alloc, entries)?;
    Ok(write(&log, ending, sink))
}

#[test]
fn a_log_has_a_line_for_each_entry(rt: HostRuntime) -> Result<(), Fail> {
    let mut all = MemorySink::new(rt.alloc(), 1000)?;
    let mut wanted = Vec::new(rt.alloc());
    for (entries, ending, text) in TEXTS {
        let answer = written(rt.alloc(), &mut all, entries, ending)?;
        expect(&rt, answer, Ok(()));
        wanted.extend_from_slice(text)?;
        expect(&rt, all.bytes(), wanted.as_slice());
    }
    Ok(())
}

#[test]
fn a_fault_leaves_a_front(rt: HostRuntime) -> Result<(), Fail> {
    let mut sink = MemorySink::new(rt.alloc(), 1000)?;
    sink.fail_at(1)?;
    let answer = written(rt.alloc(), &mut sink, &LOG, Ending::Limit)?;
    expect(&rt, answer, Err(WriteErr::Failed));
    expect(&rt, sink.bytes(), b"STEPNC-LOG 1\n".as_slice());
    Ok(())
}

const BLOCKS: [Block; 4] = [
    Block::Tool {
        tool: 44,
        spindle: 20000,
    },
    Block::Rapid {
        x: 0,
        y: -1,
        z: 30000,
    },
    Block::Feed {
        x: 10000,
        y: 20000,
        z: -15000,
        f: 40,
    },
    Block::Dwell { ms: 250 },
];

/// How many bytes a sink has room for, what writing the blocks to it answers, and what it has then.
const ROOMS: [(u32, Result<(), WriteErr>, &[u8]); 2] = [
    (
        1000,
        Ok(()),
        b"T 44 20000\nR 0 -1 30000\nF 10000 20000 -15000 40\nW 250\n",
    ),
    (15, Err(WriteErr::Failed), b"T 44 20000\nR 0 "),
];

#[test]
fn blocks_have_a_line_each(rt: HostRuntime) -> Result<(), Fail> {
    for (room, want, text) in ROOMS {
        let mut sink = MemorySink::new(rt.alloc(), room)?;
        expect(&rt, write_blocks(&BLOCKS, &mut sink), want);
        expect(&rt, sink.bytes(), text);
    }
    Ok(())
}
