//! The lines of entries of all kinds.

use nc_base::{NoMemory, Verdict};
use nc_outside::MemorySink;
use run_log::{Ending, Entry, Log, write};
use std::alloc::Global;
use std::test::Fail;

const LOG: [Entry; 10] = [
    Entry::Pick { n: 3, k: 65_534 },
    Entry::Test { n: 4, yes: true },
    Entry::Test { n: 4, yes: false },
    Entry::Assign {
        n: 6,
        x: -1_000_000_000_000_000,
    },
    Entry::Set { n: 7 },
    Entry::Pass { n: 8 },
    Entry::Note { n: 2_147_483_647 },
    Entry::Edit {
        i: 0,
        verdict: Verdict::Accepted,
    },
    Entry::Edit {
        i: 999,
        verdict: Verdict::Refused {
            code: 4,
            a: 10,
            b: 0,
        },
    },
    Entry::Assign { n: 6, x: 0 },
];

const TEXT: &[u8] =
    b"STEPNC-LOG 1\nP 3 65534\nT 4 1\nT 4 0\nA 6 -1000000000000000\nS 7\nW 8\nM 2147483647\nX 0 ok\nX 999 no J4 10 0\nA 6 0\nend blocked 10\n";

fn log_of(alloc: Global, entries: &[Entry]) -> Result<Log, NoMemory> {
    let mut log = Log::new(alloc);
    for entry in entries {
        log.push(*entry)?;
    }
    Ok(log)
}

#[test]
fn each_kind_of_entry_has_its_line(rt: HostRuntime) -> Result<(), Fail> {
    let mut sink = MemorySink::new(rt.alloc(), 1000)?;
    let log = log_of(rt.alloc(), &LOG)?;
    assert_eq!(rt; write(&log, Ending::Blocked, &mut sink), Ok(()));
    assert_eq!(rt; sink.bytes(), TEXT);
    Ok(())
}
