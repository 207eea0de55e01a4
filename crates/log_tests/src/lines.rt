//! Lines that are in their place, and lines that aren't.

use crate::expected::expect;
use log_read::{LogErr, read};
use nc_base::Verdict;
use path_blocks::Block;
use run_log::{Ending, Entry};
use std::alloc::Global;
use std::process::Abort;
use std::test::Fail;

// Stops unless the text is that of the one entry, with the ending done.
fn expect_entry(rt: &impl Abort, alloc: Global, text: &[u8], want: Entry) {
    let found = read(alloc, text).map(|read| (read.0.as_slice().first().copied(), read.1));
    expect(rt, found, Ok((Some(want), Ending::Done)));
}

// Stops unless the text is refused so.
fn expect_refused(rt: &impl Abort, alloc: Global, text: &[u8], want: LogErr) {
    let found = read(alloc, text).map(|read| read.0.len());
    expect(rt, found, Err(want));
}

#[test]
fn each_kind_of_entry_is_read(rt: HostRuntime) {
    let rows: [(&[u8], Entry); 9] = [
        (
            b"STEPNC-LOG 1\nD 10 0\nend done 1\n",
            Entry::Dispatch { n: 10, v: 0 },
        ),
        (b"STEPNC-LOG 1\nE 7\nend done 1\n", Entry::End { n: 7 }),
        (
            b"STEPNC-LOG 1\nP 3 65534\nend done 1\n",
            Entry::Pick { n: 3, k: 65_534 },
        ),
        (
            b"STEPNC-LOG 1\nT 3 0\nend done 1\n",
            Entry::Test { n: 3, yes: false },
        ),
        (
            b"STEPNC-LOG 1\nT 3 1\nend done 1\n",
            Entry::Test { n: 3, yes: true },
        ),
        (
            b"STEPNC-LOG 1\nA 6 -1000000000000000\nend done 1\n",
            Entry::Assign {
                n: 6,
                x: -1_000_000_000_000_000,
            },
        ),
        (b"STEPNC-LOG 1\nS 7\nend done 1\n", Entry::Set { n: 7 }),
        (b"STEPNC-LOG 1\nW 6\nend done 1\n", Entry::Pass { n: 6 }),
        (
            b"STEPNC-LOG 1\nM 2147483647\nend done 1\n",
            Entry::Note { n: 2_147_483_647 },
        ),
    ];
    for (text, want) in rows {
        expect_entry(&rt, rt.alloc(), text, want);
    }
}

#[test]
fn each_kind_of_block_is_read(rt: HostRuntime) {
    let rows: [(&[u8], u32, Block); 4] = [
        (
            b"STEPNC-LOG 1\nB 9 0 T 44 -100000000\nend done 1\n",
            0,
            Block::Tool {
                tool: 44,
                spindle: -100_000_000,
            },
        ),
        (
            b"STEPNC-LOG 1\nB 9 1 R -200000000 0 200000000\nend done 1\n",
            1,
            Block::Rapid {
                x: -200_000_000,
                y: 0,
                z: 200_000_000,
            },
        ),
        (
            b"STEPNC-LOG 1\nB 9 19999 F 1 -1 0 100000000\nend done 1\n",
            19_999,
            Block::Feed {
                x: 1,
                y: -1,
                z: 0,
                f: 100_000_000,
            },
        ),
        (
            b"STEPNC-LOG 1\nB 9 2 W 1\nend done 1\n",
            2,
            Block::Dwell { ms: 1 },
        ),
    ];
    for (text, k, b) in rows {
        expect_entry(&rt, rt.alloc(), text, Entry::Block { n: 9, k, b });
    }
}

#[test]
fn each_verdict_is_read(rt: HostRuntime) {
    let rows: [(&[u8], u32, Verdict); 3] = [
        (b"STEPNC-LOG 1\nX 0 ok\nend done 1\n", 0, Verdict::Accepted),
        (
            b"STEPNC-LOG 1\nX 999 no J5 2147483647 0\nend done 1\n",
            999,
            Verdict::Refused {
                code: 5,
                a: 2_147_483_647,
                b: 0,
            },
        ),
        (
            b"STEPNC-LOG 1\nX 1 no J1 2 2\nend done 1\n",
            1,
            Verdict::Refused {
                code: 1,
                a: 2,
                b: 2,
            },
        ),
    ];
    for (text, i, verdict) in rows {
        expect_entry(&rt, rt.alloc(), text, Entry::Edit { i, verdict });
    }
}

// Each has one fault, in its second line.
#[test]
fn numbers_are_written_in_one_way(rt: HostRuntime) {
    let rows: [&[u8]; 12] = [
        b"STEPNC-LOG 1\nE 07\nend done 1\n",
        b"STEPNC-LOG 1\nE +7\nend done 1\n",
        b"STEPNC-LOG 1\nA 7 -0\nend done 1\n",
        b"STEPNC-LOG 1\nA 7 00\nend done 1\n",
        b"STEPNC-LOG 1\nA 7 --1\nend done 1\n",
        b"STEPNC-LOG 1\nA 7 -\nend done 1\n",
        b"STEPNC-LOG 1\nE \nend done 1\n",
        b"STEPNC-LOG 1\nE 7 \nend done 1\n",
        b"STEPNC-LOG 1\nE  7\nend done 1\n",
        b"STEPNC-LOG 1\n E 7\nend done 1\n",
        b"STEPNC-LOG 1\nE 7\r\nend done 1\n",
        b"STEPNC-LOG 1\nE\t7\nend done 1\n",
    ];
    for text in rows {
        expect_refused(&rt, rt.alloc(), text, LogErr::BadLine(2));
    }
}

// Each has one number that is past its range, in its second line.
#[test]
fn numbers_are_in_their_ranges(rt: HostRuntime) {
    let rows: [&[u8]; 20] = [
        b"STEPNC-LOG 1\nE 0\nend done 1\n",
        b"STEPNC-LOG 1\nE 2147483648\nend done 1\n",
        b"STEPNC-LOG 1\nE 18446744073709551617\nend done 1\n",
        b"STEPNC-LOG 1\nD 1 1001\nend done 1\n",
        b"STEPNC-LOG 1\nB 1 20000 W 1\nend done 1\n",
        b"STEPNC-LOG 1\nB 1 0 W 0\nend done 1\n",
        b"STEPNC-LOG 1\nB 1 0 W -1\nend done 1\n",
        b"STEPNC-LOG 1\nB 1 0 W 100000001\nend done 1\n",
        b"STEPNC-LOG 1\nB 1 0 T 0 1\nend done 1\n",
        b"STEPNC-LOG 1\nB 1 0 T 1 100000001\nend done 1\n",
        b"STEPNC-LOG 1\nB 1 0 R 0 0 200000001\nend done 1\n",
        b"STEPNC-LOG 1\nB 1 0 R -200000001 0 0\nend done 1\n",
        b"STEPNC-LOG 1\nB 1 0 F 0 0 0 0\nend done 1\n",
        b"STEPNC-LOG 1\nP 1 65535\nend done 1\n",
        b"STEPNC-LOG 1\nT 1 2\nend done 1\n",
        b"STEPNC-LOG 1\nA 1 1000000000000001\nend done 1\n",
        b"STEPNC-LOG 1\nX 1000 ok\nend done 1\n",
        b"STEPNC-LOG 1\nX 0 no J0 1 1\nend done 1\n",
        b"STEPNC-LOG 1\nX 0 no J6 1 1\nend done 1\n",
        b"STEPNC-LOG 1\nX 0 no J1 2147483648 1\nend done 1\n",
    ];
    for text in rows {
        expect_refused(&rt, rt.alloc(), text, LogErr::BadLine(2));
    }
}

#[test]
fn the_first_bad_line_is_named(rt: HostRuntime) {
    let rows: [(&[u8], LogErr); 15] = [
        (b"", LogErr::NoEnd),
        (b"STEPNC-LOG 1\n", LogErr::NoEnd),
        (b"STEPNC-LOG 1\nE 7\n", LogErr::NoEnd),
        (b"\n", LogErr::BadLine(1)),
        (b"STEPNC-LOG 1", LogErr::BadLine(1)),
        (b"STEPNC-LOG 2\nend done 0\n", LogErr::BadLine(1)),
        (b"STEPNC-LOG 01\nend done 0\n", LogErr::BadLine(1)),
        (b"STEPNC-LOG 1\n\nend done 0\n", LogErr::BadLine(2)),
        (b"STEPNC-LOG 1\nend done 1\n", LogErr::BadLine(2)),
        (b"STEPNC-LOG 1\nend gone 0\n", LogErr::BadLine(2)),
        (b"STEPNC-LOG 1\nE 7\nend limit 01\n", LogErr::BadLine(3)),
        (b"STEPNC-LOG 1\nE 7\nend done 1", LogErr::BadLine(3)),
        (b"STEPNC-LOG 1\nE 7\nend done 1\n\n", LogErr::BadLine(4)),
        (b"STEPNC-LOG 1\nE 7\nend done 1\nE 7\n", LogErr::BadLine(4)),
        (
            b"STEPNC-LOG 1\nE 7\ne 7\nE 0\nend done 3\n",
            LogErr::BadLine(3),
        ),
    ];
    for (text, want) in rows {
        expect_refused(&rt, rt.alloc(), text, want);
    }
}
