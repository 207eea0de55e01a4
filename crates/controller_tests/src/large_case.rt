//! The command that makes a large case, runs it and counts its log.

use crate::asked::{answered, expect};
use controller::Status;
use std::alloc::Global;
use std::process::Abort;
use std::str;
use std::test::Fail;

/// Numbers of a large case, and the line of its counts. The first three are worked out by hand: a hole has six blocks, `1 7` is a pocket of depth 25 on five
/// levels with two rings, and `3 0` ends with a face of six rows; beside its blocks each workingstep has two entries, and the two marks and the two
/// waits have one each. The others are those of the second implementation.
const LINES: [(&[&str], &str); 5] = [
    (
        &["big", "1", "0"],
        "big 1 0 done entries 12 blocks 6 accepted 0 refused 0\n",
    ),
    (
        &["big", "1", "7"],
        "big 1 7 done entries 69 blocks 63 accepted 0 refused 0\n",
    ),
    (
        &["big", "3", "0"],
        "big 3 0 done entries 39 blocks 29 accepted 0 refused 0\n",
    ),
    (
        &["big", "60", "12345"],
        "big 60 12345 done entries 3159 blocks 3029 accepted 5 refused 1\n",
    ),
    (
        &["big", "1000", "7"],
        "big 1000 7 done entries 51315 blocks 49211 accepted 93 refused 7\n",
    ),
];

/// Stops unless the words write this line, whatever the files hold.
fn expect_line(rt: &impl Abort, alloc: Global, words: &[&str], line: &str) -> Result<(), Fail> {
    let (status, sink) = answered(alloc, "", words)?;
    assert_eq!(rt; status, Status::Written, "of {words:?}");
    assert_eq!(rt; sink.bytes(), line.as_bytes(), "of {words:?}");
    Ok(())
}

#[test]
fn large_cases_are_counted(rt: HostRuntime) -> Result<(), Fail> {
    for (words, line) in &LINES {
        expect_line(&rt, rt.alloc(), *words, *line)?;
    }
    Ok(())
}

#[test]
fn the_same_two_numbers_give_the_same_line(rt: HostRuntime) -> Result<(), Fail> {
    let (_, first) = answered(rt.alloc(), "", &["big", "30", "7"])?;
    let line = str::from_utf8(first.bytes()).unwrap_or("");
    expect(&rt, line.starts_with("big 30 7 done entries "), true);
    expect_line(&rt, rt.alloc(), &["big", "30", "7"], line)
}
