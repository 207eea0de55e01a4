//! What a list of entries is to a tree by one pass over it: the same as by the plain deciders, and as worked by hand.

use crate::rows::PROJECTS;
use crate::runs::{entries, numbers};
use crate::trees::tree;
use exec_tree::Tree;
use run_log::Entry;
use std::alloc::Global;
use std::process::Abort;
use std::test::Fail;

// Stops unless one pass finds of a list whether it is a run so far, and whether a whole one, as the plain deciders do.
fn expect_same(
    rt: &impl Abort,
    alloc: Global,
    tree: &Tree,
    t: &[Entry],
    row: &str,
) -> Result<(), Fail> {
    let part = trace_law::part(alloc, tree, t)?;
    assert_eq!(rt; trace_check::part(alloc, tree, t)?, part, "{row}");
    let whole = trace_law::whole(alloc, tree, t)?;
    assert_eq!(rt; trace_check::whole(alloc, tree, t)?, whole, "{row}");
    Ok(())
}

// Stops unless one pass finds the entry that strays first, as the plain decider does.
fn expect_same_stray(
    rt: &impl Abort,
    alloc: Global,
    tree: &Tree,
    t: &[Entry],
    row: &str,
) -> Result<(), Fail> {
    let stray = trace_law::first_stray(alloc, tree, t)?;
    assert_eq!(rt; trace_check::first_stray(alloc, tree, t)?, stray, "{row}");
    Ok(())
}

// Stops unless one pass finds the nodes where a run so far can go on, as the plain decider does, and none for any other list.
fn expect_same_next(
    rt: &impl Abort,
    alloc: Global,
    tree: &Tree,
    t: &[Entry],
    row: &str,
) -> Result<(), Fail> {
    let part = trace_law::part(alloc, tree, t)?;
    match trace_check::next(alloc, tree, t)? {
        Some(going) => {
            let plain = trace_law::next(alloc, tree, t)?;
            assert!(rt; part, "{row}");
            assert_eq!(rt; going.as_slice(), plain.as_slice(), "{row}");
        }
        None => assert!(rt; !part, "{row}"),
    }
    Ok(())
}

// All four.
fn expect_all_same(
    rt: &impl Abort,
    alloc: Global,
    tree: &Tree,
    t: &[Entry],
    row: &str,
) -> Result<(), Fail> {
    expect_same(rt, alloc, tree, t, row)?;
    expect_same_stray(rt, alloc, tree, t, row)?;
    expect_same_next(rt, alloc, tree, t, row)
}

/// The list without the entry at an index.
fn without(alloc: Global, t: &[Entry], i: usize) -> Result<Vec<Entry>, Fail> {
    let mut changed = Vec::new(alloc);
    for (j, x) in t.iter().enumerate() {
        if j != i {
            changed.push(*x)?;
        }
    }
    Ok(changed)
}

/// The list with the entry at an index twice.
fn doubled(alloc: Global, t: &[Entry], i: usize) -> Result<Vec<Entry>, Fail> {
    let mut changed = Vec::new(alloc);
    for (j, x) in t.iter().enumerate() {
        changed.push(*x)?;
        if j == i {
            changed.push(*x)?;
        }
    }
    Ok(changed)
}

/// The list with the entry at an index behind the one that follows it.
fn swapped(alloc: Global, t: &[Entry], i: usize) -> Result<Vec<Entry>, Fail> {
    let mut changed = Vec::new(alloc);
    let mut late = None;
    for (j, x) in t.iter().enumerate() {
        if j == i {
            late = Some(*x);
            continue;
        }
        changed.push(*x)?;
        if let Some(y) = late.take() {
            changed.push(y)?;
        }
    }
    Ok(changed)
}

// Stops unless both ways find the same of the list up to an index, and of it with the entry there left out, put twice, or moved behind.
fn expect_changed(
    rt: &impl Abort,
    alloc: Global,
    tree: &Tree,
    t: &[Entry],
    i: usize,
    row: &str,
) -> Result<(), Fail> {
    let (front, _) = t.split_at_checked(i).unwrap_or((t, t));
    expect_all_same(rt, alloc, tree, front, row)?;
    expect_all_same(rt, alloc, tree, without(alloc, t, i)?.as_slice(), row)?;
    expect_all_same(rt, alloc, tree, doubled(alloc, t, i)?.as_slice(), row)?;
    expect_all_same(rt, alloc, tree, swapped(alloc, t, i)?.as_slice(), row)
}

#[test]
fn one_pass_finds_what_the_plain_deciders_find(rt: HostRuntime) -> Result<(), Fail> {
    for (data, rows) in PROJECTS {
        let tree = tree(&rt, rt.alloc(), data)?;
        for row in rows.lines() {
            let (words, _wanted) = row.split_once("| ").unwrap_or(("", ""));
            let t = entries(rt.alloc(), words)?;
            expect_all_same(&rt, rt.alloc(), &tree, t.as_slice(), row)?;
            for i in 0..t.len() {
                expect_changed(&rt, rt.alloc(), &tree, t.as_slice(), i, row)?;
            }
        }
    }
    Ok(())
}

// Stops unless one pass finds of a list what was worked by hand.
fn expect_worked(
    rt: &impl Abort,
    alloc: Global,
    tree: &Tree,
    t: &[Entry],
    row: &str,
    wanted: &str,
) -> Result<(), Fail> {
    assert_eq!(rt; trace_check::part(alloc, tree, t)?, wanted != "no", "{row}");
    assert_eq!(rt;
        trace_check::whole(alloc, tree, t)?,
        wanted == "whole",
        "{row}"
    );
    let strays = trace_check::first_stray(alloc, tree, t)?.is_some();
    assert_eq!(rt; strays, wanted == "no", "{row}");
    Ok(())
}

// Stops unless one pass finds the nodes that were worked by hand, and none for a list that is no run so far.
fn expect_worked_next(
    rt: &impl Abort,
    alloc: Global,
    tree: &Tree,
    t: &[Entry],
    row: &str,
    wanted: &str,
) -> Result<(), Fail> {
    match trace_check::next(alloc, tree, t)? {
        Some(going) => {
            let worked = numbers(alloc, if wanted == "whole" { "" } else { wanted })?;
            assert_eq!(rt; going.as_slice(), worked.as_slice(), "{row}");
        }
        None => assert_eq!(rt; wanted, "no", "{row}"),
    }
    Ok(())
}

#[test]
fn one_pass_finds_what_was_worked_by_hand(rt: HostRuntime) -> Result<(), Fail> {
    for (data, rows) in PROJECTS {
        let tree = tree(&rt, rt.alloc(), data)?;
        for row in rows.lines() {
            let (words, wanted) = row.split_once("| ").unwrap_or(("", ""));
            let t = entries(rt.alloc(), words)?;
            expect_worked(&rt, rt.alloc(), &tree, t.as_slice(), row, wanted)?;
            expect_worked_next(&rt, rt.alloc(), &tree, t.as_slice(), row, wanted)?;
        }
    }
    Ok(())
}
