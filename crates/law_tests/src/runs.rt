//! Whether lists of entries are runs of a tree, and where it can go on.

ghost use Rattle.exec_tree.specs.Exec.{nodes, AreDistinct};
ghost use Rattle.trace_law.specs.Below.{tree_in};

use crate::rows::PROJECTS;
use crate::trees::tree;
use exec_tree::Tree;
use nc_base::{Number, Verdict};
use path_blocks::Block;
use run_log::Entry;
use std::alloc::Global;
use std::process::Abort;
use std::test::Fail;
use trace_law::{first_stray, next, part, whole};

/// The entry of a letter, a node, and one more number. Each block is a dwell, a value is in thousandths, and an edit is accepted.
fn entry_of(letter: &str, n: Number, k: u32) -> Entry {
    match letter {
        "D" => Entry::Dispatch { n, v: k },
        "B" => Entry::Block {
            n,
            k,
            b: Block::Dwell { ms: 5 },
        },
        "E" => Entry::End { n },
        "P" => Entry::Pick { n, k },
        "T" => Entry::Test { n, yes: k == 1 },
        "A" => Entry::Assign { n, x: i64::from(k) },
        "S" => Entry::Set { n },
        "W" => Entry::Pass { n },
        "M" => Entry::Note { n },
        _ => Entry::Edit {
            i: n,
            verdict: Verdict::Accepted,
        },
    }
}

/// The entry of a word: a letter, a number, and one more behind a point.
fn entry(word: &str) -> Result<Entry, Fail> {
    let (name, more) = word.split_once('.').unwrap_or((word, "0"));
    let (letter, n) = name.split_at_checked(1).unwrap_or(("", ""));
    Ok(entry_of(letter, n.parse::<u32>()?, more.parse::<u32>()?))
}

/// The entries of words.
pub(crate) fn entries(alloc: Global, words: &str) -> Result<Vec<Entry>, Fail> {
    let mut t = Vec::new(alloc);
    for word in words.split_whitespace() {
        t.push(entry(word)?)?;
    }
    Ok(t)
}

/// The numbers of words.
pub(crate) fn numbers(alloc: Global, words: &str) -> Result<Vec<Number>, Fail> {
    let mut all = Vec::new(alloc);
    for word in words.split_whitespace() {
        all.push(word.parse::<u32>()?)?;
    }
    Ok(all)
}

// Stops unless the list is a run so far where it is wanted.
fn expect_part(
    rt: &impl Abort,
    alloc: Global,
    tree: &Tree,
    t: &[Entry],
    row: &str,
    wanted: &str,
) -> Result<(), Fail>
    requires { AreDistinct (nodes (tree_in tree.now)) }
{
    assert_eq!(rt; part(alloc, tree, t)?, wanted != "no", "{row}");
    Ok(())
}

// Stops unless the list is a whole run where it is wanted.
fn expect_whole(
    rt: &impl Abort,
    alloc: Global,
    tree: &Tree,
    t: &[Entry],
    row: &str,
    wanted: &str,
) -> Result<(), Fail>
    requires { AreDistinct (nodes (tree_in tree.now)) }
{
    assert_eq!(rt; whole(alloc, tree, t)?, wanted == "whole", "{row}");
    Ok(())
}

// Stops unless an entry strays exactly where the list is no run so far.
fn expect_stray(
    rt: &impl Abort,
    alloc: Global,
    tree: &Tree,
    t: &[Entry],
    row: &str,
    wanted: &str,
) -> Result<(), Fail> {
    assert_eq!(rt;
        first_stray(alloc, tree, t)?.is_some(),
        wanted == "no",
        "{row}"
    );
    Ok(())
}

// Stops unless the run can go on at these nodes. Of a list that is no run so far nothing is wanted.
fn expect_next(
    rt: &impl Abort,
    alloc: Global,
    tree: &Tree,
    t: &[Entry],
    row: &str,
    wanted: &str,
) -> Result<(), Fail> {
    if wanted == "no" {
        return Ok(());
    }
    let going = numbers(alloc, if wanted == "whole" { "" } else { wanted })?;
    assert_eq!(rt; next(alloc, tree, t)?.as_slice(), going.as_slice(), "{row}");
    Ok(())
}

// Stops unless each row is right.
fn expect_rows(rt: &impl Abort, alloc: Global, tree: &Tree, rows: &str) -> Result<(), Fail>
    requires { AreDistinct (nodes (tree_in tree.now)) }
{
    for row in rows.lines() {
        let (words, wanted) = row.split_once("| ").unwrap_or(("", ""));
        let t = entries(alloc, words)?;
        expect_part(rt, alloc, tree, t.as_slice(), row, wanted)?;
        expect_whole(rt, alloc, tree, t.as_slice(), row, wanted)?;
        expect_stray(rt, alloc, tree, t.as_slice(), row, wanted)?;
        expect_next(rt, alloc, tree, t.as_slice(), row, wanted)?;
    }
    Ok(())
}

#[test]
fn runs_of_all_kinds_and_where_they_go_on(rt: HostRuntime) -> Result<(), Fail> {
    for (data, rows) in PROJECTS {
        let tree = tree(&rt, rt.alloc(), data)?;
        expect_rows(&rt, rt.alloc(), &tree, rows)?;
    }
    Ok(())
}
