//! How often files are read and pieces put: once for each name that the words give, in their order, and a line at a time.

ghost use Rattle.std.specs.Prelude.{◌≡◌, ℕ, ◌≤◌, ◌<◌, []};

use crate::asked::{
    BIG, PATH, REPLAY, expect, files_with, replaced, status_of, texts, top_status_of,
};
use crate::projects::{HOLE, PLATE};
use controller::Status;
use nc_base::{NcText, NoMemory};
use nc_outside::{Failed, FileErr, Files, MemoryFiles, MemorySink, Sink};
use std::alloc::Global;
use std::process::Abort;
use std::test::Fail;

/// Files that count their reads: those of the wanted names in their order, and all others.
#[derive(Drop)]
struct CountedFiles<F: Files + Drop> {
    files: F,
    wanted: Vec<NcText>,
    in_order: usize,
    strays: u32,
}

impl<F: Files + Drop> CountedFiles<F> {
    fn is_wanted(&self, name: &NcText) -> bool {
        self.in_order < self.wanted.len() && self.wanted[self.in_order].bytes() == name.bytes()
    }
}

impl<F: Files + Drop> Files for CountedFiles<F> {
    ghost holds = { λ c n. F.holds c.files n };

    ghost faults = { λ c n. F.faults c.files n };

    fn read(&mut self, name: &NcText, room: &mut Vec<u8>, most: u32) -> Result<(), FileErr> {
        if self.is_wanted(name) {
            self.in_order = self.in_order.saturating_add(1);
        } else {
            self.strays = self.strays.saturating_add(1);
        }
        self.files.read(name, room, most)
    }
}

/// A sink that counts the pieces put into it, and those that aren't a line each.
#[derive(Drop)]
struct CountedSink<S: Sink + Drop> {
    sink: S,
    lines: u32,
    others: u32,
}

/// Whether the piece is one line with its end.
fn is_line(piece: &[u8]) -> bool {
    match piece.split_last() {
        Some((last, front)) => *last == b'\n' && front.iter().all(|b| *b != b'\n'),
        None => false,
    }
}

impl<S: Sink + Drop> Sink for CountedSink<S> {
    ghost taken = { λ c. S.taken c.sink };

    ghost faults = { λ c. S.faults c.sink };

    fn put(&mut self, piece: &[u8]) -> Result<usize, Failed> {
        if is_line(piece) {
            self.lines = self.lines.saturating_add(1);
        } else {
            self.others = self.others.saturating_add(1);
        }
        self.sink.put(piece)
    }
}

fn counting<F: Files + Drop>(files: F, wanted: Vec<NcText>) -> CountedFiles<F> {
    CountedFiles {
        files,
        wanted,
        in_order: 0,
        strays: 0,
    }
}

/// Files with this text in `plate.stp` and a script of no edit in `edits` that want to be read once for each of these names.
fn counted_files(
    alloc: Global,
    text: &str,
    names: &[&str],
) -> Result<CountedFiles<MemoryFiles>, NoMemory> {
    let wanted = texts(alloc, names)?;
    let mut files = files_with(alloc, text)?;
    files.add(&NcText::of(alloc, b"edits")?, b"")?;
    Ok(counting(files, wanted))
}

fn counted_sink(alloc: Global) -> Result<CountedSink<MemorySink>, NoMemory> {
    Ok(CountedSink {
        sink: MemorySink::new(alloc, 100_000)?,
        lines: 0,
        others: 0,
    })
}

/// How many reads were of the wanted names in their order and of others, and how many pieces were a line and not, where the words are
/// asked of files with this text in `plate.stp`.
fn counts(
    alloc: Global,
    text: &str,
    words: &[&str],
    names: &[&str],
) -> Result<((usize, u32), (u32, u32)), NoMemory> {
    let mut files = counted_files(alloc, text, names)?;
    let mut sink = counted_sink(alloc)?;
    status_of(alloc, words, &mut files, &mut sink)?;
    Ok(((files.in_order, files.strays), (sink.lines, sink.others)))
}

/// Stops unless each name is read once, in this order, and no other.
fn expect_reads(
    rt: &impl Abort,
    alloc: Global,
    text: &str,
    words: &[&str],
    names: &[&str],
) -> Result<(), Fail> {
    let (reads, _) = counts(alloc, text, words, names)?;
    assert_eq!(rt; reads, (names.len(), 0), "of {words:?}");
    Ok(())
}

/// Stops unless the words write so many pieces, each of them a line.
fn expect_pieces(
    rt: &impl Abort,
    alloc: Global,
    text: &str,
    words: &[&str],
    count: u32,
) -> Result<(), Fail> {
    let (_, pieces) = counts(alloc, text, words, &[])?;
    assert_eq!(rt; pieces, (count, 0), "of {words:?}");
    Ok(())
}

/// Words, and the names that they give to be read.
const READS: [(&[&str], &[&str]); 26] = [
    (&REPLAY, &["plate.stp"]),
    (&PATH, &["plate.stp"]),
    (&["path", "plate.stp", "20"], &["plate.stp"]),
    (&["replay", "missing.stp", "-", "-", "7"], &["missing.stp"]),
    (
        &["replay", "plate.stp", "-", "turns", "7"],
        &["plate.stp", "turns"],
    ),
    (
        &["replay", "plate.stp", "-", "plate.stp", "7"],
        &["plate.stp", "plate.stp"],
    ),
    (
        &["replay", "missing.stp", "-", "turns", "7"],
        &["missing.stp"],
    ),
    (&["replay", "plate.stp", "-", "", "7"], &[]),
    (&["path", "-", "10"], &["-"]),
    (
        &["replay", "plate.stp", "edits", "turns", "7"],
        &["plate.stp", "edits", "turns"],
    ),
    (
        &["replay", "plate.stp", "edits", "-", "7"],
        &["plate.stp", "edits"],
    ),
    (
        &["replay", "plate.stp", "plate.stp", "turns", "7"],
        &["plate.stp", "plate.stp"],
    ),
    (
        &["replay", "plate.stp", "missing", "turns", "7"],
        &["plate.stp", "missing"],
    ),
    (
        &["replay", "missing.stp", "edits", "turns", "7"],
        &["missing.stp"],
    ),
    (&["replay", "plate.stp", "", "-", "7"], &[]),
    (&["path", "plate.stp", "0"], &[]),
    (
        &["check", "plate.stp", "edits", "log"],
        &["plate.stp", "edits", "log"],
    ),
    (&["check", "plate.stp", "-", "log"], &["plate.stp", "log"]),
    (
        &["check", "plate.stp", "-", "plate.stp"],
        &["plate.stp", "plate.stp"],
    ),
    (&["check", "plate.stp", "-", "-"], &["plate.stp", "-"]),
    (
        &["check", "plate.stp", "missing", "log"],
        &["plate.stp", "missing"],
    ),
    (&["check", "missing.stp", "edits", "log"], &["missing.stp"]),
    (&["check", "plate.stp", "-", ""], &[]),
    (&BIG, &[]),
    (&["--help"], &[]),
    (&["--version"], &[]),
];

#[test]
fn each_named_file_is_read_once(rt: HostRuntime) -> Result<(), Fail> {
    for (words, names) in &READS {
        expect_reads(&rt, rt.alloc(), HOLE, *words, *names)?;
    }
    Ok(())
}

/// Changes of the drilled hole for which it is refused early and late.
const REFUSED: [(&str, &str); 5] = [
    ("DATA;", "DATA; ~"),
    ("(10.,20.,0.)", "$"),
    ("#60,#51,10.", "#60,#99,10."),
    ("(#10),$", "(#10,#10),$"),
    ("(0.040,", "(0.,"),
];

fn expect_refused_reads(rt: &impl Abort, alloc: Global, old: &str, new: &str) -> Result<(), Fail> {
    let text = replaced(alloc, HOLE, old, new)?;
    expect_reads(rt, alloc, &text, &REPLAY, &["plate.stp"])?;
    expect_reads(
        rt,
        alloc,
        &text,
        &["replay", "plate.stp", "edits", "turns", "7"],
        &["plate.stp"],
    )?;
    expect_reads(rt, alloc, &text, &PATH, &["plate.stp"])?;
    expect_pieces(rt, alloc, &text, &REPLAY, 1)
}

#[test]
fn a_refused_file_is_read_once_and_gives_one_line(rt: HostRuntime) -> Result<(), Fail> {
    for (old, new) in &REFUSED {
        expect_refused_reads(&rt, rt.alloc(), *old, *new)?;
    }
    Ok(())
}

/// What `plate.stp` holds, words, and how many lines they write.
const LINES: [(&str, &[&str], u32); 8] = [
    (HOLE, &REPLAY, 10),
    (HOLE, &["replay", "plate.stp", "-", "-", "3"], 5),
    (HOLE, &PATH, 6),
    (PLATE, &["path", "plate.stp", "13"], 88),
    (HOLE, &["path", "plate.stp", "20"], 1),
    (HOLE, &["fly"], 1),
    (HOLE, &BIG, 1),
    (HOLE, &["check", "plate.stp", "-", "plate.stp"], 1),
];

#[test]
fn each_line_is_one_piece(rt: HostRuntime) -> Result<(), Fail> {
    for (text, words, count) in &LINES {
        expect_pieces(&rt, rt.alloc(), *text, *words, *count)?;
    }
    Ok(())
}

#[test]
fn top_reads_once_too(rt: HostRuntime) -> Result<(), Fail> {
    let mut files = counted_files(rt.alloc(), HOLE, &["plate.stp"])?;
    let mut sink = counted_sink(rt.alloc())?;
    let status = top_status_of(rt, &REPLAY, &mut files, &mut sink)?;
    expect(&rt, status, Status::Done);
    expect(&rt, (files.in_order, files.strays), (1, 0));
    expect(&rt, (sink.lines, sink.others), (10, 0));
    Ok(())
}
