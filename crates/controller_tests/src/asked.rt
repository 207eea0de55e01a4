//! Calls of the controller over files and a sink in memory.

use controller::{Status, quick, top};
use nc_base::{NcText, NoMemory};
use nc_outside::{Files, FreeGate, MemoryFiles, MemorySink, Sink};
use std::alloc::Global;
use std::fmt::Debug;
use std::process::Abort;

/// The words of a replay of `plate.stp`.
pub const REPLAY: [&str; 5] = ["replay", "plate.stp", "-", "-", "100"];

/// The words of the path of its workingstep 10.
pub const PATH: [&str; 3] = ["path", "plate.stp", "10"];

/// The words of the large case of one workingstep.
pub const BIG: [&str; 3] = ["big", "1", "0"];

/// A list of these words.
pub fn texts(alloc: Global, words: &[&str]) -> Result<Vec<NcText>, NoMemory> {
    let mut list = Vec::with_capacity(alloc, words.len())?;
    for word in words {
        list.push(NcText::of(alloc, word.as_bytes())?)?;
    }
    Ok(list)
}

/// Files of which one, `plate.stp`, holds this text.
pub fn files_with(alloc: Global, text: &str) -> Result<MemoryFiles, NoMemory> {
    let mut files = MemoryFiles::new(alloc);
    files.add(&NcText::of(alloc, b"plate.stp")?, text.as_bytes())?;
    Ok(files)
}

/// The status that the words give over these files and this sink. It promises nothing, so that each caller is proved without what
/// `quick` promises.
pub fn status_of<F: Files, S: Sink>(
    alloc: Global,
    words: &[&str],
    files: &mut F,
    sink: &mut S,
) -> Result<Status, NoMemory> {
    let words = texts(alloc, words)?;
    Ok(quick(alloc, words.as_slice(), files, sink))
}

/// The same of `top`.
pub fn top_status_of<F: Files, S: Sink>(
    rt: HostRuntime,
    words: &[&str],
    files: &mut F,
    sink: &mut S,
) -> Result<Status, NoMemory> {
    let words = texts(rt.alloc(), words)?;
    Ok(top(&rt, words.as_slice(), files, sink, &FreeGate))
}

/// The status that the words give, and the sink, where `plate.stp` holds the text.
pub fn answered(
    alloc: Global,
    text: &str,
    words: &[&str],
) -> Result<(Status, MemorySink), NoMemory> {
    let mut files = files_with(alloc, text)?;
    let mut sink = MemorySink::new(alloc, 4_000_000)?;
    let status = status_of(alloc, words, &mut files, &mut sink)?;
    Ok((status, sink))
}

/// The text with a part of it in place of another. It promises nothing, like `status_of`.
pub fn replaced(alloc: Global, text: &str, old: &str, new: &str) -> Result<String, NoMemory> {
    Ok(text.replace(alloc, old, new)?)
}

/// The text with parts of it in place of others.
pub fn changed(alloc: Global, text: &str, changes: &[(&str, &str)]) -> Result<String, NoMemory> {
    let mut whole = String::from_str(alloc, text)?;
    for (old, new) in changes {
        whole = replaced(alloc, &whole, *old, *new)?;
    }
    Ok(whole)
}

/// Stops unless the two are equal. A comparison is proved here once, and a test only calls it.
pub fn expect<T: PartialEq + Debug + Drop>(rt: &impl Abort, found: T, wanted: T) {
    assert_eq!(rt; found, wanted);
}
