//! The log that a text is of.

ghost use Rattle.std.specs.Prelude.{◌≡◌, ◌≤◌, ◌<◌, ◌++◌, ℕ, List, length, Ok, Err};
ghost use Rattle.run_log.specs.declared.entry.Entry.{Entry};
ghost use Rattle.run_log.specs.declared.entry.Ending.{Ending};
ghost use Rattle.run_log.specs.LogText.{first_line};
ghost use Rattle.log_read.specs.declared.error.LogErr.{LogErr};
ghost use Rattle.log_read.specs.LogReads.{IsTextOf, IsRefused, Reads, Gives};
ghost use Rattle.log_read.specs.Steps.{StepsTo};

use crate::error::LogErr;
use crate::rows::{LogLine, row};
use crate::words;
use run_log::{Ending, Entry, Log, MAX_ENTRIES};
use std::alloc::Global;

/// What comes behind the entries so far.
#[derive(Clone, Copy)]
pub enum Step<'a> {
    /// The next entry, and the text behind its line.
    Next(Entry, &'a [u8]),
    /// The last line, with nothing behind it.
    Closed(Ending),
}

/// What comes behind so many entries, where the text goes on.
fn next_step(count: u32, rest: &[u8]) -> Result<Step<'_>, LogErr>
    requires few { count ≤ MAX_ENTRIES }
    requires more { 0 < length rest.now }
    ensures { StepsTo count rest.now result }
{
    let Some((line, behind)) = row(rest) else {
        return Err(LogErr::BadLine(count + 2));
    };
    match line {
        LogLine::Of(entry) => {
            if count >= MAX_ENTRIES {
                return Err(LogErr::BadLine(count + 2));
            }
            Ok(Step::Next(entry, behind))
        }
        LogLine::Last {
            ending,
            count: counted,
        } => {
            if counted != count {
                return Err(LogErr::BadLine(count + 2));
            }
            if !behind.is_empty() {
                return Err(LogErr::BadLine(count + 3));
            }
            Ok(Step::Closed(ending))
        }
    }
}

/// Room for the entries of a text: as many as it has line feeds, or as a log may have. A list that grows would leave its smaller copies behind.
fn room_for(text: &[u8]) -> u32 {
    let mut room = 0;
    for byte in text {
        if *byte == b'\n' && room < MAX_ENTRIES {
            room += 1;
        }
    }
    room
}

/// The log of a text that goes on so behind its first line.
fn lines(alloc: Global, text: &[u8]) -> Result<(Log, Ending), LogErr>
    ensures { Reads (first_line ++ text.now) result }
{
    let mut log = Log::with_capacity(alloc, room_for(text))?;
    let mut rest = text;
    while !rest.is_empty() {
        match next_step(log.len(), rest)? {
            Step::Next(entry, behind) => {
                log.push(entry)?;
                rest = behind;
            }
            Step::Closed(ending) => return Ok((log, ending)),
        }
    }
    Err(LogErr::NoEnd)
}

/// The log of a text.
fn log_in(alloc: Global, text: &[u8]) -> Result<(Log, Ending), LogErr>
    ensures { Reads text.now result }
{
    if text.is_empty() {
        return Err(LogErr::NoEnd);
    }
    match words::bytes(b"STEPNC-LOG 1\n", text) {
        None => Err(LogErr::BadLine(1)),
        Some(rest) => lines(alloc, rest),
    }
}

/// The log and the ending whose text this is: the line `STEPNC-LOG 1`, a line for each entry, of which there are at most `run_log::MAX_ENTRIES`, and
/// a last line with the ending and their count. Each line ends with a line feed, single spaces part its words, numbers are plain decimal, and each is
/// in the range that this profile gives it. Memory is taken for the entries alone, at once, by the count of the lines.
///
/// # Errors
/// `BadLine` with the first line, counted from 1, that isn't in its place; a line behind the last one never is. `NoEnd` where every line is in its
/// place and none is the last one. Or `NoMemory`, where memory runs out.
pub fn read(alloc: Global, bytes: &[u8]) -> Result<(Log, Ending), LogErr>
    // What is read is the log of the text, and a refusal has its cause there.
    ensures read { Reads bytes.now result }
    // The log of a text is read, unless memory runs out.
    ensures only { (t : List Entry) (ending : Ending) → IsTextOf bytes.now t ending → Gives result (Ok (t, ending)) }
    // A cause gives its refusal, unless memory runs out.
    ensures refuses { (e : LogErr) → IsRefused bytes.now e → Gives result (Err e) }
{
    log_in(alloc, bytes)
}
