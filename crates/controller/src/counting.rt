//! The counts of a log, and the line that says them.

ghost use Rattle.std.specs.Prelude.{◌≡◌, ◌+◌, ◌≤◌, ◌<◌, ◌^◌, ◌++◌, ◌∷◌, length, decimal};
ghost use Rattle.std.specs.List.{count_by};
ghost use Rattle.arrayvec.specs.ArrayVec.{array_vec_len};
ghost use Rattle.controller.specs.Counts.{is_block, is_accepted, is_refused, counts_of, counts_line};

use itoa::Buffer;
use nc_base::{Line, Verdict, put, put_number};
use run_log::{Ending, Entry, Log};

/// How many entries a log has, and how many of some kinds.
#[derive(Clone, Copy, Debug, PartialEq, Eq)]
pub struct Counts {
    /// All entries.
    pub entries: u32,
    /// Blocks of paths.
    pub blocks: u32,
    /// Edits that were accepted.
    pub accepted: u32,
    /// Edits that were refused.
    pub refused: u32,
}

fn is_block(entry: &Entry) -> bool
    ensures { result ≡ is_block entry.now }
{
    match entry {
        Entry::Block { .. } => true,
        _ => false,
    }
}

fn is_accepted(entry: &Entry) -> bool
    ensures { result ≡ is_accepted entry.now }
{
    match entry {
        Entry::Edit { verdict, .. } => match verdict {
            Verdict::Accepted => true,
            Verdict::Refused { .. } => false,
        },
        _ => false,
    }
}

fn is_refused(entry: &Entry) -> bool
    ensures { result ≡ is_refused entry.now }
{
    match entry {
        Entry::Edit { verdict, .. } => match verdict {
            Verdict::Accepted => false,
            Verdict::Refused { .. } => true,
        },
        _ => false,
    }
}

fn blocks_in(log: &[Entry]) -> usize
    ensures { result ≡ count_by is_block log.now }
{
    log.iter().filter(|entry| is_block(*entry)).count()
}

fn accepted_in(log: &[Entry]) -> usize
    ensures { result ≡ count_by is_accepted log.now }
{
    log.iter().filter(|entry| is_accepted(*entry)).count()
}

fn refused_in(log: &[Entry]) -> usize
    ensures { result ≡ count_by is_refused log.now }
{
    log.iter().filter(|entry| is_refused(*entry)).count()
}

/// The counts of a log. It takes no memory.
pub fn counts_of(log: &Log) -> Counts
    ensures { result ≡ counts_of log.now }
{
    let entries = log.as_slice();
    Counts {
        entries: log.len(),
        blocks: blocks_in(entries) as u32,
        accepted: accepted_in(entries) as u32,
        refused: refused_in(entries) as u32,
    }
}

/// Puts a word and a number at the line's end, a space before the number, which has at most ten digits.
fn put_count(line: &mut Line, word: &[u8], n: u32)
    requires { array_vec_len line.old + (length word.now + 11) ≤ 256 }
    ensures items { line.new.items ≡ line.old.items ++ (word.now ++ 32 ∷ decimal n) }
    ensures len { array_vec_len line.new ≤ array_vec_len line.old + (length word.now + 11) }
{
    let mut buffer = Buffer::new();
    put(line, word);
    put(line, b" ");
    put(line, buffer.format(n).as_bytes());
}

/// The line of the large case of these two numbers, whose run ended so and has a log of these counts.
#[tactic(auto, unfolding(crate::specs::Counts::counts_line))]
pub fn counts_line(steps: u32, start: u32, ending: Ending, counts: Counts) -> Line
    ensures { result.items ≡ counts_line steps start ending counts }
{
    let mut line = Line::new();
    put_count(&mut line, b"big", steps);
    put_number(&mut line, start);
    put(
        &mut line,
        match ending {
            Ending::Done => b" done".as_slice(),
            Ending::Blocked => b" blocked",
            Ending::Limit => b" limit".as_slice(),
        },
    );
    put_count(&mut line, b" entries", counts.entries);
    put_count(&mut line, b" blocks", counts.blocks);
    put_count(&mut line, b" accepted", counts.accepted);
    put_count(&mut line, b" refused", counts.refused);
    put(&mut line, b"\n");
    line
}
