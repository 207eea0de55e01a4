//! Lines of a log, made on the stack. The longest has under 256 bytes, since no number has more than 40 digits.

ghost use Rattle.std.specs.Prelude.{◌≡◌, ◌+◌, ◌≤◌, ◌++◌, ◌∷◌, [], length, decimal};
ghost use Rattle.std.specs.Fmt.{signed_decimal};
ghost use Rattle.arrayvec.specs.ArrayVec.{array_vec_len};
ghost use Rattle.run_log.specs.Line.{line as line_text};
ghost use Rattle.run_log.specs.declared.entry.Entry.TheVariants.{Edit};
ghost use Rattle.run_log.specs.BlocksText.{block_line};
ghost use Rattle.run_log.specs.LogText.{answer_word, block_words, entry_words, ending_word, entry_line, last_line};

use crate::entry::{Ending, Entry};
use itoa::Buffer;
use nc_base::{Line, Verdict, put, put_number};
use path_blocks::Block;

/// Puts a space and a length, speed or time at the line's end.
fn put_length(line: &mut Line, n: i64)
    requires { array_vec_len line.old + 41 ≤ 256 }
    ensures items { line.new.items ≡ line.old.items ++ 32 ∷ signed_decimal n }
    ensures len { array_vec_len line.new ≤ array_vec_len line.old + 41 }
{
    let mut buffer = Buffer::new();
    put(line, b" ");
    put(line, buffer.format(n).as_bytes());
}

/// Puts the three words of a point at the line's end, a space before each.
fn put_point(line: &mut Line, x: i64, y: i64, z: i64)
    requires { array_vec_len line.old + 123 ≤ 256 }
    ensures items { line.new.items ≡ line.old.items ++ (32 ∷ signed_decimal x ++ (32 ∷ signed_decimal y ++ 32 ∷ signed_decimal z)) }
    ensures len { array_vec_len line.new ≤ array_vec_len line.old + 123 }
{
    put_length(line, x);
    put_length(line, y);
    put_length(line, z);
}

/// Puts the four words of a feed to a point at the line's end, a space before each.
fn put_feed(line: &mut Line, x: i64, y: i64, z: i64, f: i64)
    requires { array_vec_len line.old + 164 ≤ 256 }
    ensures items { line.new.items ≡ line.old.items ++ (32 ∷ signed_decimal x ++ (32 ∷ signed_decimal y ++ (32 ∷ signed_decimal z ++ 32 ∷ signed_decimal f))) }
    ensures len { array_vec_len line.new ≤ array_vec_len line.old + 164 }
{
    put_point(line, x, y, z);
    put_length(line, f);
}

/// Puts the words of a block at the line's end, a space before each but the first.
fn put_block(line: &mut Line, block: Block)
    requires { array_vec_len line.old + 169 ≤ 256 }
    ensures items { line.new.items ++ 10 ∷ [] ≡ line.old.items ++ line_text (block_words block) }
    ensures len { array_vec_len line.new ≤ array_vec_len line.old + 169 }
{
    match block {
        Block::Tool { tool, spindle } => {
            put(line, b"T");
            put_number(line, tool);
            put_length(line, spindle);
        }
        Block::Rapid { x, y, z } => {
            put(line, b"R");
            put_point(line, x, y, z);
        }
        Block::Feed { x, y, z, f } => {
            put(line, b"F");
            put_feed(line, x, y, z, f);
        }
        Block::Dwell { ms } => {
            put(line, b"W");
            put_length(line, ms);
        }
    }
}

/// Puts a word and a number at the line's end, a space between them.
fn put_one(line: &mut Line, word: &[u8], n: u32)
    requires { array_vec_len line.old + (length word.now + 41) ≤ 256 }
    ensures items { line.new.items ≡ line.old.items ++ (word.now ++ 32 ∷ decimal n) }
    ensures len { array_vec_len line.new ≤ array_vec_len line.old + (length word.now + 41) }
{
    put(line, word);
    put_number(line, n);
}

/// Puts a word and two numbers at the line's end, a space before each number.
fn put_two(line: &mut Line, word: &[u8], n: u32, k: u32)
    requires { array_vec_len line.old + (length word.now + 82) ≤ 256 }
    ensures items { line.new.items ≡ line.old.items ++ (word.now ++ (32 ∷ decimal n ++ 32 ∷ decimal k)) }
    ensures len { array_vec_len line.new ≤ array_vec_len line.old + (length word.now + 82) }
{
    put_one(line, word, n);
    put_number(line, k);
}

/// Puts a space and the digit of a test's answer at the line's end.
fn put_answer(line: &mut Line, yes: bool)
    requires { array_vec_len line.old + 2 ≤ 256 }
    ensures items { line.new.items ≡ line.old.items ++ 32 ∷ answer_word yes }
    ensures len { array_vec_len line.new ≡ array_vec_len line.old + 2 }
{
    if yes {
        put(line, b" 1");
    } else {
        put(line, b" 0");
    }
}

/// Puts a space and the rule that refuses an edit at the line's end.
fn put_rule(line: &mut Line, rule: u8)
    requires { array_vec_len line.old + 42 ≤ 256 }
    ensures items { line.new.items ≡ line.old.items ++ (32 ∷ 74 ∷ decimal rule) }
    ensures len { array_vec_len line.new ≤ array_vec_len line.old + 42 }
{
    let mut buffer = Buffer::new();
    put(line, b" J");
    put(line, buffer.format(rule).as_bytes());
}

/// Puts the words of an edit's entry at the line's end, a space before each but the first.
fn put_edit(line: &mut Line, i: u32, verdict: Verdict)
    requires { array_vec_len line.old + 180 ≤ 256 }
    ensures items { line.new.items ++ 10 ∷ [] ≡ line.old.items ++ line_text (entry_words (Edit i verdict)) }
    ensures len { array_vec_len line.new ≤ array_vec_len line.old + 180 }
{
    put_one(line, b"X", i);
    match verdict {
        Verdict::Accepted => put(line, b" ok"),
        Verdict::Refused { code, a, b } => {
            put(line, b" no");
            put_rule(line, code);
            put_number(line, a);
            put_number(line, b);
        }
    }
}

/// Puts the words of an entry at the line's end, a space before each but the first.
fn put_entry(line: &mut Line, entry: Entry)
    requires { array_vec_len line.old + 255 ≤ 256 }
    ensures items { line.new.items ++ 10 ∷ [] ≡ line.old.items ++ line_text (entry_words entry) }
    ensures len { array_vec_len line.new ≤ array_vec_len line.old + 255 }
{
    match entry {
        Entry::Dispatch { n, v } => put_two(line, b"D", n, v),
        Entry::Block { n, k, b } => {
            put_two(line, b"B", n, k);
            put(line, b" ");
            put_block(line, b);
        }
        Entry::End { n } => put_one(line, b"E", n),
        Entry::Pick { n, k } => put_two(line, b"P", n, k),
        Entry::Test { n, yes } => {
            put_one(line, b"T", n);
            put_answer(line, yes);
        }
        Entry::Assign { n, x } => {
            put_one(line, b"A", n);
            put_length(line, x);
        }
        Entry::Set { n } => put_one(line, b"S", n),
        Entry::Pass { n } => put_one(line, b"W", n),
        Entry::Note { n } => put_one(line, b"M", n),
        Entry::Edit { i, verdict } => put_edit(line, i, verdict),
    }
}

/// The line of an entry.
#[tactic(auto, unfolding(crate::specs::LogText::entry_line))]
pub fn of_entry(entry: &Entry) -> Line
    ensures { result.items ≡ entry_line entry.now }
{
    let mut line = Line::new();
    put_entry(&mut line, *entry);
    put(&mut line, b"\n");
    line
}

/// The line of a block alone.
#[tactic(auto, unfolding(crate::specs::BlocksText::block_line))]
pub fn of_block(block: Block) -> Line
    ensures { result.items ≡ block_line block }
{
    let mut line = Line::new();
    put_block(&mut line, block);
    put(&mut line, b"\n");
    line
}

/// The last line of a log with so many entries.
#[tactic(auto, unfolding(crate::specs::LogText::last_line))]
pub fn of_ending(ending: Ending, count: u32) -> Line
    ensures { result.items ≡ last_line ending count }
{
    let mut line = Line::new();
    put(&mut line, b"end ");
    put(
        &mut line,
        match ending {
            Ending::Done => b"done".as_slice(),
            Ending::Blocked => b"blocked",
            Ending::Limit => b"limit".as_slice(),
        },
    );
    put_number(&mut line, count);
    put(&mut line, b"\n");
    line
}
