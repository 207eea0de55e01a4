//! Lines behind the first one.

ghost use Rattle.std.specs.Prelude.{◌≡◌};
ghost use Rattle.std.specs.Option.{option_map};
ghost use Rattle.log_read.specs.Reading.{ending_at, last_at, of_entry, row_at};

use crate::entries::{assign, cut, dispatch, edit, end, note, pass, pick, set, test};
use crate::words::{byte, bytes, field};
use run_log::{Ending, Entry, MAX_ENTRIES};

/// A line behind the first one.
#[derive(Clone, Copy)]
pub enum LogLine {
    /// The line of an entry.
    Of(Entry),
    /// A last line, with the count of entries that stands there.
    Last { ending: Ending, count: u32 },
}

/// The ending whose word stands at the front.
#[tactic(auto, unfolding(crate::specs::Reading::ending_at))]
fn ending(text: &[u8]) -> Option<(Ending, &[u8])>
    ensures { option_map (λ e. (e.0, e.1.now)) result ≡ ending_at text.now }
{
    match text {
        [b'd', rest @ ..] => Some((Ending::Done, bytes(b"one", rest)?)),
        [b'b', rest @ ..] => Some((Ending::Blocked, bytes(b"locked", rest)?)),
        [b'l', rest @ ..] => Some((Ending::Limit, bytes(b"imit", rest)?)),
        _ => None,
    }
}

/// A last line, from behind its first letter.
#[tactic(auto, unfolding(crate::specs::Reading::last_at))]
fn last(text: &[u8]) -> Option<(LogLine, &[u8])>
    ensures { option_map (λ x. (x.0, x.1.now)) result ≡ last_at text.now }
{
    let (ending, rest) = ending(bytes(b"nd ", text)?)?;
    let (count, rest) = field(0, MAX_ENTRIES, rest)?;
    Some((LogLine::Last { ending, count }, byte(b'\n', rest)?))
}

/// The line of an entry that was read.
fn of_entry(read: Option<(Entry, &[u8])>) -> Option<(LogLine, &[u8])>
    ensures { option_map (λ x. (x.0, x.1.now)) result ≡ of_entry (option_map (λ x. (x.0, x.1.now)) read.entry) }
{
    let (entry, rest) = read?;
    Some((LogLine::Of(entry), rest))
}

/// A line behind the first one, and the text behind it.
#[tactic(auto, unfolding(crate::specs::Reading::row_at))]
pub fn row(text: &[u8]) -> Option<(LogLine, &[u8])>
    ensures { option_map (λ x. (x.0, x.1.now)) result ≡ row_at text.now }
{
    match text {
        [b'B', rest @ ..] => of_entry(cut(rest)),
        [b'D', rest @ ..] => of_entry(dispatch(rest)),
        [b'E', rest @ ..] => of_entry(end(rest)),
        [b'P', rest @ ..] => of_entry(pick(rest)),
        [b'T', rest @ ..] => of_entry(test(rest)),
        [b'A', rest @ ..] => of_entry(assign(rest)),
        [b'S', rest @ ..] => of_entry(set(rest)),
        [b'W', rest @ ..] => of_entry(pass(rest)),
        [b'M', rest @ ..] => of_entry(note(rest)),
        [b'X', rest @ ..] => of_entry(edit(rest)),
        [b'e', rest @ ..] => last(rest),
        _ => None,
    }
}
