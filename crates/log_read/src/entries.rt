//! Entries, each from behind its letter up to the end of its line.

ghost use Rattle.std.specs.Prelude.{◌≡◌, ◌≤◌};
ghost use Rattle.std.specs.Option.{option_map};
ghost use Rattle.log_read.specs.Reading.{assign_at, cut_at, dispatch_at, edit_at, end_at, note_at, one_at, pass_at, pick_at, refusal_at, set_at, test_at, two_at, verdict_at};

use crate::blocks::block;
use crate::limits::{MAX_EDIT, MAX_PICK, MAX_RULE, MAX_VERSION};
use crate::words::{byte, bytes, field, length, ranged};
use nc_base::{MAX_NUMBER, MAX_THOUSANDTHS, Number, Verdict};
use path_blocks::MAX_BLOCKS;
use run_log::Entry;

/// The greatest index of a block in its path.
const MAX_BLOCK: u32 = MAX_BLOCKS as u32 - 1;

/// The one number of a line.
#[tactic(auto, unfolding(crate::specs::Reading::one_at))]
fn one(bytes: &[u8]) -> Option<(Number, &[u8])>
    ensures { option_map (λ n. (n.0, n.1.now)) result ≡ one_at bytes.now }
{
    let (n, rest) = field(1, MAX_NUMBER, bytes)?;
    Some((n, byte(b'\n', rest)?))
}

#[tactic(auto, unfolding(crate::specs::Reading::end_at))]
pub fn end(bytes: &[u8]) -> Option<(Entry, &[u8])>
    ensures { option_map (λ x. (x.0, x.1.now)) result ≡ end_at bytes.now }
{
    let (n, rest) = one(bytes)?;
    Some((Entry::End { n }, rest))
}

#[tactic(auto, unfolding(crate::specs::Reading::set_at))]
pub fn set(bytes: &[u8]) -> Option<(Entry, &[u8])>
    ensures { option_map (λ x. (x.0, x.1.now)) result ≡ set_at bytes.now }
{
    let (n, rest) = one(bytes)?;
    Some((Entry::Set { n }, rest))
}

#[tactic(auto, unfolding(crate::specs::Reading::pass_at))]
pub fn pass(bytes: &[u8]) -> Option<(Entry, &[u8])>
    ensures { option_map (λ x. (x.0, x.1.now)) result ≡ pass_at bytes.now }
{
    let (n, rest) = one(bytes)?;
    Some((Entry::Pass { n }, rest))
}

#[tactic(auto, unfolding(crate::specs::Reading::note_at))]
pub fn note(bytes: &[u8]) -> Option<(Entry, &[u8])>
    ensures { option_map (λ x. (x.0, x.1.now)) result ≡ note_at bytes.now }
{
    let (n, rest) = one(bytes)?;
    Some((Entry::Note { n }, rest))
}

/// The number of a node and one up to the most.
#[tactic(auto, unfolding(crate::specs::Reading::two_at))]
fn two(most: u32, bytes: &[u8]) -> Option<((Number, u32), &[u8])>
    ensures { option_map (λ n. (n.0, n.1.now)) result ≡ two_at most bytes.now }
{
    let (n, rest) = field(1, MAX_NUMBER, bytes)?;
    let (k, rest) = field(0, most, rest)?;
    Some(((n, k), rest))
}

#[tactic(auto, unfolding(crate::specs::Reading::dispatch_at))]
pub fn dispatch(bytes: &[u8]) -> Option<(Entry, &[u8])>
    ensures { option_map (λ x. (x.0, x.1.now)) result ≡ dispatch_at bytes.now }
{
    let ((n, v), rest) = two(MAX_VERSION, bytes)?;
    Some((Entry::Dispatch { n, v }, byte(b'\n', rest)?))
}

#[tactic(auto, unfolding(crate::specs::Reading::cut_at))]
pub fn cut(bytes: &[u8]) -> Option<(Entry, &[u8])>
    ensures { option_map (λ x. (x.0, x.1.now)) result ≡ cut_at bytes.now }
{
    let ((n, k), rest) = two(MAX_BLOCK, bytes)?;
    let (b, rest) = block(byte(b' ', rest)?)?;
    Some((Entry::Block { n, k, b }, rest))
}

#[tactic(auto, unfolding(crate::specs::Reading::pick_at))]
pub fn pick(bytes: &[u8]) -> Option<(Entry, &[u8])>
    ensures { option_map (λ x. (x.0, x.1.now)) result ≡ pick_at bytes.now }
{
    let ((n, k), rest) = two(MAX_PICK, bytes)?;
    Some((Entry::Pick { n, k }, byte(b'\n', rest)?))
}

#[tactic(auto, unfolding(crate::specs::Reading::test_at))]
pub fn test(bytes: &[u8]) -> Option<(Entry, &[u8])>
    ensures { option_map (λ x. (x.0, x.1.now)) result ≡ test_at bytes.now }
{
    let (n, rest) = field(1, MAX_NUMBER, bytes)?;
    let (answer, rest) = field(0, 1, rest)?;
    Some((
        Entry::Test {
            n,
            yes: answer == 1,
        },
        byte(b'\n', rest)?,
    ))
}

#[tactic(auto, unfolding(crate::specs::Reading::assign_at))]
pub fn assign(bytes: &[u8]) -> Option<(Entry, &[u8])>
    ensures { option_map (λ x. (x.0, x.1.now)) result ≡ assign_at bytes.now }
{
    let (n, rest) = field(1, MAX_NUMBER, bytes)?;
    let (x, rest) = length(MAX_THOUSANDTHS, rest)?;
    Some((Entry::Assign { n, x }, byte(b'\n', rest)?))
}

/// The rule that refuses an edit, from its number on.
#[tactic(auto, unfolding(crate::specs::Reading::refusal_at))]
fn refusal(bytes: &[u8]) -> Option<(Verdict, &[u8])>
    ensures { option_map (λ v. (v.0, v.1.now)) result ≡ refusal_at bytes.now }
{
    let (rule, rest) = ranged(1, u64::from(MAX_RULE), bytes)?;
    let (a, rest) = field(0, MAX_NUMBER, rest)?;
    let (b, rest) = field(0, MAX_NUMBER, rest)?;
    Some((
        Verdict::Refused {
            code: rule as u8,
            a,
            b,
        },
        byte(b'\n', rest)?,
    ))
}

#[tactic(auto, unfolding(crate::specs::Reading::verdict_at))]
fn verdict(text: &[u8]) -> Option<(Verdict, &[u8])>
    ensures { option_map (λ v. (v.0, v.1.now)) result ≡ verdict_at text.now }
{
    match text {
        [b'o', rest @ ..] => Some((Verdict::Accepted, bytes(b"k\n", rest)?)),
        [b'n', rest @ ..] => refusal(bytes(b"o J", rest)?),
        _ => None,
    }
}

#[tactic(auto, unfolding(crate::specs::Reading::edit_at))]
pub fn edit(bytes: &[u8]) -> Option<(Entry, &[u8])>
    ensures { option_map (λ x. (x.0, x.1.now)) result ≡ edit_at bytes.now }
{
    let (i, rest) = field(0, MAX_EDIT, bytes)?;
    let (verdict, rest) = verdict(byte(b' ', rest)?)?;
    Some((Entry::Edit { i, verdict }, rest))
}
