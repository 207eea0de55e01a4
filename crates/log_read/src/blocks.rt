//! Blocks, each up to the end of its line.

ghost use Rattle.std.specs.Prelude.{◌≡◌};
ghost use Rattle.std.specs.Option.{option_map};
ghost use Rattle.log_read.specs.Reading.{block_at, dwell_at, feed_at, point_at, rapid_at, tool_at};

use crate::limits::MAX_RATE;
use crate::words::{byte, field, length, rate};
use nc_base::MAX_NUMBER;
use path_blocks::{Block, MAX_SIZE};

#[tactic(auto, unfolding(crate::specs::Reading::tool_at))]
fn tool(bytes: &[u8]) -> Option<(Block, &[u8])>
    ensures { option_map (λ b. (b.0, b.1.now)) result ≡ tool_at bytes.now }
{
    let (tool, rest) = field(1, MAX_NUMBER, bytes)?;
    let (spindle, rest) = length(u64::from(MAX_RATE), rest)?;
    Some((Block::Tool { tool, spindle }, byte(b'\n', rest)?))
}

/// The three words of a point.
#[tactic(auto, unfolding(crate::specs::Reading::point_at))]
fn point(bytes: &[u8]) -> Option<((i64, i64, i64), &[u8])>
    ensures { option_map (λ p. (p.0, p.1.now)) result ≡ point_at bytes.now }
{
    let (x, rest) = length(MAX_SIZE, bytes)?;
    let (y, rest) = length(MAX_SIZE, rest)?;
    let (z, rest) = length(MAX_SIZE, rest)?;
    Some(((x, y, z), rest))
}

#[tactic(auto, unfolding(crate::specs::Reading::rapid_at))]
fn rapid(bytes: &[u8]) -> Option<(Block, &[u8])>
    ensures { option_map (λ b. (b.0, b.1.now)) result ≡ rapid_at bytes.now }
{
    let ((x, y, z), rest) = point(bytes)?;
    Some((Block::Rapid { x, y, z }, byte(b'\n', rest)?))
}

#[tactic(auto, unfolding(crate::specs::Reading::feed_at))]
fn feed(bytes: &[u8]) -> Option<(Block, &[u8])>
    ensures { option_map (λ b. (b.0, b.1.now)) result ≡ feed_at bytes.now }
{
    let ((x, y, z), rest) = point(bytes)?;
    let (f, rest) = rate(rest)?;
    Some((Block::Feed { x, y, z, f }, byte(b'\n', rest)?))
}

#[tactic(auto, unfolding(crate::specs::Reading::dwell_at))]
fn dwell(bytes: &[u8]) -> Option<(Block, &[u8])>
    ensures { option_map (λ b. (b.0, b.1.now)) result ≡ dwell_at bytes.now }
{
    let (ms, rest) = rate(bytes)?;
    Some((Block::Dwell { ms }, byte(b'\n', rest)?))
}

/// A block up to the end of its line, and the text behind it.
#[tactic(auto, unfolding(crate::specs::Reading::block_at))]
pub fn block(bytes: &[u8]) -> Option<(Block, &[u8])>
    ensures { option_map (λ b. (b.0, b.1.now)) result ≡ block_at bytes.now }
{
    match bytes {
        [b'T', rest @ ..] => tool(rest),
        [b'R', rest @ ..] => rapid(rest),
        [b'F', rest @ ..] => feed(rest),
        [b'W', rest @ ..] => dwell(rest),
        _ => None,
    }
}
