//! What an entry makes of its node's frame.

ghost use Rattle.std.specs.Prelude.{◌≡◌, []};
ghost use Rattle.run_frames.specs.Told.{told};
ghost use Rattle.run_frames.specs.Entries.{cut, ends, answer_in, index_in};

use crate::frame::Frame;
use run_log::Entry;

/// The frame of a workingstep after an entry of it.
pub fn cut(entry: &Entry) -> Frame
    ensures { told result [] ≡ cut entry.now }
{
    match *entry {
        Entry::Dispatch { .. } => Frame::Cuts(0),
        Entry::Block { k, .. } => Frame::Cuts(k as usize + 1),
        _ => Frame::Over,
    }
}

/// Whether the entry ends a workingstep.
pub fn ends(entry: &Entry) -> bool
    ensures { result ≡ ends entry.now }
{
    match *entry {
        Entry::Dispatch { .. } => false,
        Entry::Block { .. } => false,
        _ => true,
    }
}

/// The answer of a test.
pub fn answer_in(entry: &Entry) -> bool
    ensures { result ≡ answer_in entry.now }
{
    match *entry {
        Entry::Test { yes, .. } => yes,
        _ => false,
    }
}

/// The index of a pick.
pub fn index_in(entry: &Entry) -> u32
    ensures { result ≡ index_in entry.now }
{
    match *entry {
        Entry::Pick { k, .. } => k,
        _ => 0,
    }
}
