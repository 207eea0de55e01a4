//! What a check of a log finds.

use run_log::Ending;

/// What a check of a log finds.
#[derive(Clone, Copy, Debug, PartialEq, Eq)]
pub enum Answer {
    /// The log is a legal run, and this ending is its own.
    Legal(Ending),
    /// The place, counted from 0, of the first entry that doesn't fit those before it; the number of the entries where each of them fits and
    /// only the ending is wrong.
    Illegal(u32),
}
