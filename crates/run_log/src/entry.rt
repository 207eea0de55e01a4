//! What a run log is made of.

use nc_base::{ItemList, Number, Verdict};
use path_blocks::Block;

/// The most entries that a log may be asked to have (this profile).
pub const MAX_ENTRIES: u32 = 2_000_000;

/// One entry of a log: one event of the run. The kinds are this profile's own.
#[derive(Clone, Copy, Debug, PartialEq, Eq)]
pub enum Entry {
    /// Workingstep `n` is dispatched at version `v`, the number of accepted edits that reached it before.
    Dispatch { n: Number, v: u32 },
    /// Block `k` of workingstep `n`, counted from 0.
    Block { n: Number, k: u32, b: Block },
    /// Workingstep `n` has all its blocks.
    End { n: Number },
    /// Of the elements of non-sequential or selective `n`, the one at index `k`, counted from 0, is chosen.
    Pick { n: Number, k: u32 },
    /// The condition of if or while `n` is tested: whether it holds.
    Test { n: Number, yes: bool },
    /// Assignment `n` gives its variable the value `x`, in thousandths.
    Assign { n: Number, x: i64 },
    /// The mark of `n` is set.
    Set { n: Number },
    /// Wait `n` is passed, since its mark is set.
    Pass { n: Number },
    /// Message `n` is shown.
    Note { n: Number },
    /// Edit `i` of the script, counted from 0, is judged.
    Edit { i: u32, verdict: Verdict },
}

/// How a log ends.
#[derive(Clone, Copy, Debug, PartialEq, Eq)]
pub enum Ending {
    /// The whole project ran.
    Done,
    /// Wherever the run could go on, it waits for a mark that isn't set.
    Blocked,
    /// The log has as many entries as it may have, and the run could go on.
    Limit,
}

/// The entries of a run so far, in order. The type keeps their count below 2^32.
pub type Log = ItemList<Entry>;
