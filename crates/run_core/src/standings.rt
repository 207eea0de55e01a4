//! Where a run stands.

ghost use Rattle.std.specs.Prelude.{◌≡◌};
ghost use Rattle.run_core.specs.Standings.{standing_by, is_over};

/// Where a run stands, the first that applies.
#[derive(Clone, Copy, Debug, PartialEq, Eq)]
pub enum Standing {
    /// No node can go on, and every edit is judged.
    Done,
    /// Each node that can go on waits for a mark that isn't set, and every edit is judged.
    Blocked,
    /// The log has as many entries as it may have.
    Limit,
    /// The next edit is due.
    EditDue,
    /// An entry may be made.
    Ready,
}

/// Where a run stands, by whether it can go on nowhere, whether it only waits, whether its log is full and whether an edit is due.
pub fn standing_by(done: bool, waiting: bool, full: bool, due: bool) -> Standing
    ensures { result ≡ standing_by done waiting full due }
{
    match (done, waiting, full, due) {
        (true, _, _, _) => Standing::Done,
        (false, true, _, _) => Standing::Blocked,
        (false, false, true, _) => Standing::Limit,
        (false, false, false, true) => Standing::EditDue,
        (false, false, false, false) => Standing::Ready,
    }
}

/// Whether a run has ended.
pub fn is_over(standing: Standing) -> bool
    ensures { result ≡ is_over standing }
{
    match standing {
        Standing::Done | Standing::Blocked | Standing::Limit => true,
        Standing::EditDue | Standing::Ready => false,
    }
}
