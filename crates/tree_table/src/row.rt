//! What is kept of a node.

/// Where a run goes on when a node is over.
#[derive(Clone, Copy, Debug, PartialEq, Eq)]
pub enum Continuation {
    /// The run is done.
    Done,
    /// The executable at this place is opened.
    Opens(u32),
    /// The parallel at this place has one element less.
    Joins(u32),
    /// The non-sequential at this place picks on, or is over.
    PicksOn(u32),
    /// The while at this place tests again.
    TestsAgain(u32),
}

/// Of a node: the place to which opening it leads, none where it has nothing to do; where the run goes on when it is over; and how many
/// levels of the tree are left from it on, its own counted.
#[derive(Clone, Copy, Debug, PartialEq, Eq)]
pub struct Row {
    pub into: Option<u32>,
    pub after: Continuation,
    pub levels: u32,
}
