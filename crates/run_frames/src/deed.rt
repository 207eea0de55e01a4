//! What a node does next.

/// What a node does next where a run goes on.
#[derive(Clone, Copy, Debug, PartialEq, Eq)]
pub enum Deed {
    /// A workingstep is dispatched.
    Starts,
    /// An open workingstep with so many blocks cuts the next, or ends.
    Cuts(usize),
    /// A value is assigned.
    Assigns,
    /// A mark is set.
    Sets,
    /// A wait is passed, once its mark is set.
    Passes,
    /// A message is shown.
    Notes,
    /// One of `count` elements is picked that wasn't yet: `next` is the least index of these, or `count` where there is none.
    Picks { count: u32, next: u32 },
    /// A condition is tested.
    Tests,
}
