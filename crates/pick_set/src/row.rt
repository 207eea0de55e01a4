//! What is kept of one node.

ghost use Rattle.std.specs.Prelude.{◌≡◌, ◌<◌, ◌≤◌, ℕ, true};
ghost use Rattle.pick_set.specs.Picks.{is_picked, IsLeastLeft};
ghost use Rattle.pick_set.specs.Rows.{picks_of, IsSparse};

/// Of a node: its first slot, how many elements it has and how many of them were picked, and the least index that is left.
#[derive(Clone, Copy)]
pub struct Row {
    pub base: usize,
    pub room: u32,
    pub count: u32,
    pub next: u32,
}

/// Whether the element at an index was picked. A spot that an earlier turn left leads to no pick, or to one of another index.
pub fn has_pick(row: Row, order: &[u32], spot: &[u32], index: u32) -> bool
    requires { IsSparse row order.now spot.now }
    ensures { result ≡ is_picked (picks_of row order.now) index }
{
    if index >= row.room {
        return false;
    }
    let at = spot[row.base + index as usize];
    at < row.count && order[row.base + at as usize] == index
}

/// The least index that is left, where all before `from` were picked.
pub fn next_left(row: Row, order: &[u32], spot: &[u32], from: u32) -> u32
    requires sparse { IsSparse row order.now spot.now }
    requires within { from ≤ row.room }
    requires before { (j : ℕ) → j < from → is_picked (picks_of row order.now) j ≡ true }
    ensures { IsLeastLeft row.room (picks_of row order.now) result }
{
    let mut next = from;
    while next < row.room && has_pick(row, order, spot, next) {
        next += 1;
    }
    next
}
