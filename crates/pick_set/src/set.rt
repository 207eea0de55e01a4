//! The picks of all nodes of a tree.

ghost use Rattle.std.specs.Prelude.{◌≡◌, ◌<◌, ◌++◌, ◌∷◌, [], ℕ, false, length, slice_index, slice_set, IfOk};
ghost use Rattle.pick_set.specs.Picks.{is_picked, made_at, IsLeastLeft};

use crate::layout::lay_out;
use crate::row::{Row, has_pick, next_left};
use nc_base::NoMemory;
use std::alloc::Global;
use std::marker::Model;

/// Of the elements of each node, by place, which were picked in its present turn. Contracts see the picks of each node in the order in which
/// they were made, and how many elements it has.
///
/// The picks of a node stand in its slots of `order`, and for each index `spot` says where in them it may stand. A pick is one where the two
/// agree within those made, so nothing has to be cleared for a new turn but their count.
#[derive(Drop)]
pub struct PickSet {
    rows: Vec<Row>,
    order: Vec<u32>,
    spot: Vec<u32>,
}

impl Model for PickSet {
    ghost use Rattle.pick_set.specs.Picks.{PicksMade};
    ghost use Rattle.pick_set.specs.Rows.{made_by, rooms_of, AreSparse};

    ghost Value = { PicksMade };

    ghost view = { λ s. record { made = made_by s.rows.items s.order.items; rooms = rooms_of s.rows.items } };

    ghost invariant = { λ s. AreSparse s.rows.items s.order.items s.spot.items };
}

impl PickSet {
    /// No picks of nodes with so many elements each.
    ///
    /// # Errors
    /// `NoMemory` where there is none for a row of each node and two slots of each element.
    pub fn new(alloc: Global, rooms: &[u32]) -> Result<PickSet, NoMemory>
        ensures rooms { IfOk result (λ s. s.rooms ≡ rooms.now) }
        ensures long { IfOk result (λ s. length s.made ≡ length rooms.now) }
        ensures none { IfOk result (λ s. (p : ℕ) → made_at s.made p ≡ []) }
    {
        let (rows, slots) = lay_out(alloc, rooms)?;
        let order = Vec::from_elem(alloc, 0, slots)?;
        let spot = Vec::from_elem(alloc, 0, slots)?;
        Ok(PickSet { rows, order, spot })
    }

    /// Whether the element at an index of the node at a place was picked.
    pub fn has(&self, place: u32, index: u32) -> bool
        requires { place < length self.now.made }
        ensures { result ≡ is_picked (made_at self.now.made place) index }
    {
        let row = self.rows[place as usize];
        has_pick(row, self.order.as_slice(), self.spot.as_slice(), index)
    }

    /// How many elements of the node at a place were picked.
    pub fn count(&self, place: u32) -> u32
        requires { place < length self.now.made }
        ensures { result ≡ length (made_at self.now.made place) }
    {
        self.rows[place as usize].count
    }

    /// The least index of an element of the node at a place that is left; the number of its elements where all were picked.
    pub fn next(&self, place: u32) -> u32
        requires { place < length self.now.made }
        ensures { IsLeastLeft (slice_index self.now.rooms place) (made_at self.now.made place) result }
    {
        self.rows[place as usize].next
    }

    /// Picks the element at an index of the node at a place. What it looks at for the next that is left, each pick pays for once in a turn.
    pub fn add(&mut self, place: u32, index: u32)
        requires there { place < length self.old.made }
        requires within { index < slice_index self.old.rooms place }
        requires left { is_picked (made_at self.old.made place) index ≡ false }
        ensures made { self.new.made ≡ slice_set self.old.made place (made_at self.old.made place ++ index ∷ []) }
        ensures rooms { self.new.rooms ≡ self.old.rooms }
    {
        let i = place as usize;
        let row = self.rows[i];
        self.order[row.base + row.count as usize] = index;
        self.spot[row.base + index as usize] = row.count;
        let more = Row {
            count: row.count + 1,
            ..row
        };
        let next = next_left(more, self.order.as_slice(), self.spot.as_slice(), row.next);
        self.rows[i] = Row { next, ..more };
    }

    /// Forgets the picks of the node at a place: its turn is over. It looks at none of them.
    pub fn clear(&mut self, place: u32)
        requires { place < length self.old.made }
        ensures made { self.new.made ≡ slice_set self.old.made place [] }
        ensures rooms { self.new.rooms ≡ self.old.rooms }
    {
        let i = place as usize;
        let row = self.rows[i];
        self.rows[i] = Row {
            count: 0,
            next: 0,
            ..row
        };
    }
}
