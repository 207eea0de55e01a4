//! The table of a tree.

ghost use Rattle.std.specs.Prelude.{◌≡◌, ◌≤◌, ◌+◌, ◌-◌, ◌||◌, [], ℕ, true, map, length, IfOk};
ghost use Rattle.exec_tree.specs.Arena.{AreShaped, IsClosed};
ghost use Rattle.exec_tree.specs.Exec.{nodes, has, AreDistinct};
ghost use Rattle.exec_tree.specs.Said.{bare_of};
ghost use Rattle.frame_law.specs.Looks.{finding};
ghost use Rattle.place_set.specs.declared.set.TheConstants.{MAX_PLACES};
ghost use Rattle.place_set.specs.Words.{holds};
ghost use Rattle.trace_law.specs.Next.{next};
ghost use Rattle.tree_table.specs.Placed.{placed, placed_down};
ghost use Rattle.tree_table.specs.Rows.{levels_at, executable_at, AreLinkedBack};
ghost use Rattle.tree_table.specs.Table.{IsElement, IsEntrance, LeadsTo, IsTable};

use crate::leading::lead_down;
use crate::opening::{lead_at, levels_at, open_at, open_whole};
use crate::row::{Continuation, Row};
use crate::telling::tell_down;
use exec_tree::{MAX_TREE_NESTING, Node, Tree};
use nc_base::{NoMemory, Steps};
use place_set::{MAX_PLACES, PlaceSet};
use std::alloc::Global;
use std::sync::ledger::Ledger;
use trace_law::laws::leads_opens;

/// The table of a tree: a row for each node, by place. What it tells of the tree is said by `IsTable`.
#[derive(Drop)]
pub struct Table {
    rows: Vec<Row>,
}

/// Rows of which none is made, for so many nodes.
fn blank(alloc: Global, count: usize) -> Result<Vec<Row>, NoMemory>
    ensures long { IfOk result (λ rows. length rows.items ≡ count) }
    ensures back { IfOk result (λ rows. AreLinkedBack rows.items) }
{
    let mut rows = Vec::with_capacity(alloc, count)?;
    for _i in 0..count {
        rows.push(Row {
            into: None,
            after: Continuation::Done,
            levels: 0,
        })?;
    }
    Ok(rows)
}

/// Makes the rows of a tree's nodes, in two passes.
fn fill(arena: &[Node], rows: &mut [Row])
    requires shaped { AreShaped (map bare_of arena.now) }
    requires closed { IsClosed (map bare_of arena.now) 0 (length arena.now) }
    requires distinct { AreDistinct (nodes (placed (map bare_of arena.now))) }
    requires room { length rows.old ≡ length arena.now }
    requires few { length arena.now ≤ MAX_PLACES }
    requires back { AreLinkedBack rows.old }
    ensures { IsTable (map bare_of arena.now) rows.new }
{
    leads_opens();
    lead_down(arena, rows, MAX_TREE_NESTING, 0);
    tell_down(arena, rows, MAX_TREE_NESTING, 0, Continuation::Done);
}

impl Table {
    /// The table of a tree, in time that grows with the number of its nodes.
    ///
    /// # Errors
    /// `NoMemory` where there is none for a row of each node, or for sets of so many places; no tree has more nodes than these hold.
    pub fn new(alloc: Global, tree: &Tree) -> Result<Table, NoMemory>
        ensures { IfOk result (λ table. IsTable tree.now.nodes table.rows.items) }
    {
        let arena = tree.nodes();
        if arena.len() > MAX_PLACES as usize {
            return Err(NoMemory);
        }
        let mut rows = blank(alloc, arena.len())?;
        fill(arena, rows.as_mut_slice());
        Ok(Table { rows })
    }

    /// The rows by place.
    pub fn rows(&self) -> &[Row]
        ensures { result.now ≡ self.now.rows.items }
    {
        self.rows.as_slice()
    }

    /// The place to which opening the tree leads, none where the tree has nothing to do. Each look at a node
    /// counts one step.
    pub fn tree_into<L: Ledger>(&self, tree: &Tree, steps: &mut Steps<L>) -> Option<u32>
        requires { IsTable tree.now.nodes self.now.rows.items }
        ensures leads { LeadsTo tree.now.nodes self.now.rows.items (placed tree.now.nodes) result }
        ensures looks { steps.new ≤ steps.old + finding (placed tree.now.nodes) }
    {
        leads_opens();
        lead_at(tree, self.rows.as_slice(), MAX_TREE_NESTING, 0, steps)
    }

    /// The place to which opening an element of the node at a place leads, none where the element has nothing to do.
    /// Each look at a node counts one step: one where the element has a number.
    pub fn element_into<L: Ledger>(
        &self,
        tree: &Tree,
        place: u32,
        element: u32,
        steps: &mut Steps<L>,
    ) -> Option<u32>
        requires shaped { AreShaped tree.now.nodes }
        requires table { IsTable tree.now.nodes self.now.rows.items }
        requires inside { has (nodes (placed tree.now.nodes)) place ≡ true }
        requires element { IsElement tree.now.nodes place element }
        ensures leads { LeadsTo tree.now.nodes self.now.rows.items (placed_down tree.now.nodes (levels_at self.now.rows.items place - 1) element) result }
        ensures looks { steps.new ≤ steps.old + finding (placed_down tree.now.nodes (levels_at self.now.rows.items place - 1) element) }
    {
        leads_opens();
        let rows = self.rows.as_slice();
        lead_at(
            tree,
            rows,
            levels_at(rows, place).saturating_sub(1),
            element,
            steps,
        )
    }

    /// Opens the executable at a place to which opening leads: puts into the set where a run of it can go on before any entry. A parallel
    /// opens what its elements lead to, and each other executable goes on at itself. Each look at a node counts one step.
    pub fn open<L: Ledger>(&self, tree: &Tree, set: &mut PlaceSet, place: u32, steps: &mut Steps<L>)
        requires shaped { AreShaped tree.now.nodes }
        requires closed { IsClosed tree.now.nodes 0 (length tree.now.nodes) }
        requires table { IsTable tree.now.nodes self.now.rows.items }
        requires entrance { IsEntrance tree.now.nodes self.now.rows.items place }
        ensures { (q : ℕ) → holds set.new q ≡ (holds set.old q || has (next (executable_at tree.now.nodes self.now.rows.items place) []) q) }
    {
        open_at(tree, self.rows.as_slice(), set, place, steps);
    }

    /// Opens the tree: puts into the set where a run can go on before any entry. Each look at a node counts one step.
    pub fn open_tree<L: Ledger>(&self, tree: &Tree, set: &mut PlaceSet, steps: &mut Steps<L>)
        requires { IsTable tree.now.nodes self.now.rows.items }
        ensures { (q : ℕ) → holds set.new q ≡ (holds set.old q || has (next (placed tree.now.nodes) []) q) }
    {
        tree.nodes();
        open_whole(tree, self.rows.as_slice(), set, steps);
    }
}
