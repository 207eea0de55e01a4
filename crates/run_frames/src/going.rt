//! The way on by the table of a tree, once a node is over.

ghost use Rattle.std.specs.Prelude.{◌≡◌, ◌<◌, ◌≤◌, ◌+◌, ◌-◌, ◌==◌, length, slice_set};
ghost use Rattle.exec_tree.specs.Arena.{AreShaped, IsClosed};
ghost use Rattle.exec_tree.specs.Exec.{nodes, AreDistinct};
ghost use Rattle.trace_law.specs.Frames.{left};
ghost use Rattle.frame_law.specs.Onward.{Onward};
ghost use Rattle.frame_law.specs.Looks.{way_looks};
ghost use Rattle.tree_table.specs.Placed.{placed};
ghost use Rattle.tree_table.specs.Rows.{after_at};
ghost use Rattle.tree_table.specs.Table.{IsTable, count_at};
ghost use Rattle.tree_table.specs.declared.row.Continuation.TheVariants as row;
ghost use Rattle.trace_law.specs.Cells as cell;
ghost use Rattle.run_frames.specs.Frames.{cells_of};
ghost use Rattle.run_frames.specs.Entered.{AreUnpickedIn};
ghost use Rattle.run_frames.specs.Ways.{IsWay, HasGone};

use crate::cells::Cells;
use crate::entering::enter_at;
use crate::frame::Frame;
use exec_tree::Tree;
use nc_base::Steps;
use place_classes::Sorted;
use std::sync::ledger::Ledger;
use tree_table::{Continuation, Table, look_at};

/// Where the run goes on when the node at a place is over.
pub fn after_at(table: &Table, place: u32) -> Continuation
    ensures { result ≡ after_at table.now.rows.items place }
{
    match table.rows().get(place as usize) {
        Some(row) => row.after,
        None => Continuation::Done,
    }
}

/// How many elements the node at a place has. The look at the node counts one step.
fn count_at<L: Ledger>(tree: &Tree, place: u32, steps: &mut Steps<L>) -> usize
    ensures count { result ≡ count_at tree.now.nodes place }
    ensures looks { steps.new ≤ steps.old + 1 }
{
    match look_at(tree, place, steps) {
        Some(node) => node.elements.as_slice().len(),
        None => 0,
    }
}

/// The parallel at a place has one element less: whether that was its last.
fn count_down(frames: &mut Cells, place: u32) -> bool
    requires { place < length frames.old.cells }
    ensures last { result ≡ (left (cells_of frames.old.cells place) == 1) }
    ensures written { frames.new.cells ≡ slice_set frames.old.cells place (cell.Left (left (cells_of frames.old.cells place) - 1)) }
    ensures rooms { frames.new.rooms ≡ frames.old.rooms }
{
    let left = frames.left(place);
    frames.put(place, Frame::Left(left.saturating_sub(1)));
    left == 1
}

/// Goes on where a node is over, as its row says. Each look at a node counts one step.
#[cycle(going_on)]
pub fn go_on<L: Ledger>(
    tree: &Tree,
    table: &Table,
    frames: &mut Cells,
    set: &mut Sorted,
    continuation: Continuation,
    steps: &mut Steps<L>,
)
    requires shaped { AreShaped tree.now.nodes }
    requires closed { IsClosed tree.now.nodes 0 (length tree.now.nodes) }
    requires distinct { AreDistinct (nodes (placed tree.now.nodes)) }
    requires table { IsTable tree.now.nodes table.now.rows.items }
    requires way { (k : Onward) × IsWay tree.now.nodes table.now.rows.items continuation k }
    requires room { length frames.old.cells ≡ length tree.now.nodes }
    requires unpicked { AreUnpickedIn tree.now.nodes frames.old.cells }
    ensures moved { (k : Onward) → IsWay tree.now.nodes table.now.rows.items continuation k → HasGone tree.now.nodes frames.old.cells frames.new.cells set.old.all set.new.all k }
    ensures kept { set.new.classes ≡ set.old.classes }
    ensures rooms { frames.new.rooms ≡ frames.old.rooms }
    ensures looks { (k : Onward) → IsWay tree.now.nodes table.now.rows.items continuation k → steps.new ≤ steps.old + way_looks (cells_of frames.old.cells) k }
{
    match continuation {
        Continuation::Done => {}
        Continuation::Opens(place) => enter_at(tree, table, frames, set, place, steps),
        Continuation::Joins(place) => join(tree, table, frames, set, place, steps),
        Continuation::PicksOn(place) => pick_on(tree, table, frames, set, place, steps),
        Continuation::TestsAgain(place) => set.insert(place),
    }
}

/// Goes on where an element of the parallel at a place is over.
#[cycle(going_on)]
fn join<L: Ledger>(
    tree: &Tree,
    table: &Table,
    frames: &mut Cells,
    set: &mut Sorted,
    place: u32,
    steps: &mut Steps<L>,
)
    requires shaped { AreShaped tree.now.nodes }
    requires closed { IsClosed tree.now.nodes 0 (length tree.now.nodes) }
    requires distinct { AreDistinct (nodes (placed tree.now.nodes)) }
    requires table { IsTable tree.now.nodes table.now.rows.items }
    requires way { (k : Onward) × IsWay tree.now.nodes table.now.rows.items (row.Joins place) k }
    requires room { length frames.old.cells ≡ length tree.now.nodes }
    requires unpicked { AreUnpickedIn tree.now.nodes frames.old.cells }
    ensures moved { (k : Onward) → IsWay tree.now.nodes table.now.rows.items (row.Joins place) k → HasGone tree.now.nodes frames.old.cells frames.new.cells set.old.all set.new.all k }
    ensures kept { set.new.classes ≡ set.old.classes }
    ensures rooms { frames.new.rooms ≡ frames.old.rooms }
    ensures looks { (k : Onward) → IsWay tree.now.nodes table.now.rows.items (row.Joins place) k → steps.new ≤ steps.old + way_looks (cells_of frames.old.cells) k }
{
    if count_down(frames, place) {
        go_on(tree, table, frames, set, after_at(table, place), steps);
    }
}

/// Goes on where an element of the non-sequential at a place is over.
#[cycle(going_on)]
fn pick_on<L: Ledger>(
    tree: &Tree,
    table: &Table,
    frames: &mut Cells,
    set: &mut Sorted,
    place: u32,
    steps: &mut Steps<L>,
)
    requires shaped { AreShaped tree.now.nodes }
    requires closed { IsClosed tree.now.nodes 0 (length tree.now.nodes) }
    requires distinct { AreDistinct (nodes (placed tree.now.nodes)) }
    requires table { IsTable tree.now.nodes table.now.rows.items }
    requires way { (k : Onward) × IsWay tree.now.nodes table.now.rows.items (row.PicksOn place) k }
    requires room { length frames.old.cells ≡ length tree.now.nodes }
    requires unpicked { AreUnpickedIn tree.now.nodes frames.old.cells }
    ensures moved { (k : Onward) → IsWay tree.now.nodes table.now.rows.items (row.PicksOn place) k → HasGone tree.now.nodes frames.old.cells frames.new.cells set.old.all set.new.all k }
    ensures kept { set.new.classes ≡ set.old.classes }
    ensures rooms { frames.new.rooms ≡ frames.old.rooms }
    ensures looks { (k : Onward) → IsWay tree.now.nodes table.now.rows.items (row.PicksOn place) k → steps.new ≤ steps.old + way_looks (cells_of frames.old.cells) k }
{
    if frames.count(place) == count_at(tree, place, steps) {
        go_on(tree, table, frames, set, after_at(table, place), steps);
    } else {
        set.insert(place);
    }
}
