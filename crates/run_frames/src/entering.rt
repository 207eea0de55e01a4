//! Opening by the table of a tree: what is opened gets its frames, and the places where it can go on come into the set.

ghost use Rattle.std.specs.Prelude.{◌≡◌, ◌≤◌, ◌+◌, ◌-◌, length};
ghost use Rattle.exec_tree.specs.Arena.{to_execs, AreShaped, IsClosed};
ghost use Rattle.exec_tree.specs.declared.kind.Kind.TheVariants as kinds;
ghost use Rattle.exec_tree.specs.Exec.{nodes, AreDistinct};
ghost use Rattle.frame_law.specs.Looks.{opening, opening_each};
ghost use Rattle.tree_table.specs.Placed.{placed, placed_all};
ghost use Rattle.tree_table.specs.Rows.{levels_at, executable_at};
ghost use Rattle.tree_table.specs.Table.{IsEntrance, IsTable};
ghost use Rattle.run_frames.specs.Entered.{AreUnpickedIn, IsNode, IsEntered, AreEntered};

use crate::cells::Cells;
use crate::frame::{Frame, fresh};
use exec_tree::{Kind, Tree};
use nc_base::Steps;
use place_classes::Sorted;
use std::sync::ledger::Ledger;
use tree_table::{Table, look_at};

/// Opens the executable at a place to which opening leads. A parallel opens what its elements lead to, and counts those that lead anywhere;
/// each other comes in itself. So deep as parallels lie in each other it calls itself. Each look at a node counts one step.
#[cycle(entering)]
pub fn enter_at<L: Ledger>(
    tree: &Tree,
    table: &Table,
    frames: &mut Cells,
    set: &mut Sorted,
    place: u32,
    steps: &mut Steps<L>,
)
    requires shaped { AreShaped tree.now.nodes }
    requires closed { IsClosed tree.now.nodes 0 (length tree.now.nodes) }
    requires distinct { AreDistinct (nodes (placed tree.now.nodes)) }
    requires table { IsTable tree.now.nodes table.now.rows.items }
    requires entrance { IsEntrance tree.now.nodes table.now.rows.items place }
    requires room { length frames.old.cells ≡ length tree.now.nodes }
    requires unpicked { AreUnpickedIn tree.now.nodes frames.old.cells }
    ensures moved { IsEntered tree.now.nodes frames.old.cells frames.new.cells set.old.all set.new.all (executable_at tree.now.nodes table.now.rows.items place) }
    ensures kept { set.new.classes ≡ set.old.classes }
    ensures rooms { frames.new.rooms ≡ frames.old.rooms }
    ensures looks { steps.new ≤ steps.old + opening (executable_at tree.now.nodes table.now.rows.items place) }
{
    let Some(node) = look_at(tree, place, steps) else {
        return;
    };
    match node.kind.kind() {
        Kind::Par => {
            let going = enter_all(
                tree,
                table,
                frames,
                set,
                place,
                node.elements.as_slice(),
                steps,
            );
            frames.put(place, Frame::Left(going));
        }
        kind => {
            frames.put(place, fresh(kind));
            set.insert(place);
        }
    }
}

/// Opens the elements of the parallel at a place: how many lead anywhere.
#[cycle(entering)]
fn enter_all<L: Ledger>(
    tree: &Tree,
    table: &Table,
    frames: &mut Cells,
    set: &mut Sorted,
    place: u32,
    elements: &[u32],
    steps: &mut Steps<L>,
) -> usize
    requires shaped { AreShaped tree.now.nodes }
    requires closed { IsClosed tree.now.nodes 0 (length tree.now.nodes) }
    requires distinct { AreDistinct (nodes (placed tree.now.nodes)) }
    requires table { IsTable tree.now.nodes table.now.rows.items }
    requires entrance { IsEntrance tree.now.nodes table.now.rows.items place }
    requires node { IsNode tree.now.nodes place kinds.Par elements.now }
    requires room { length frames.old.cells ≡ length tree.now.nodes }
    requires unpicked { AreUnpickedIn tree.now.nodes frames.old.cells }
    ensures moved { AreEntered tree.now.nodes frames.old.cells frames.new.cells set.old.all set.new.all (to_execs (placed_all tree.now.nodes (levels_at table.now.rows.items place - 1) elements.now)) result }
    ensures kept { set.new.classes ≡ set.old.classes }
    ensures rooms { frames.new.rooms ≡ frames.old.rooms }
    ensures looks { steps.new ≤ steps.old + opening_each (to_execs (placed_all tree.now.nodes (levels_at table.now.rows.items place - 1) elements.now)) }
{
    let mut going = 0;
    for k in (0..elements.len()).rev() {
        if let Some(into) = table.element_into(tree, place, elements[k], steps) {
            enter_at(tree, table, frames, set, into, steps);
            going += 1;
        }
    }
    going
}

/// Opens the whole tree. Each look at a node counts one step.
pub fn enter_tree<L: Ledger>(
    tree: &Tree,
    table: &Table,
    frames: &mut Cells,
    set: &mut Sorted,
    steps: &mut Steps<L>,
)
    requires shaped { AreShaped tree.now.nodes }
    requires closed { IsClosed tree.now.nodes 0 (length tree.now.nodes) }
    requires distinct { AreDistinct (nodes (placed tree.now.nodes)) }
    requires table { IsTable tree.now.nodes table.now.rows.items }
    requires room { length frames.old.cells ≡ length tree.now.nodes }
    requires unpicked { AreUnpickedIn tree.now.nodes frames.old.cells }
    ensures moved { IsEntered tree.now.nodes frames.old.cells frames.new.cells set.old.all set.new.all (placed tree.now.nodes) }
    ensures kept { set.new.classes ≡ set.old.classes }
    ensures rooms { frames.new.rooms ≡ frames.old.rooms }
{
    if let Some(into) = table.tree_into(tree, steps) {
        enter_at(tree, table, frames, set, into, steps);
    }
}
