//! The move of frames and set by one entry, from the entry's own node on.

ghost use Rattle.std.specs.Prelude.{◌≡◌, ◌<◌, ◌≤◌, ◌+◌, ◌-◌, ◌^◌, ◌++◌, ◌∷◌, [], ℕ, List, true, length, if◌then◌else◌};
ghost use Rattle.exec_tree.specs.Arena.{AreShaped, IsClosed};
ghost use Rattle.exec_tree.specs.declared.kind.Kind.TheVariants as kinds;
ghost use Rattle.exec_tree.specs.Exec.{nodes, has, AreDistinct};
ghost use Rattle.place_set.specs.Words.{holds};
ghost use Rattle.run_log.specs.declared.entry.Entry.{Entry};
ghost use Rattle.frame_law.specs.Executable.{executable_at};
ghost use Rattle.frame_law.specs.Looks.{element_looks, looks, node_looks, way_looks};
ghost use Rattle.frame_law.specs.Onward.{Done, onward};
ghost use Rattle.tree_table.specs.Placed.{placed, placed_down};
ghost use Rattle.tree_table.specs.Rows.{levels_at};
ghost use Rattle.tree_table.specs.Table.{IsElement, IsTable};
ghost use Rattle.run_frames.specs.Entered.{AreUnpickedIn, IsNode};
ghost use Rattle.run_frames.specs.Frames.{cells_of};
ghost use Rattle.run_frames.specs.Told.{rooms_of};
ghost use Rattle.run_frames.specs.Renaming.{entry_at};
ghost use Rattle.run_frames.specs.Held.{IsHeld, IsStep, IsLeafKind, HasClosed, HasTried};

use crate::cells::Cells;
use crate::entering::enter_at;
use crate::entries::{answer_in, cut, ends, index_in};
use crate::frame::Frame;
use crate::going::{after_at, go_on};
use crate::nodes::element_at;
use exec_tree::{Kind, Tree};
use nc_base::Steps;
use place_classes::Sorted;
use run_log::Entry;
use std::sync::ledger::Ledger;
use tree_table::{Table, look_at};

/// The node at a place is over: it goes out, and the run goes on as its row says.
fn close<L: Ledger>(
    tree: &Tree,
    table: &Table,
    frames: &mut Cells,
    set: &mut Sorted,
    place: u32,
    steps: &mut Steps<L>,
)
    requires shaped { AreShaped tree.now.nodes }
    requires closed { IsClosed tree.now.nodes 0 (length tree.now.nodes) }
    requires distinct { AreDistinct (nodes (placed tree.now.nodes)) }
    requires table { IsTable tree.now.nodes table.now.rows.items }
    requires inside { has (nodes (placed tree.now.nodes)) place ≡ true }
    requires within { place < length tree.now.nodes }
    requires there { holds set.old.all place ≡ true }
    requires room { length frames.old.cells ≡ length tree.now.nodes }
    requires unpicked { AreUnpickedIn tree.now.nodes frames.old.cells }
    ensures moved { HasClosed tree.now.nodes frames.old.cells frames.new.cells set.old.all set.new.all place }
    ensures kept { set.new.classes ≡ set.old.classes }
    ensures rooms { frames.new.rooms ≡ frames.old.rooms }
    ensures looks { steps.new ≤ steps.old + way_looks (cells_of frames.old.cells) (onward (placed tree.now.nodes) Done place) }
{
    set.remove(place);
    go_on(tree, table, frames, set, after_at(table, place), steps);
}

/// An element of the node at a place is opened in the node's stead, where the element has something to do: whether it has.
fn open_instead<L: Ledger>(
    tree: &Tree,
    table: &Table,
    frames: &mut Cells,
    set: &mut Sorted,
    place: u32,
    element: u32,
    steps: &mut Steps<L>,
) -> bool
    requires shaped { AreShaped tree.now.nodes }
    requires closed { IsClosed tree.now.nodes 0 (length tree.now.nodes) }
    requires distinct { AreDistinct (nodes (placed tree.now.nodes)) }
    requires table { IsTable tree.now.nodes table.now.rows.items }
    requires inside { has (nodes (placed tree.now.nodes)) place ≡ true }
    requires within { place < length tree.now.nodes }
    requires element { IsElement tree.now.nodes place element }
    requires there { holds set.old.all place ≡ true }
    requires room { length frames.old.cells ≡ length tree.now.nodes }
    requires unpicked { AreUnpickedIn tree.now.nodes frames.old.cells }
    ensures moved { HasTried tree.now.nodes frames.old.cells frames.new.cells set.old.all set.new.all place (placed_down tree.now.nodes (levels_at table.now.rows.items place - 1) element) result }
    ensures kept { set.new.classes ≡ set.old.classes }
    ensures rooms { frames.new.rooms ≡ frames.old.rooms }
    ensures looks { steps.new ≤ steps.old + element_looks (placed_down tree.now.nodes (levels_at table.now.rows.items place - 1) element) 0 }
{
    match table.element_into(tree, place, element, steps) {
        Some(into) => {
            set.remove(place);
            enter_at(tree, table, frames, set, into, steps);
            true
        }
        None => false,
    }
}

/// A workingstep is dispatched, makes a block, or ends.
fn move_step<L: Ledger>(
    tree: &Tree,
    table: &Table,
    frames: &mut Cells,
    set: &mut Sorted,
    place: u32,
    elements: &[u32],
    entry: &Entry,
    steps: &mut Steps<L>,
)
    requires shaped { AreShaped tree.now.nodes }
    requires closed { IsClosed tree.now.nodes 0 (length tree.now.nodes) }
    requires distinct { AreDistinct (nodes (placed tree.now.nodes)) }
    requires table { IsTable tree.now.nodes table.now.rows.items }
    requires node { IsNode tree.now.nodes place kinds.Work elements.now }
    requires moves { (t : List Entry) × IsStep tree.now.nodes frames.old.cells set.old.all t place entry.now }
    ensures moved { (t : List Entry) → IsStep tree.now.nodes frames.old.cells set.old.all t place entry.now → IsHeld tree.now.nodes frames.new.cells set.new.all (t ++ entry_at place entry.now ∷ []) }
    ensures kept { set.new.classes ≡ set.old.classes }
    ensures rooms { frames.new.rooms ≡ frames.old.rooms }
    ensures looks { (t : List Entry) → IsStep tree.now.nodes frames.old.cells set.old.all t place entry.now → steps.new ≤ steps.old + node_looks (cells_of frames.old.cells) (executable_at (placed tree.now.nodes) place) (entry_at place entry.now) (onward (placed tree.now.nodes) Done place) }
{
    frames.put(place, cut(entry));
    if ends(entry) {
        close(tree, table, frames, set, place, steps);
    }
}

/// An element of a non-sequential is picked.
fn move_picks<L: Ledger>(
    tree: &Tree,
    table: &Table,
    frames: &mut Cells,
    set: &mut Sorted,
    place: u32,
    elements: &[u32],
    entry: &Entry,
    steps: &mut Steps<L>,
)
    requires shaped { AreShaped tree.now.nodes }
    requires closed { IsClosed tree.now.nodes 0 (length tree.now.nodes) }
    requires distinct { AreDistinct (nodes (placed tree.now.nodes)) }
    requires table { IsTable tree.now.nodes table.now.rows.items }
    requires node { IsNode tree.now.nodes place kinds.NonSeq elements.now }
    requires rooms { frames.old.rooms ≡ rooms_of tree.now.nodes }
    requires moves { (t : List Entry) × IsStep tree.now.nodes frames.old.cells set.old.all t place entry.now }
    ensures moved { (t : List Entry) → IsStep tree.now.nodes frames.old.cells set.old.all t place entry.now → IsHeld tree.now.nodes frames.new.cells set.new.all (t ++ entry_at place entry.now ∷ []) }
    ensures kept { set.new.classes ≡ set.old.classes }
    ensures rooms { frames.new.rooms ≡ frames.old.rooms }
    ensures looks { (t : List Entry) → IsStep tree.now.nodes frames.old.cells set.old.all t place entry.now → steps.new ≤ steps.old + node_looks (cells_of frames.old.cells) (executable_at (placed tree.now.nodes) place) (entry_at place entry.now) (onward (placed tree.now.nodes) Done place) }
{
    let k = index_in(entry);
    frames.pick(place, k);
    let element = element_at(elements, k as usize);
    if open_instead(tree, table, frames, set, place, element, steps) {
        return;
    }
    if frames.count(place) == elements.len() {
        close(tree, table, frames, set, place, steps);
    }
}

/// An element of a selective is picked.
fn move_choice<L: Ledger>(
    tree: &Tree,
    table: &Table,
    frames: &mut Cells,
    set: &mut Sorted,
    place: u32,
    elements: &[u32],
    entry: &Entry,
    steps: &mut Steps<L>,
)
    requires shaped { AreShaped tree.now.nodes }
    requires closed { IsClosed tree.now.nodes 0 (length tree.now.nodes) }
    requires distinct { AreDistinct (nodes (placed tree.now.nodes)) }
    requires table { IsTable tree.now.nodes table.now.rows.items }
    requires node { IsNode tree.now.nodes place kinds.Sel elements.now }
    requires rooms { frames.old.rooms ≡ rooms_of tree.now.nodes }
    requires moves { (t : List Entry) × IsStep tree.now.nodes frames.old.cells set.old.all t place entry.now }
    ensures moved { (t : List Entry) → IsStep tree.now.nodes frames.old.cells set.old.all t place entry.now → IsHeld tree.now.nodes frames.new.cells set.new.all (t ++ entry_at place entry.now ∷ []) }
    ensures kept { set.new.classes ≡ set.old.classes }
    ensures rooms { frames.new.rooms ≡ frames.old.rooms }
    ensures looks { (t : List Entry) → IsStep tree.now.nodes frames.old.cells set.old.all t place entry.now → steps.new ≤ steps.old + node_looks (cells_of frames.old.cells) (executable_at (placed tree.now.nodes) place) (entry_at place entry.now) (onward (placed tree.now.nodes) Done place) }
{
    let k = index_in(entry);
    frames.pick(place, k);
    let element = element_at(elements, k as usize);
    if !open_instead(tree, table, frames, set, place, element, steps) {
        close(tree, table, frames, set, place, steps);
    }
}

/// Which of the branches of an if is taken.
fn branch_index(answer: bool) -> usize
    ensures { result ≡ (if answer then 0 else 1) }
{
    if answer { 0 } else { 1 }
}

/// An if is tested.
fn move_branch<L: Ledger>(
    tree: &Tree,
    table: &Table,
    frames: &mut Cells,
    set: &mut Sorted,
    place: u32,
    elements: &[u32],
    entry: &Entry,
    steps: &mut Steps<L>,
)
    requires shaped { AreShaped tree.now.nodes }
    requires closed { IsClosed tree.now.nodes 0 (length tree.now.nodes) }
    requires distinct { AreDistinct (nodes (placed tree.now.nodes)) }
    requires table { IsTable tree.now.nodes table.now.rows.items }
    requires node { IsNode tree.now.nodes place kinds.If elements.now }
    requires moves { (t : List Entry) × IsStep tree.now.nodes frames.old.cells set.old.all t place entry.now }
    ensures moved { (t : List Entry) → IsStep tree.now.nodes frames.old.cells set.old.all t place entry.now → IsHeld tree.now.nodes frames.new.cells set.new.all (t ++ entry_at place entry.now ∷ []) }
    ensures kept { set.new.classes ≡ set.old.classes }
    ensures rooms { frames.new.rooms ≡ frames.old.rooms }
    ensures looks { (t : List Entry) → IsStep tree.now.nodes frames.old.cells set.old.all t place entry.now → steps.new ≤ steps.old + node_looks (cells_of frames.old.cells) (executable_at (placed tree.now.nodes) place) (entry_at place entry.now) (onward (placed tree.now.nodes) Done place) }
{
    let answer = answer_in(entry);
    frames.put(place, Frame::Answered(answer));
    let element = element_at(elements, branch_index(answer));
    if !open_instead(tree, table, frames, set, place, element, steps) {
        close(tree, table, frames, set, place, steps);
    }
}

/// A while is tested: for a yes its body is opened, and tests again where that has nothing to do.
fn move_turn<L: Ledger>(
    tree: &Tree,
    table: &Table,
    frames: &mut Cells,
    set: &mut Sorted,
    place: u32,
    elements: &[u32],
    entry: &Entry,
    steps: &mut Steps<L>,
)
    requires shaped { AreShaped tree.now.nodes }
    requires closed { IsClosed tree.now.nodes 0 (length tree.now.nodes) }
    requires distinct { AreDistinct (nodes (placed tree.now.nodes)) }
    requires table { IsTable tree.now.nodes table.now.rows.items }
    requires node { IsNode tree.now.nodes place kinds.While elements.now }
    requires moves { (t : List Entry) × IsStep tree.now.nodes frames.old.cells set.old.all t place entry.now }
    ensures moved { (t : List Entry) → IsStep tree.now.nodes frames.old.cells set.old.all t place entry.now → IsHeld tree.now.nodes frames.new.cells set.new.all (t ++ entry_at place entry.now ∷ []) }
    ensures kept { set.new.classes ≡ set.old.classes }
    ensures rooms { frames.new.rooms ≡ frames.old.rooms }
    ensures looks { (t : List Entry) → IsStep tree.now.nodes frames.old.cells set.old.all t place entry.now → steps.new ≤ steps.old + node_looks (cells_of frames.old.cells) (executable_at (placed tree.now.nodes) place) (entry_at place entry.now) (onward (placed tree.now.nodes) Done place) }
{
    let answer = answer_in(entry);
    frames.put(place, Frame::Answered(answer));
    if answer {
        open_instead(
            tree,
            table,
            frames,
            set,
            place,
            element_at(elements, 0),
            steps,
        );
    } else {
        close(tree, table, frames, set, place, steps);
    }
}

/// A leaf does what it does, and is over.
fn move_leaf<L: Ledger>(
    tree: &Tree,
    table: &Table,
    frames: &mut Cells,
    set: &mut Sorted,
    place: u32,
    kind: Kind,
    entry: &Entry,
    steps: &mut Steps<L>,
)
    requires shaped { AreShaped tree.now.nodes }
    requires closed { IsClosed tree.now.nodes 0 (length tree.now.nodes) }
    requires distinct { AreDistinct (nodes (placed tree.now.nodes)) }
    requires table { IsTable tree.now.nodes table.now.rows.items }
    requires node { (elements : List ℕ) × IsNode tree.now.nodes place kind elements }
    requires leaf { IsLeafKind kind }
    requires moves { (t : List Entry) × IsStep tree.now.nodes frames.old.cells set.old.all t place entry.now }
    ensures moved { (t : List Entry) → IsStep tree.now.nodes frames.old.cells set.old.all t place entry.now → IsHeld tree.now.nodes frames.new.cells set.new.all (t ++ entry_at place entry.now ∷ []) }
    ensures kept { set.new.classes ≡ set.old.classes }
    ensures rooms { frames.new.rooms ≡ frames.old.rooms }
    ensures looks { (t : List Entry) → IsStep tree.now.nodes frames.old.cells set.old.all t place entry.now → steps.new ≤ steps.old + node_looks (cells_of frames.old.cells) (executable_at (placed tree.now.nodes) place) (entry_at place entry.now) (onward (placed tree.now.nodes) Done place) }
{
    frames.put(place, Frame::Over);
    close(tree, table, frames, set, place, steps);
}

/// Moves frames and set by an entry of the node at a place. Each look at a node counts one step.
pub fn move_at<L: Ledger>(
    tree: &Tree,
    table: &Table,
    frames: &mut Cells,
    set: &mut Sorted,
    place: u32,
    entry: &Entry,
    steps: &mut Steps<L>,
)
    requires shaped { AreShaped tree.now.nodes }
    requires closed { IsClosed tree.now.nodes 0 (length tree.now.nodes) }
    requires distinct { AreDistinct (nodes (placed tree.now.nodes)) }
    requires table { IsTable tree.now.nodes table.now.rows.items }
    requires rooms { frames.old.rooms ≡ rooms_of tree.now.nodes }
    requires moves { (t : List Entry) × IsStep tree.now.nodes frames.old.cells set.old.all t place entry.now }
    ensures moved { (t : List Entry) → IsStep tree.now.nodes frames.old.cells set.old.all t place entry.now → IsHeld tree.now.nodes frames.new.cells set.new.all (t ++ entry_at place entry.now ∷ []) }
    ensures kept { set.new.classes ≡ set.old.classes }
    ensures rooms { frames.new.rooms ≡ frames.old.rooms }
    ensures looks { (t : List Entry) → IsStep tree.now.nodes frames.old.cells set.old.all t place entry.now → steps.new ≤ steps.old + looks (cells_of frames.old.cells) (placed tree.now.nodes) (entry_at place entry.now) place }
{
    let Some(node) = look_at(tree, place, steps) else {
        return;
    };
    let elements = node.elements.as_slice();
    match node.kind.kind() {
        Kind::Plan | Kind::Par => {}
        Kind::NonSeq => move_picks(tree, table, frames, set, place, elements, entry, steps),
        Kind::Sel => move_choice(tree, table, frames, set, place, elements, entry, steps),
        Kind::If => move_branch(tree, table, frames, set, place, elements, entry, steps),
        Kind::While => move_turn(tree, table, frames, set, place, elements, entry, steps),
        Kind::Work => move_step(tree, table, frames, set, place, elements, entry, steps),
        kind => move_leaf(tree, table, frames, set, place, kind, entry, steps),
    }
}
