//! Opening, by a table: which nodes come in.

ghost use Rattle.std.specs.Prelude.{◌≡◌, ◌<◌, ◌≤◌, ◌+◌, ◌||◌, [], ℕ, true, length};
ghost use Rattle.exec_tree.specs.Arena.{to_execs, AreShaped, IsClosed};
ghost use Rattle.exec_tree.specs.Exec.{nodes, nodes_all, has};
ghost use Rattle.frame_law.specs.Looks.{finding, finding_first};
ghost use Rattle.place_set.specs.Words.{holds};
ghost use Rattle.trace_law.specs.Next.{next, next_each};
ghost use Rattle.tree_table.specs.Filled.{into_of, first_into, Led, LedAll};
ghost use Rattle.tree_table.specs.Placed.{placed, placed_down, placed_all};
ghost use Rattle.tree_table.specs.Rows.{into_at, levels_at, executable_at};
ghost use Rattle.tree_table.specs.Table.{IsEntrance, IsTable};

use crate::nodes::{look_at, place_for};
use crate::row::Row;
use exec_tree::{Kind, MAX_TREE_NESTING, Tree};
use nc_base::Steps;
use place_set::PlaceSet;
use std::sync::ledger::Ledger;
use trace_law::laws::leads_opens;

/// The place to which opening the node at a place leads.
pub(crate) fn into_at(rows: &[Row], place: u32) -> Option<u32>
    ensures { result ≡ into_at rows.now place }
{
    match rows.get(place as usize) {
        Some(row) => row.into,
        None => None,
    }
}

/// How many levels are left from a place on.
pub(crate) fn levels_at(rows: &[Row], place: u32) -> u32
    ensures { result ≡ levels_at rows.now place }
{
    match rows.get(place as usize) {
        Some(row) => row.levels,
        None => 0,
    }
}

/// The place to which opening an executable leads, at most so many levels down. The branch that an if leaves out has no row. Each look at a
/// node counts one step.
#[cycle(finding)]
pub(crate) fn lead_at<L: Ledger>(
    tree: &Tree,
    rows: &[Row],
    levels: u32,
    place: u32,
    steps: &mut Steps<L>,
) -> Option<u32>
    requires { Led tree.now.nodes rows.now (placed_down tree.now.nodes levels place) }
    ensures into { result ≡ into_of (placed_down tree.now.nodes levels place) }
    ensures looks { steps.new ≤ steps.old + finding (placed_down tree.now.nodes levels place) }
{
    if levels == 0 {
        return None;
    }
    let Some(node) = look_at(tree, place, steps) else {
        return None;
    };
    match place_for(node.kind.kind(), node.number, place) {
        Some(own) => into_at(rows, own),
        None => first_at(tree, rows, levels - 1, node.elements.as_slice(), steps),
    }
}

/// The place to which opening the first of these elements leads that leads anywhere.
#[cycle(finding)]
fn first_at<L: Ledger>(
    tree: &Tree,
    rows: &[Row],
    levels: u32,
    elements: &[u32],
    steps: &mut Steps<L>,
) -> Option<u32>
    requires { LedAll tree.now.nodes rows.now (to_execs (placed_all tree.now.nodes levels elements.now)) }
    ensures into { result ≡ first_into (to_execs (placed_all tree.now.nodes levels elements.now)) }
    ensures looks { steps.new ≤ steps.old + finding_first (to_execs (placed_all tree.now.nodes levels elements.now)) }
{
    for k in 0..elements.len() {
        let into = lead_at(tree, rows, levels, elements[k], steps);
        if into.is_some() {
            return into;
        }
    }
    None
}

/// Opens the executable at a place to which opening leads: a parallel opens its elements, each other comes in itself. So deep as
/// parallels lie in each other it calls itself.
#[cycle(opening)]
pub(crate) fn open_at<L: Ledger>(
    tree: &Tree,
    rows: &[Row],
    set: &mut PlaceSet,
    place: u32,
    steps: &mut Steps<L>,
)
    requires shaped { AreShaped tree.now.nodes }
    requires closed { IsClosed tree.now.nodes 0 (length tree.now.nodes) }
    requires table { IsTable tree.now.nodes rows.now }
    requires entrance { IsEntrance tree.now.nodes rows.now place }
    ensures { (q : ℕ) → holds set.new q ≡ (holds set.old q || has (next (executable_at tree.now.nodes rows.now place) []) q) }
{
    let Some(node) = look_at(tree, place, steps) else {
        return;
    };
    match node.kind.kind() {
        Kind::Par => open_all(
            tree,
            rows,
            set,
            place,
            levels_at(rows, place).saturating_sub(1),
            node.elements.as_slice(),
            steps,
        ),
        _ => set.insert(place),
    }
}

/// Opens the elements of the parallel at a place.
#[cycle(opening)]
fn open_all<L: Ledger>(
    tree: &Tree,
    rows: &[Row],
    set: &mut PlaceSet,
    place: u32,
    levels: u32,
    elements: &[u32],
    steps: &mut Steps<L>,
)
    requires shaped { AreShaped tree.now.nodes }
    requires closed { IsClosed tree.now.nodes 0 (length tree.now.nodes) }
    requires table { IsTable tree.now.nodes rows.now }
    requires within { place < length tree.now.nodes }
    requires later { (r : ℕ) → has elements.now r ≡ true → place < r }
    requires led { LedAll tree.now.nodes rows.now (to_execs (placed_all tree.now.nodes levels elements.now)) }
    requires inside { (q : ℕ) → has (nodes_all (to_execs (placed_all tree.now.nodes levels elements.now))) q ≡ true → has (nodes (placed tree.now.nodes)) q ≡ true }
    ensures { (q : ℕ) → holds set.new q ≡ (holds set.old q || has (next_each (to_execs (placed_all tree.now.nodes levels elements.now)) []) q) }
{
    leads_opens();
    for k in (0..elements.len()).rev() {
        if let Some(into) = lead_at(tree, rows, levels, elements[k], steps) {
            open_at(tree, rows, set, into, steps);
        }
    }
}

/// Opens the whole tree.
pub(crate) fn open_whole<L: Ledger>(
    tree: &Tree,
    rows: &[Row],
    set: &mut PlaceSet,
    steps: &mut Steps<L>,
)
    requires shaped { AreShaped tree.now.nodes }
    requires closed { IsClosed tree.now.nodes 0 (length tree.now.nodes) }
    requires table { IsTable tree.now.nodes rows.now }
    ensures { (q : ℕ) → holds set.new q ≡ (holds set.old q || has (next (placed tree.now.nodes) []) q) }
{
    leads_opens();
    if let Some(into) = lead_at(tree, rows, MAX_TREE_NESTING, 0, steps) {
        open_at(tree, rows, set, into, steps);
    }
}
