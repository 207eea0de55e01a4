//! The nodes of a tree by place.

ghost use Rattle.std.specs.Prelude.{◌≡◌, ◌≤◌, ◌+◌, map, slice_get, option_copied, option_map};
ghost use Rattle.exec_tree.specs.Said.{bare_of};
ghost use Rattle.tree_table.specs.Placed.{place_for};

use exec_tree::{Kind, Node, Tree};
use nc_base::{Number, Steps};
use std::sync::ledger::Ledger;

/// The node at a place.
#[tactic(auto, using(crate::proofs::PlacedLemmas::get_bare))]
pub(crate) fn node_at(arena: &[Node], place: u32) -> Option<&Node>
    ensures { option_map bare_of (option_copied result) ≡ slice_get (map bare_of arena.now) place }
{
    arena.get(place as usize)
}

/// The node at a place, none where there is no such place. A look at a node counts one step.
pub fn look_at<'a, L: Ledger>(tree: &'a Tree, place: u32, steps: &mut Steps<L>) -> Option<&'a Node>
    ensures node { option_map bare_of (option_copied result) ≡ slice_get tree.now.nodes place }
    ensures looks { steps.new ≤ steps.old + 1 }
{
    if place < tree.len() {
        Some(tree.node(place, steps))
    } else {
        None
    }
}

/// The place of a node of this kind in the placed tree. A workplan without a number, which is a branch that an if leaves out, has none.
pub(crate) fn place_for(kind: Kind, number: Option<Number>, place: u32) -> Option<u32>
    ensures { result ≡ place_for kind number place }
{
    match kind {
        Kind::Plan => match number {
            Some(_) => Some(place),
            None => None,
        },
        _ => Some(place),
    }
}
