//! The nodes of a tree by place.

ghost use Rattle.std.specs.Prelude.{◌≡◌, map, slice_get, option_copied, option_map, slice_index};
ghost use Rattle.exec_tree.specs.Said.{bare_of};
ghost use Rattle.tree_table.specs.Placed.{number_at};

use exec_tree::Node;
use nc_base::Number;

/// The node at a place.
#[tactic(auto, using(crate::proofs::PlacedLemmas::get_bare))]
pub fn node_at(arena: &[Node], place: u32) -> Option<&Node>
    ensures { option_map bare_of (option_copied result) ≡ slice_get (map bare_of arena.now) place }
{
    arena.get(place as usize)
}

/// The number of the node at a place, 0 where there is none.
pub fn number_at(arena: &[Node], place: u32) -> Number
    ensures { result ≡ number_at (map bare_of arena.now) place }
{
    match node_at(arena, place) {
        Some(node) => node.number.unwrap_or(0),
        None => 0,
    }
}

/// The place of the element at an index, 0 where there is none.
pub fn element_at(elements: &[u32], k: usize) -> u32
    ensures { result ≡ slice_index elements.now k }
{
    match elements.get(k) {
        Some(place) => *place,
        None => 0,
    }
}
