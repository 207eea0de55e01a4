//! The numbers of an executable's nodes, in preorder.

ghost use Rattle.std.specs.Prelude.{◌≡◌, IfOk, map, slice_get, option_copied, option_map};
ghost use Rattle.exec_tree.specs.Exec.{nodes, nodes_all};
ghost use Rattle.exec_tree.specs.Arena.{to_execs, tree_down, AreShaped};
ghost use Rattle.exec_tree.specs.Said.{bare_of};
ghost use Rattle.trace_law.specs.Below.{trees_down, own_number};
ghost use Rattle.trace_law.specs.Elements.{nodes_at};

use exec_tree::{Kind, Node};
use nc_base::Number;
use std::alloc::{AllocError, Global};

/// The number of a node of this kind. Only a workplan may have none.
fn own_number(alloc: Global, kind: Kind, number: Option<Number>) -> Result<Vec<Number>, AllocError>
    ensures { IfOk result (λ v. v.items ≡ own_number kind number) }
{
    let mut own = Vec::new(alloc);
    match kind {
        Kind::Plan => {
            if let Some(n) = number {
                own.push(n)?;
            }
        }
        _ => own.push(number.unwrap_or(0))?,
    }
    Ok(own)
}

/// The node at a place.
#[tactic(auto, using(crate::proofs::ArenaLemmas::get_bare))]
pub fn node_at(arena: &[Node], place: u32) -> Option<&Node>
    ensures { option_map bare_of (option_copied result) ≡ slice_get (map bare_of arena.now) place }
{
    arena.get(place as usize)
}

/// The numbers of the node at a place and of those below it, at most so many levels down.
#[cycle(numbers)]
pub fn numbers_down(
    alloc: Global,
    arena: &[Node],
    levels: u32,
    place: u32,
) -> Result<Vec<Number>, AllocError>
    requires { AreShaped (map bare_of arena.now) }
    ensures { IfOk result (λ v. v.items ≡ nodes (tree_down (map bare_of arena.now) levels place)) }
{
    if levels == 0 {
        return Ok(Vec::new(alloc));
    }
    match node_at(arena, place) {
        None => Ok(Vec::new(alloc)),
        Some(node) => {
            let mut numbers = own_number(alloc, node.kind.kind(), node.number)?;
            let below = numbers_of_all(alloc, arena, levels - 1, node.elements.as_slice())?;
            numbers.extend_from_slice(&below)?;
            Ok(numbers)
        }
    }
}

/// The numbers of the nodes of several elements.
#[cycle(numbers)]
fn numbers_of_all(
    alloc: Global,
    arena: &[Node],
    levels: u32,
    places: &[u32],
) -> Result<Vec<Number>, AllocError>
    requires { AreShaped (map bare_of arena.now) }
    ensures { IfOk result (λ v. v.items ≡ nodes_all (to_execs (trees_down (map bare_of arena.now) levels places.now))) }
{
    let mut numbers = Vec::new(alloc);
    for place in places {
        let below = numbers_down(alloc, arena, levels, *place)?;
        numbers.extend_from_slice(&below)?;
    }
    Ok(numbers)
}

/// The numbers of the nodes of the element at an index.
pub fn numbers_at(
    alloc: Global,
    arena: &[Node],
    levels: u32,
    elements: &[u32],
    k: u32,
) -> Result<Vec<Number>, AllocError>
    requires { AreShaped (map bare_of arena.now) }
    ensures { IfOk result (λ v. v.items ≡ nodes_at (to_execs (trees_down (map bare_of arena.now) levels elements.now)) k) }
{
    match elements.get(k as usize) {
        Some(place) => numbers_down(alloc, arena, levels, *place),
        None => Ok(Vec::new(alloc)),
    }
}
