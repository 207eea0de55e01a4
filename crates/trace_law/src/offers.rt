//! What a node of an arena does next.

ghost use Rattle.std.specs.Prelude.{◌≡◌, IfOk, map};
ghost use Rattle.exec_tree.specs.Arena.{to_execs, of_kind, first_of, tree_down, AreShaped, HasArity};
ghost use Rattle.exec_tree.specs.Said.{bare_of};
ghost use Rattle.trace_law.specs.Own.{picks};
ghost use Rattle.trace_law.specs.Offer.{offer, offer_among, Picks};
ghost use Rattle.trace_law.specs.Below.{trees_down};
ghost use Rattle.trace_law.specs.Deed.{offer_of};

use crate::below::{node_at, numbers_down};
use crate::entries::{body_of, entries_of, has_number, picks, stage};
use exec_tree::{Kind, Node};
use run_log::Entry;
use std::alloc::{AllocError, Global};

/// What a node does next; a workingstep by the blocks that it has where it is open.
#[derive(Drop)]
pub enum Deed {
    Works { stage: Option<usize> },
    Assigns,
    Sets,
    Passes,
    Notes,
    Picks { count: usize, picked: Vec<u32> },
    Tests,
    Nothing,
}

/// What node m does next, under the node at a place.
#[cycle(offers)]
pub fn offer_down(
    alloc: Global,
    arena: &[Node],
    levels: u32,
    place: u32,
    t: &[Entry],
    m: u32,
) -> Result<Deed, AllocError>
    requires { AreShaped (map bare_of arena.now) }
    ensures { IfOk result (λ d. offer_of d ≡ offer (tree_down (map bare_of arena.now) levels place) t.now m) }
{
    if levels == 0 {
        return Ok(Deed::Nothing);
    }
    let Some(node) = node_at(arena, place) else {
        return Ok(Deed::Nothing);
    };
    offer_of_kind(
        alloc,
        arena,
        levels - 1,
        node.kind.kind(),
        node.number,
        node.elements.as_slice(),
        t,
        m,
    )
}

/// What node m does next, under an executable of a kind.
#[cycle(offers)]
fn offer_of_kind(
    alloc: Global,
    arena: &[Node],
    levels: u32,
    kind: Kind,
    number: Option<u32>,
    elements: &[u32],
    t: &[Entry],
    m: u32,
) -> Result<Deed, AllocError>
    requires shaped { AreShaped (map bare_of arena.now) }
    requires arity { HasArity kind elements.now }
    ensures { IfOk result (λ d. offer_of d ≡ offer (of_kind kind number (trees_down (map bare_of arena.now) levels elements.now)) t.now m) }
{
    let n = number.unwrap_or(0);
    match kind {
        Kind::Plan => offer_among(alloc, arena, levels, elements, t, m),
        Kind::Par => offer_among(alloc, arena, levels, elements, t, m),
        Kind::Sel => if n == m {
            Ok(Deed::Picks {
                count: elements.len(),
                picked: Vec::new(alloc),
            })
        } else {
            offer_among(alloc, arena, levels, elements, t, m)
        },
        Kind::NonSeq => if n == m {
            offer_picks(alloc, n, elements.len(), t)
        } else {
            offer_among(alloc, arena, levels, elements, t, m)
        },
        Kind::If => if n == m {
            Ok(Deed::Tests)
        } else {
            offer_among(alloc, arena, levels, elements, t, m)
        },
        Kind::While => if n == m {
            Ok(Deed::Tests)
        } else {
            offer_first(alloc, arena, levels, elements, body_of(n, t), m)
        },
        Kind::Work => Ok(Deed::Works { stage: stage(t, m) }),
        Kind::Assign => Ok(Deed::Assigns),
        Kind::Set => Ok(Deed::Sets),
        Kind::Wait => Ok(Deed::Passes),
        Kind::Note => Ok(Deed::Notes),
    }
}

/// That one of so many elements is picked, with those that `n` has picked.
fn offer_picks(alloc: Global, n: u32, count: usize, t: &[Entry]) -> Result<Deed, AllocError>
    ensures { IfOk result (λ d. offer_of d ≡ Picks count (picks n t.now)) }
{
    Ok(Deed::Picks {
        count,
        picked: picks(alloc, n, t)?,
    })
}

/// What node m does next, under the element that has it.
#[cycle(offers)]
fn offer_among(
    alloc: Global,
    arena: &[Node],
    levels: u32,
    elements: &[u32],
    t: &[Entry],
    m: u32,
) -> Result<Deed, AllocError>
    requires { AreShaped (map bare_of arena.now) }
    ensures { IfOk result (λ d. offer_of d ≡ offer_among (to_execs (trees_down (map bare_of arena.now) levels elements.now)) t.now m) }
{
    for place in elements {
        let numbers = numbers_down(alloc, arena, levels, *place)?;
        if has_number(numbers.as_slice(), m) {
            let part = entries_of(alloc, numbers.as_slice(), t)?;
            return offer_down(alloc, arena, levels, *place, part.as_slice(), m);
        }
    }
    Ok(Deed::Nothing)
}

/// What node m does next, under the first element.
#[cycle(offers)]
fn offer_first(
    alloc: Global,
    arena: &[Node],
    levels: u32,
    elements: &[u32],
    t: &[Entry],
    m: u32,
) -> Result<Deed, AllocError>
    requires { AreShaped (map bare_of arena.now) }
    ensures { IfOk result (λ d. offer_of d ≡ offer (first_of (trees_down (map bare_of arena.now) levels elements.now)) t.now m) }
{
    match elements.first() {
        Some(place) => offer_down(alloc, arena, levels, *place, t, m),
        None => Ok(Deed::Nothing),
    }
}
