//! Where the executable at a place of an arena can go on.

ghost use Rattle.std.specs.Prelude.{◌≡◌, ◌∷◌, ◌==◌, [], if◌then◌else◌, IfOk, map};
ghost use Rattle.exec_tree.specs.Exec.{If, While, NonSeq};
ghost use Rattle.exec_tree.specs.Arena.{to_execs, of_kind, first_of, second_of, tree_down, AreShaped};
ghost use Rattle.exec_tree.specs.Said.{bare_of};
ghost use Rattle.trace_law.specs.Next.{first_of_two, next, next_work, next_at, next_in_order, next_each};
ghost use Rattle.trace_law.specs.Below.{trees_down};

use crate::below::{node_at, numbers_at, numbers_down};
use crate::entries::{
    answer_of, body_of, entries_of, goes_on, last_number, pick_of, picks, test_of,
};
use exec_tree::{Kind, Node};
use run_log::Entry;
use std::alloc::{AllocError, Global};

/// Where a workingstep can go on.
#[tactic(auto, using(crate::proofs::LoopLemmas::work_is))]
fn next_work(alloc: Global, n: u32, t: &[Entry]) -> Result<Vec<u32>, AllocError>
    ensures { IfOk result (λ v. v.items ≡ next_work n t.now) }
{
    if goes_on(t) {
        one(alloc, n)
    } else {
        Ok(Vec::new(alloc))
    }
}

/// A list of one number.
fn one(alloc: Global, n: u32) -> Result<Vec<u32>, AllocError>
    ensures { IfOk result (λ v. v.items ≡ n ∷ []) }
{
    let mut ns = Vec::new(alloc);
    ns.push(n)?;
    Ok(ns)
}

/// The node itself, where not all elements are picked.
fn own_next(alloc: Global, n: u32, picked: usize, count: usize) -> Result<Vec<u32>, AllocError>
    ensures { IfOk result (λ v. v.items ≡ if picked == count then [] else n ∷ []) }
{
    if picked == count {
        Ok(Vec::new(alloc))
    } else {
        one(alloc, n)
    }
}

/// The first list where it isn't empty, else the second.
fn first_of_two(first: Vec<u32>, second: Vec<u32>) -> Vec<u32>
    ensures { result.items ≡ first_of_two first.items second.items }
{
    if first.is_empty() { second } else { first }
}

/// Where the executable at a place can go on.
#[cycle(next)]
pub fn next_down(
    alloc: Global,
    arena: &[Node],
    levels: u32,
    place: u32,
    t: &[Entry],
) -> Result<Vec<u32>, AllocError>
    requires { AreShaped (map bare_of arena.now) }
    ensures { IfOk result (λ v. v.items ≡ next (tree_down (map bare_of arena.now) levels place) t.now) }
{
    if levels == 0 {
        return Ok(Vec::new(alloc));
    }
    let Some(node) = node_at(arena, place) else {
        return Ok(Vec::new(alloc));
    };
    next_of_kind(
        alloc,
        arena,
        levels - 1,
        node.kind.kind(),
        node.number,
        node.elements.as_slice(),
        t,
    )
}

/// Where an executable of a kind can go on.
#[cycle(next)]
fn next_of_kind(
    alloc: Global,
    arena: &[Node],
    levels: u32,
    kind: Kind,
    number: Option<u32>,
    elements: &[u32],
    t: &[Entry],
) -> Result<Vec<u32>, AllocError>
    requires { AreShaped (map bare_of arena.now) }
    ensures { IfOk result (λ v. v.items ≡ next (of_kind kind number (trees_down (map bare_of arena.now) levels elements.now)) t.now) }
{
    let n = number.unwrap_or(0);
    match kind {
        Kind::Plan => next_order(alloc, arena, levels, elements, t),
        Kind::Par => next_each(alloc, arena, levels, elements, t),
        Kind::Sel => match t {
            [] => one(alloc, n),
            [x, rest @ ..] => match pick_of(n, x) {
                Some(k) => next_at(alloc, arena, levels, elements, k, rest),
                None => Ok(Vec::new(alloc)),
            },
        },
        Kind::Work => next_work(alloc, n, t),
        Kind::If => next_if(alloc, arena, levels, n, elements, t),
        Kind::While => next_while(alloc, arena, levels, n, elements, t),
        Kind::NonSeq => next_nonseq(alloc, arena, levels, n, elements, t),
        _ => if t.is_empty() {
            one(alloc, n)
        } else {
            Ok(Vec::new(alloc))
        },
    }
}

/// Where the element at an index can go on.
#[cycle(next)]
fn next_at(
    alloc: Global,
    arena: &[Node],
    levels: u32,
    elements: &[u32],
    k: u32,
    t: &[Entry],
) -> Result<Vec<u32>, AllocError>
    requires { AreShaped (map bare_of arena.now) }
    ensures { IfOk result (λ v. v.items ≡ next_at (to_execs (trees_down (map bare_of arena.now) levels elements.now)) k t.now) }
{
    match elements.get(k as usize) {
        Some(place) => next_down(alloc, arena, levels, *place, t),
        None => Ok(Vec::new(alloc)),
    }
}

/// Where the first of the elements that is not over can go on.
#[cycle(next)]
fn next_order(
    alloc: Global,
    arena: &[Node],
    levels: u32,
    elements: &[u32],
    t: &[Entry],
) -> Result<Vec<u32>, AllocError>
    requires { AreShaped (map bare_of arena.now) }
    ensures { IfOk result (λ v. v.items ≡ next_in_order (to_execs (trees_down (map bare_of arena.now) levels elements.now)) t.now) }
{
    for place in elements {
        let numbers = numbers_down(alloc, arena, levels, *place)?;
        let part = entries_of(alloc, numbers.as_slice(), t)?;
        let going = next_down(alloc, arena, levels, *place, part.as_slice())?;
        if !going.is_empty() {
            return Ok(going);
        }
    }
    Ok(Vec::new(alloc))
}

/// Where all elements can go on, in order.
#[cycle(next)]
fn next_each(
    alloc: Global,
    arena: &[Node],
    levels: u32,
    elements: &[u32],
    t: &[Entry],
) -> Result<Vec<u32>, AllocError>
    requires { AreShaped (map bare_of arena.now) }
    ensures { IfOk result (λ v. v.items ≡ next_each (to_execs (trees_down (map bare_of arena.now) levels elements.now)) t.now) }
{
    let mut going = Vec::new(alloc);
    for place in elements {
        let numbers = numbers_down(alloc, arena, levels, *place)?;
        let part = entries_of(alloc, numbers.as_slice(), t)?;
        let of_one = next_down(alloc, arena, levels, *place, part.as_slice())?;
        going.extend_from_slice(of_one.as_slice())?;
    }
    Ok(going)
}

/// Where an if can go on.
#[cycle(next)]
#[tactic(auto, using(crate::proofs::LoopLemmas::first_at, crate::proofs::LoopLemmas::second_at))]
fn next_if(
    alloc: Global,
    arena: &[Node],
    levels: u32,
    n: u32,
    elements: &[u32],
    t: &[Entry],
) -> Result<Vec<u32>, AllocError>
    requires { AreShaped (map bare_of arena.now) }
    ensures { IfOk result (λ v. v.items ≡ next (If n (first_of (trees_down (map bare_of arena.now) levels elements.now)) (second_of (trees_down (map bare_of arena.now) levels elements.now))) t.now) }
{
    let [x, others @ ..] = t else {
        return one(alloc, n);
    };
    match test_of(n, x) {
        Some(true) => next_at(alloc, arena, levels, elements, 0, others),
        Some(false) => next_at(alloc, arena, levels, elements, 1, others),
        None => Ok(Vec::new(alloc)),
    }
}

/// Where a while can go on.
#[cycle(next)]
#[tactic(auto, using(crate::proofs::LoopLemmas::while_is, crate::proofs::LoopLemmas::first_at))]
fn next_while(
    alloc: Global,
    arena: &[Node],
    levels: u32,
    n: u32,
    elements: &[u32],
    t: &[Entry],
) -> Result<Vec<u32>, AllocError>
    requires { AreShaped (map bare_of arena.now) }
    ensures { IfOk result (λ v. v.items ≡ next (While n (first_of (trees_down (map bare_of arena.now) levels elements.now))) t.now) }
{
    match answer_of(n, t) {
        Some(true) => {
            let body = next_at(alloc, arena, levels, elements, 0, body_of(n, t))?;
            Ok(first_of_two(body, one(alloc, n)?))
        }
        Some(false) => Ok(Vec::new(alloc)),
        None => one(alloc, n),
    }
}

/// Where a non-sequential can go on.
#[cycle(next)]
#[tactic(auto, using(crate::proofs::LoopLemmas::count_is, crate::proofs::LoopLemmas::nonseq_is))]
fn next_nonseq(
    alloc: Global,
    arena: &[Node],
    levels: u32,
    n: u32,
    elements: &[u32],
    t: &[Entry],
) -> Result<Vec<u32>, AllocError>
    requires { AreShaped (map bare_of arena.now) }
    ensures { IfOk result (λ v. v.items ≡ next (NonSeq n (to_execs (trees_down (map bare_of arena.now) levels elements.now))) t.now) }
{
    let ks = picks(alloc, n, t)?;
    let own = own_next(alloc, n, ks.len(), elements.len())?;
    match last_number(ks.as_slice()) {
        Some(k) => {
            let numbers = numbers_at(alloc, arena, levels, elements, k)?;
            let part = entries_of(alloc, numbers.as_slice(), t)?;
            let inner = next_at(alloc, arena, levels, elements, k, part.as_slice())?;
            Ok(first_of_two(inner, own))
        }
        None => Ok(own),
    }
}
