//! Whether an entry may follow a run so far.

ghost use Rattle.std.specs.Prelude.{◌≡◌, IfOk, map};
ghost use Rattle.exec_tree.specs.Arena.{tree_down, AreShaped};
ghost use Rattle.exec_tree.specs.Said.{bare_of};
ghost use Rattle.exec_tree.specs.Exec.{Assigning, Setting, Waiting, Noting};
ghost use Rattle.exec_tree.specs.declared.limits.TheConstants.{MAX_TREE_NESTING};
ghost use Rattle.trace_law.specs.Offer.{offer_of_work, Picks};
ghost use Rattle.trace_law.specs.Stray.{is_of_leaf, is_offered, may_follow};
ghost use Rattle.trace_law.specs.Deed.{offer_of};

use crate::entries::{entry_number, has_number, pick_of, test_of};
use crate::going_on::next_down;
use crate::offers::{Deed, offer_down};
use exec_tree::{MAX_TREE_NESTING, Node};
use nc_base::Number;
use run_log::Entry;
use std::alloc::{AllocError, Global};

/// Whether the entry is the next one of workingstep `n`, which has so many blocks where it is open.
fn is_next_of_work(stage: Option<usize>, n: Number, x: &Entry) -> bool
    ensures { result ≡ is_offered (offer_of_work stage) n x.now }
{
    match stage {
        None => match *x {
            Entry::Dispatch { n: m, .. } => m == n,
            _ => false,
        },
        Some(k) => match *x {
            Entry::Block { n: m, k: j, .. } => m == n && j as usize == k,
            Entry::End { n: m } => m == n,
            _ => false,
        },
    }
}

/// Whether the entry is an assignment of `n`.
fn assigns(n: Number, x: &Entry) -> bool
    ensures { result ≡ is_of_leaf Assigning n x.now }
{
    match *x {
        Entry::Assign { n: m, .. } => m == n,
        _ => false,
    }
}

/// Whether the entry sets the mark of `n`.
fn sets(n: Number, x: &Entry) -> bool
    ensures { result ≡ is_of_leaf Setting n x.now }
{
    match *x {
        Entry::Set { n: m } => m == n,
        _ => false,
    }
}

/// Whether the entry passes wait `n`.
fn passes(n: Number, x: &Entry) -> bool
    ensures { result ≡ is_of_leaf Waiting n x.now }
{
    match *x {
        Entry::Pass { n: m } => m == n,
        _ => false,
    }
}

/// Whether the entry shows message `n`.
fn notes(n: Number, x: &Entry) -> bool
    ensures { result ≡ is_of_leaf Noting n x.now }
{
    match *x {
        Entry::Note { n: m } => m == n,
        _ => false,
    }
}

/// Whether the entry is a pick of `n` of an index below `count` that isn't picked yet.
fn is_new_pick(count: usize, picked: &[u32], n: Number, x: &Entry) -> bool
    ensures { result ≡ is_offered (Picks count picked.now) n x.now }
{
    match pick_of(n, x) {
        Some(k) => (k as usize) < count && !has_number(picked, k),
        None => false,
    }
}

/// Whether the entry is one of what node `n` does next.
fn is_offered(deed: &Deed, n: Number, x: &Entry) -> bool
    ensures { result ≡ is_offered (offer_of deed.now) n x.now }
{
    match deed {
        Deed::Works { stage } => is_next_of_work(*stage, n, x),
        Deed::Assigns => assigns(n, x),
        Deed::Sets => sets(n, x),
        Deed::Passes => passes(n, x),
        Deed::Notes => notes(n, x),
        Deed::Picks { count, picked } => is_new_pick(*count, picked, n, x),
        Deed::Tests => test_of(n, x).is_some(),
        Deed::Nothing => false,
    }
}

/// Whether after `t` the run can go on at the entry's node, and the entry is what the node does next.
pub fn may_follow(alloc: Global, arena: &[Node], t: &[Entry], x: &Entry) -> Result<bool, AllocError>
    requires { AreShaped (map bare_of arena.now) }
    ensures { IfOk result (λ yes. yes ≡ may_follow (tree_down (map bare_of arena.now) MAX_TREE_NESTING 0) t.now x.now) }
{
    let Some(n) = entry_number(x) else {
        return Ok(false);
    };
    let going = next_down(alloc, arena, MAX_TREE_NESTING, 0, t)?;
    let deed = offer_down(alloc, arena, MAX_TREE_NESTING, 0, t, n)?;
    Ok(has_number(&going, n) && is_offered(&deed, n, x))
}
