//! Whether entries are a run of a tree, and where it can go on.

ghost use Rattle.std.specs.Prelude.{◌≡◌, ◌↔◌, IfOk, IsTrue, []};
ghost use Rattle.exec_tree.specs.Exec.{nodes, AreDistinct};
ghost use Rattle.trace_law.specs.Whole.{Whole};
ghost use Rattle.trace_law.specs.Part.{Part};
ghost use Rattle.trace_law.specs.Next.{next};
ghost use Rattle.trace_law.specs.Stray.{first_stray};
ghost use Rattle.trace_law.specs.Below.{tree_in};

use crate::going_on::next_down;
use crate::laws::{part_of_own_nodes, strays_are_found, whole_where_nothing_is_next};
use crate::strays::may_follow;
use exec_tree::{MAX_TREE_NESTING, Tree};
use nc_base::{NoMemory, NumberList};
use run_log::Entry;
use std::alloc::Global;

/// The first entry that strays from the tree: with it the entries up to it are no run so far any more. None exactly where `t` is one.
/// Each entry is told from all those before it, so this is for short lists.
///
/// # Errors
/// `NoMemory` where there is none for numbers and entries on the way.
pub fn first_stray(alloc: Global, tree: &Tree, t: &[Entry]) -> Result<Option<Entry>, NoMemory>
    ensures { IfOk result (λ stray. stray ≡ first_stray (tree_in tree.now) [] t.now) }
{
    let arena = tree.nodes();
    for i in 0..t.len() {
        if !may_follow(alloc, arena, &t[..i], &t[i])? {
            return Ok(Some(t[i]));
        }
    }
    Ok(None)
}

/// Each number stands once in a tree: its type keeps that.
fn numbers_stand_once(tree: &Tree)
    ensures { AreDistinct (nodes (tree_in tree.now)) }
{
    tree.nodes();
}

/// Whether the entries are a run so far of the tree: none of them strays from it.
///
/// # Errors
/// `NoMemory` where there is none for numbers and entries on the way.
pub fn part(alloc: Global, tree: &Tree, t: &[Entry]) -> Result<bool, NoMemory>
    ensures { IfOk result (λ yes. IsTrue yes ↔ Part (tree_in tree.now) t.now) }
{
    numbers_stand_once(tree);
    strays_are_found();
    match first_stray(alloc, tree, t)? {
        None => Ok(true),
        Some(_) => Ok(false),
    }
}

/// Whether the entries are a whole run of the tree: a run so far that can go on nowhere.
///
/// # Errors
/// `NoMemory` where there is none for numbers and entries on the way.
pub fn whole(alloc: Global, tree: &Tree, t: &[Entry]) -> Result<bool, NoMemory>
    ensures { IfOk result (λ yes. IsTrue yes ↔ Whole (tree_in tree.now) t.now) }
{
    numbers_stand_once(tree);
    whole_where_nothing_is_next();
    part_of_own_nodes();
    if !part(alloc, tree, t)? {
        return Ok(false);
    }
    let going = next_down(alloc, tree.nodes(), MAX_TREE_NESTING, 0, t)?;
    Ok(going.is_empty())
}

/// The nodes where a run of the tree can go on after `t`, a run so far, in order.
///
/// # Errors
/// `NoMemory` where there is none for the numbers, or for numbers and entries on the way.
pub fn next(alloc: Global, tree: &Tree, t: &[Entry]) -> Result<NumberList, NoMemory>
    ensures { IfOk result (λ numbers. numbers ≡ next (tree_in tree.now) t.now) }
{
    let going = next_down(alloc, tree.nodes(), MAX_TREE_NESTING, 0, t)?;
    let mut numbers = NumberList::new(alloc);
    for n in going.as_slice() {
        numbers.push(*n)?;
    }
    Ok(numbers)
}
