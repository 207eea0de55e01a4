//! What a list of entries is to a tree, and where it can go on.

ghost use Rattle.std.specs.Prelude.{◌≡◌, ◌↔◌, ◌++◌, [], List, IfOk, IfSome, IsSome, IsTrue};
ghost use Rattle.exec_tree.specs.Exec.{nodes};
ghost use Rattle.trace_law.specs.Below.{tree_in};
ghost use Rattle.trace_law.specs.Next.{next};
ghost use Rattle.trace_law.specs.Part.{Part};
ghost use Rattle.trace_law.specs.Stray.{first_stray};
ghost use Rattle.trace_law.specs.Whole.{Whole};
ghost use Rattle.run_log.specs.declared.entry.Entry.{Entry};
ghost use Rattle.run_frames.specs.Standing.{IsAt};
ghost use Rattle.trace_check.specs.Pass.{IsPass};

use crate::fitting::node_at;
use crate::following::follow_all;
use exec_tree::Tree;
use nc_base::{NoMemory, NumberList, Steps};
use run_frames::Frames;
use run_log::Entry;
use std::alloc::Global;
use std::marker::Brand;
use std::sync::ledger::{Blank, Ledger};
use trace_law::laws::{
    next_stands_in_preorder, part_of_own_nodes, strays_are_found, whole_where_nothing_is_next,
};

/// What a pass over entries leaves: the frames after those that it has followed, and the first that strays from the tree.
#[derive(Drop)]
struct Pass {
    frames: Frames,
    stray: Option<Entry>,
}

/// Goes over entries once, as far as they are a run of the tree so far, by a counter of looks.
fn passed_by<L: Ledger>(
    alloc: Global,
    tree: &Tree,
    t: &[Entry],
    blank: Blank,
) -> Result<Pass, NoMemory>
    requires name { blank.name ≡ L.name }
    requires parts { blank.parts ≡ L.parts }
    requires one { blank.parts ≡ 1 }
    ensures { IfOk result (λ p. IsPass tree.now t.now p.frames p.stray) }
{
    let (book, share) = blank.open::<L>();
    let mut steps = Steps::new(book, share);
    let mut frames = Frames::open(alloc, tree, &mut steps)?;
    let stray = follow_all(tree, &mut frames, t, &mut steps);
    Ok(Pass { frames, stray })
}

/// Goes over entries once. What it looks at is counted by a counter of its own.
fn passed(alloc: Global, tree: &Tree, t: &[Entry]) -> Result<Pass, NoMemory>
    ensures { IfOk result (λ p. IsPass tree.now t.now p.frames p.stray) }
{
    passed_by::<Brand>(alloc, tree, t, Blank::new(1))
}

/// The nodes where the run can go on for which the frames stand, in order.
fn going_on(alloc: Global, tree: &Tree, frames: &Frames) -> Result<NumberList, NoMemory>
    requires at { (t : List Entry) × IsAt tree.now.nodes frames.now t }
    ensures { IfOk result (λ numbers. (t : List Entry) → IsAt tree.now.nodes frames.now t → numbers ≡ next (tree_in tree.now) t) }
{
    next_stands_in_preorder();
    tree.nodes();
    let mut numbers = NumberList::new(alloc);
    for place in 0..tree.len() {
        if let Some(n) = node_at(tree, place).number {
            if frames.goes_on(tree, place) {
                numbers.push(n)?;
            }
        }
    }
    Ok(numbers)
}

/// The first entry that strays from the tree: with it the entries up to it are no run so far any more. None exactly where `t` is one. Each
/// entry is told from what its own node does next.
///
/// # Errors
/// `NoMemory` where there is none for what is kept of each node.
pub fn first_stray(alloc: Global, tree: &Tree, t: &[Entry]) -> Result<Option<Entry>, NoMemory>
    ensures { IfOk result (λ stray. stray ≡ first_stray (tree_in tree.now) [] t.now) }
{
    Ok(passed(alloc, tree, t)?.stray)
}

/// Whether the entries are a run so far of the tree: none of them strays from it.
///
/// # Errors
/// `NoMemory` where there is none for what is kept of each node.
pub fn part(alloc: Global, tree: &Tree, t: &[Entry]) -> Result<bool, NoMemory>
    ensures { IfOk result (λ yes. IsTrue yes ↔ Part (tree_in tree.now) t.now) }
{
    strays_are_found();
    tree.nodes();
    let pass = passed(alloc, tree, t)?;
    Ok(pass.stray.is_none())
}

/// Whether the entries are a whole run of the tree: a run so far that can go on nowhere.
///
/// # Errors
/// `NoMemory` where there is none for what is kept of each node.
pub fn whole(alloc: Global, tree: &Tree, t: &[Entry]) -> Result<bool, NoMemory>
    ensures { IfOk result (λ yes. IsTrue yes ↔ Whole (tree_in tree.now) t.now) }
{
    strays_are_found();
    whole_where_nothing_is_next();
    part_of_own_nodes();
    tree.nodes();
    let pass = passed(alloc, tree, t)?;
    let over = match pass.stray {
        None => pass.frames.is_empty(tree),
        Some(_) => false,
    };
    Ok(over)
}

/// The nodes where a run of the tree can go on after `t`, in order. None comes exactly where `t` is no run so far.
///
/// # Errors
/// `NoMemory` where there is none for what is kept of each node, or for the numbers.
pub fn next(alloc: Global, tree: &Tree, t: &[Entry]) -> Result<Option<NumberList>, NoMemory>
    ensures part { IfOk result (λ found. IsSome found ↔ Part (tree_in tree.now) t.now) }
    ensures next { IfOk result (λ found. IfSome found (λ numbers. numbers ≡ next (tree_in tree.now) t.now)) }
{
    strays_are_found();
    tree.nodes();
    let pass = passed(alloc, tree, t)?;
    match pass.stray {
        None => Ok(Some(going_on(alloc, tree, &pass.frames)?)),
        Some(_) => Ok(None),
    }
}
