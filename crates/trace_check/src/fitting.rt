//! Whether an entry may follow a run so far, by what its own node does next.

ghost use Rattle.std.specs.Prelude.{◌≡◌, ◌<◌, ◌↔◌, ◌++◌, ◌∷◌, [], List, Some, true, length, slice_get, IsSome, IfSome, IsTrue};
ghost use Rattle.exec_tree.specs.Exec.{has};
ghost use Rattle.exec_tree.specs.Said.{bare_of};
ghost use Rattle.exec_tree.specs.Walked.{place_from};
ghost use Rattle.tree_table.specs.Placed.{number_at};
ghost use Rattle.trace_law.specs.Below.{tree_in};
ghost use Rattle.trace_law.specs.Next.{next};
ghost use Rattle.trace_law.specs.Of.{number_of};
ghost use Rattle.trace_law.specs.Offer.{IsOffered, offer};
ghost use Rattle.trace_law.specs.Part.{Part};
ghost use Rattle.run_log.specs.declared.entry.Entry.{Entry};
ghost use Rattle.run_frames.specs.Standing.{IsAt, IsPlace};
ghost use Rattle.run_frames.specs.declared.deed.Deed.TheVariants.{Cuts};
ghost use Rattle.trace_check.specs.Does.{does};

use crate::entries::number_of;
use exec_tree::laws::places_are_found;
use exec_tree::{Node, Tree};
use nc_base::Number;
use run_frames::{Deed, Frames};
use run_log::Entry;
use trace_law::laws::{next_stands_in_preorder, part_by_next, what_is_offered_follows};

/// Whether an entry of a workingstep with so many blocks cuts its next block, or ends it.
fn cuts(k: usize, entry: &Entry) -> bool
    ensures { result ≡ does (Cuts k) entry.now }
{
    match *entry {
        Entry::Block { k: j, .. } => j as usize == k,
        Entry::End { .. } => true,
        _ => false,
    }
}

/// Whether an entry of a node, no pick, is one of what the node does next.
fn does(deed: Deed, entry: &Entry) -> bool
    ensures { result ≡ does deed entry.now }
{
    match deed {
        Deed::Starts => matches!(*entry, Entry::Dispatch { .. }),
        Deed::Cuts(k) => cuts(k, entry),
        Deed::Assigns => matches!(*entry, Entry::Assign { .. }),
        Deed::Sets => matches!(*entry, Entry::Set { .. }),
        Deed::Passes => matches!(*entry, Entry::Pass { .. }),
        Deed::Notes => matches!(*entry, Entry::Note { .. }),
        Deed::Picks { .. } => false,
        Deed::Tests => matches!(*entry, Entry::Test { .. }),
    }
}

/// The node at a place.
pub fn node_at(tree: &Tree, place: u32) -> &Node
    requires { place < length tree.now.nodes }
    ensures { slice_get tree.now.nodes place ≡ Some (bare_of result.now) }
{
    &tree.nodes()[place as usize]
}

/// The place of node `n` where the run can go on there. None comes exactly where it can't.
fn next_place(tree: &Tree, frames: &Frames, n: Number) -> Option<u32>
    requires at { (t : List Entry) × IsAt tree.now.nodes frames.now t }
    ensures next { (t : List Entry) → IsAt tree.now.nodes frames.now t → IsSome result ↔ (has (next (tree_in tree.now) t) n ≡ true) }
    ensures found { IfSome result (λ p. place_from 0 tree.now.nodes n ≡ Some p) }
{
    places_are_found();
    next_stands_in_preorder();
    tree.nodes();
    let Some(place) = tree.place_of(n) else {
        return None;
    };
    if frames.goes_on(tree, place) {
        Some(place)
    } else {
        None
    }
}

/// Whether an entry of the node at a place, where the run can go on, is one of what the node does next.
fn is_offered(tree: &Tree, frames: &Frames, place: u32, entry: &Entry) -> bool
    requires at { (t : List Entry) × IsAt tree.now.nodes frames.now t × IsPlace tree.now.nodes place × (has (next (tree_in tree.now) t) (number_at tree.now.nodes place) ≡ true) }
    requires of { number_of entry.now ≡ Some (number_at tree.now.nodes place) }
    ensures { (t : List Entry) → IsAt tree.now.nodes frames.now t → has (next (tree_in tree.now) t) (number_at tree.now.nodes place) ≡ true → IsTrue result ↔ IsOffered (offer (tree_in tree.now) t (number_at tree.now.nodes place)) (number_at tree.now.nodes place) entry.now }
{
    places_are_found();
    let node = node_at(tree, place);
    match *entry {
        Entry::Pick { k, .. } => frames.may_pick(tree, node, place, k),
        _ => does(frames.deed(tree, node, place), entry),
    }
}

/// The place of an entry's node, where the entry may follow the entries for which the frames stand: with it they are a run so far still. None
/// comes exactly where it may not.
pub fn place_to_follow(tree: &Tree, frames: &Frames, entry: &Entry) -> Option<u32>
    requires at { (t : List Entry) × IsAt tree.now.nodes frames.now t }
    ensures follows { (t : List Entry) → IsAt tree.now.nodes frames.now t → IsSome result ↔ Part (tree_in tree.now) (t ++ entry.now ∷ []) }
    ensures place { IfSome result (λ p. IfSome (number_of entry.now) (λ n. place_from 0 tree.now.nodes n ≡ Some p)) }
{
    places_are_found();
    part_by_next();
    what_is_offered_follows();
    tree.nodes();
    let Some(n) = number_of(entry) else {
        return None;
    };
    let Some(place) = next_place(tree, frames, n) else {
        return None;
    };
    if is_offered(tree, frames, place, entry) {
        Some(place)
    } else {
        None
    }
}
