//! Going on with the entries of a list as far as they are a run so far.

ghost use Rattle.std.specs.Prelude.{◌≡◌, ◌↔◌, ◌++◌, ◌∷◌, [], List, IsTrue};
ghost use Rattle.trace_law.specs.Below.{tree_in};
ghost use Rattle.trace_law.specs.Part.{Part};
ghost use Rattle.run_log.specs.declared.entry.Entry.{Entry};
ghost use Rattle.run_frames.specs.Standing.{IsAt};
ghost use Rattle.trace_check.specs.Pass.{IsPass};

use crate::fitting::place_to_follow;
use exec_tree::Tree;
use nc_base::Steps;
use run_frames::Frames;
use run_log::Entry;
use std::sync::ledger::Ledger;
use trace_law::laws::strays_are_found;

/// Goes on with an entry, where it may follow: whether it does.
fn follow<L: Ledger>(tree: &Tree, frames: &mut Frames, entry: &Entry, steps: &mut Steps<L>) -> bool
    requires at { (t : List Entry) × IsAt tree.now.nodes frames.old t }
    ensures follows { (t : List Entry) → IsAt tree.now.nodes frames.old t → IsTrue result ↔ Part (tree_in tree.now) (t ++ entry.now ∷ []) }
    ensures on { (t : List Entry) → IsAt tree.now.nodes frames.old t → IsTrue result → IsAt tree.now.nodes frames.new (t ++ entry.now ∷ []) }
{
    let Some(place) = place_to_follow(tree, frames, entry) else {
        return false;
    };
    frames.advance(tree, place, entry, steps);
    true
}

/// Goes on with entries up to the first that strays from the tree, and gives that.
pub fn follow_all<L: Ledger>(
    tree: &Tree,
    frames: &mut Frames,
    t: &[Entry],
    steps: &mut Steps<L>,
) -> Option<Entry>
    requires at { IsAt tree.now.nodes frames.old [] }
    ensures { IsPass tree.now t.now frames.new result }
{
    strays_are_found();
    tree.nodes();
    for i in 0..t.len() {
        if !follow(tree, frames, &t[i], steps) {
            return Some(t[i]);
        }
    }
    None
}
