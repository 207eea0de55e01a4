//! Which marks are set.

ghost use Rattle.std.specs.Prelude.{◌≡◌, ◌==◌, ◌<◌, ◌||◌, ℕ, Some, IfSome, false, length, IfOk};
ghost use Rattle.trace_law.specs.State.{marked};
ghost use Rattle.exec_tree.specs.Walked.{place_from};
ghost use Rattle.run_state.specs.State.{flag_at, flag_after};

use exec_tree::Tree;
use exec_tree::laws::places_are_found;
use nc_base::{NoMemory, Number};
use run_log::Entry;
use std::alloc::Global;
use std::marker::Model;

/// A flag for each node of a tree, by place: whether its mark is set.
#[derive(Drop)]
pub struct Marks {
    flags: Vec<bool>,
}

impl Model for Marks {
    ghost use Rattle.std.specs.Prelude.{List, Bool};

    ghost Value = { List Bool };

    ghost view = { λ m. m.flags.items };
}

impl Marks {
    /// No mark is set of so many nodes.
    pub fn new(alloc: Global, nodes: u32) -> Result<Marks, NoMemory>
        ensures count { IfOk result (λ marks. length marks ≡ nodes) }
        ensures none { IfOk result (λ marks. (place : ℕ) → flag_at marks place ≡ false) }
    {
        Ok(Marks {
            flags: Vec::from_elem(alloc, false, nodes as usize)?,
        })
    }

    /// Whether the mark at a place is set.
    pub fn is_set(&self, place: u32) -> bool
        ensures { result ≡ flag_at self.now place }
    {
        match self.flags.get(place as usize) {
            Some(flag) => *flag,
            None => false,
        }
    }

    /// Sets the mark at a place.
    pub fn set(&mut self, place: u32)
        requires { place < length self.old }
        ensures count { length self.new ≡ length self.old }
        ensures flags { (q : ℕ) → flag_at self.new q ≡ (place == q || flag_at self.old q) }
    {
        self.flags[place as usize] = true;
    }
}

/// The mark that an entry sets.
pub fn mark_of(entry: &Entry) -> Option<Number>
    ensures { result ≡ marked entry.now }
{
    match *entry {
        Entry::Set { n } => Some(n),
        _ => None,
    }
}

/// Goes on with an entry of the node at a place.
pub fn follow(marks: &mut Marks, tree: &Tree, place: u32, entry: &Entry)
    requires long { length marks.old ≡ length tree.now.nodes }
    requires place { IfSome (marked entry.now) (λ n. place_from 0 tree.now.nodes n ≡ Some place) }
    ensures count { length marks.new ≡ length marks.old }
    ensures flags { (q : ℕ) → flag_at marks.new q ≡ flag_after tree.now.nodes (marked entry.now) (flag_at marks.old q) q }
{
    places_are_found();
    if mark_of(entry).is_some() {
        marks.set(place);
    }
}
