//! The waits of a tree for each mark.

ghost use Rattle.std.specs.Prelude.{◌≡◌, ◌<◌, ◌≤◌, ℕ, None, length, slice_set, IfOk};
ghost use Rattle.place_set.specs.declared.set.TheConstants.{MAX_PLACES};
ghost use Rattle.place_classes.specs.Classes.{class_at};
ghost use Rattle.run_frames.specs.Waits.{mark_at, class_freed, link_to, link_at, AreLinked, AreFreed};

use crate::nodes::number_at;
use exec_tree::{MAX_CHANNELS, Role, Tree};
use nc_base::NoMemory;
use place_classes::{Class, Sorted};
use std::alloc::Global;

/// The place of a wait, and the number of its channel.
#[derive(Clone, Copy)]
pub struct Link {
    pub place: u32,
    pub channel: u8,
}

/// The first wait for the mark at each place, and of each wait the next for the same mark, by place. So the waits for a mark are found without
/// a look at any node.
#[derive(Drop)]
pub struct Waits {
    first: Vec<Option<Link>>,
    later: Vec<Option<Link>>,
}

/// The place of the mark for which the node at a place waits.
fn mark_at(tree: &Tree, place: u32) -> Option<u32>
    ensures { result ≡ mark_at tree.now place }
{
    match tree.role(number_at(tree.nodes(), place)) {
        Role::Waiting(mark) => tree.place_of(mark),
        _ => None,
    }
}

/// The link to the wait at a place.
fn link_to(tree: &Tree, place: u32) -> Link
    ensures { result ≡ link_to tree.now.nodes place }
{
    Link {
        place,
        channel: tree.channel(number_at(tree.nodes(), place)),
    }
}

/// Links each wait with the next for its mark, from the last place to the first.
fn link_all(tree: &Tree, first: &mut [Option<Link>], later: &mut [Option<Link>])
    requires first { length first.old ≡ length tree.now.nodes }
    requires later { length later.old ≡ length tree.now.nodes }
    requires none { (p : ℕ) → link_at first.old p ≡ None }
    ensures { AreLinked tree.now first.new later.new }
{
    for k in (0..tree.len()).rev() {
        if let Some(mark) = mark_at(tree, k) {
            later[k as usize] = first[mark as usize];
            first[mark as usize] = Some(link_to(tree, k));
        }
    }
}

/// The wait at a place is free.
fn free_wait(set: &mut Sorted, wait: Link)
    requires there { wait.place < length set.old.classes }
    requires within { wait.place < MAX_PLACES }
    ensures all { set.new.all ≡ set.old.all }
    ensures classes { set.new.classes ≡ slice_set set.old.classes wait.place (class_freed wait.channel (class_at set.old.classes wait.place)) }
{
    if wait.channel < MAX_CHANNELS {
        set.sort(wait.place, Class::Free(wait.channel));
    }
}

impl Waits {
    /// The waits of a tree.
    ///
    /// # Errors
    /// `NoMemory` where there is none for two links of each node.
    pub fn new(alloc: Global, tree: &Tree) -> Result<Waits, NoMemory>
        ensures { IfOk result (λ waits. AreLinked tree.now waits.first.items waits.later.items) }
    {
        let count = tree.nodes().len();
        let mut first = Vec::from_elem(alloc, None, count)?;
        let mut later = Vec::from_elem(alloc, None, count)?;
        link_all(tree, first.as_mut_slice(), later.as_mut_slice());
        Ok(Waits { first, later })
    }

    /// Frees the waits for the mark at a place. It looks at no node: a link says its wait's channel.
    pub fn free(&self, set: &mut Sorted, tree: &Tree, mark: u32)
        requires linked { AreLinked tree.now self.now.first.items self.now.later.items }
        requires there { mark < length tree.now.nodes }
        requires long { length set.old.classes ≡ length tree.now.nodes }
        requires few { length tree.now.nodes ≤ MAX_PLACES }
        ensures all { set.new.all ≡ set.old.all }
        ensures freed { AreFreed tree.now mark set.old.classes set.new.classes }
    {
        let mut at = link_at(self.first.as_slice(), mark);
        while let Some(wait) = at {
            free_wait(set, wait);
            at = link_at(self.later.as_slice(), wait.place);
        }
    }
}

/// The wait that a place links to.
fn link_at(links: &[Option<Link>], place: u32) -> Option<Link>
    ensures { result ≡ link_at links.now place }
{
    match links.get(place as usize) {
        Some(link) => *link,
        None => None,
    }
}
