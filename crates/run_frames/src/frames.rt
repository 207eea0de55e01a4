//! The frames of a run.

ghost use Rattle.std.specs.Prelude.{◌≡◌, ◌≢◌, ◌<◌, ◌≤◌, ◌+◌, ◌*◌, ◌∷◌, ◌++◌, [], ◌↔◌, ℕ, List, Some, true, false, IfOk, IfSome, IsTrue, find, length, option_map, slice_get, slice_index};
ghost use Rattle.std.specs.List.{list_all};
ghost use Rattle.exec_tree.specs.Exec.{has};
ghost use Rattle.exec_tree.specs.Built.{channel_in, role_in};
ghost use Rattle.exec_tree.specs.Walked.{place_from};
ghost use Rattle.exec_tree.specs.declared.limits.TheConstants.{MAX_CHANNELS};
ghost use Rattle.place_set.specs.declared.set.TheConstants.{MAX_PLACES};
ghost use Rattle.exec_tree.specs.Said.{bare_of};
ghost use Rattle.exec_tree.specs.declared.kind.Kind.TheVariants as kinds;
ghost use Rattle.trace_law.specs.Below.{tree_in};
ghost use Rattle.trace_law.specs.Of.{number_of};
ghost use Rattle.trace_law.specs.Next.{next};
ghost use Rattle.trace_law.specs.Offer.{IsOffered, offer};
ghost use Rattle.trace_law.specs.Part.{Part};
ghost use Rattle.run_log.specs.declared.entry.Entry.{Entry};
ghost use Rattle.run_log.specs.declared.entry.Entry.TheVariants.{Pick};
ghost use Rattle.frame_law.specs.ComeTo.{nesting, new_in};
ghost use Rattle.frame_law.specs.Looks.{AreNumbered};
ghost use Rattle.tree_table.specs.Placed.{number_at};
ghost use Rattle.run_frames.specs.Deeds.{IsDeed};
ghost use Rattle.run_frames.specs.Frames.{cells_of};
ghost use Rattle.run_frames.specs.Told.{room_in};
ghost use Rattle.run_frames.specs.OfferAt.{offer_at};
ghost use Rattle.run_frames.specs.Standing.{IsAt, IsPlace};
ghost use Rattle.place_classes.specs.Classes.{IsClass, class_at};
ghost use Rattle.run_frames.specs.Ready.{IsSorted, AreClasses, is_empty, is_ready, waits_by, opens, class_in, classes_when, classes_after};
ghost use Rattle.exec_tree.specs.declared.role.Role.TheVariants as role;

use crate::cells::Cells;
use crate::deed::Deed;
use crate::entering::enter_tree;
use crate::moving::move_at;
use crate::nodes::number_at;
use crate::waits::Waits;
use exec_tree::laws::places_are_found;
use exec_tree::{Kind, MAX_CHANNELS, Node, Role, Tree};
use nc_base::{NoMemory, Steps};
use place_classes::{Class, Sorted};
use run_log::Entry;
use std::alloc::Global;
use std::sync::ledger::Ledger;
use tree_table::Table;

/// Where a run stands in its tree: of each node to which it has come what that has in its present turn, and all nodes where it can go on,
/// with the table of the tree, which tells where a node leads and where the run goes on from it. What frames stand for is told by `IsAt`.
#[derive(Drop)]
pub struct Frames {
    frames: Cells,
    table: Table,
    set: Sorted,
    waits: Waits,
}

/// What the node of this kind at a place does next, with so many elements. A workplan or a parallel does nothing itself.
fn deed_at(kind: Kind, cells: &Cells, place: u32, count: u32) -> Deed
    requires no_plan { kind ≢ kinds.Plan }
    requires no_parallel { kind ≢ kinds.Par }
    requires room { slice_index cells.now.rooms place ≡ room_in kind count }
    ensures { IsDeed (offer_at kind (cells_of cells.now.cells place) count) result }
{
    match kind {
        Kind::Work => match cells.stage(place) {
            Some(k) => Deed::Cuts(k),
            None => Deed::Starts,
        },
        Kind::NonSeq => Deed::Picks {
            count,
            next: cells.next(place),
        },
        Kind::Sel => Deed::Picks { count, next: 0 },
        Kind::If | Kind::While => Deed::Tests,
        Kind::Assign => Deed::Assigns,
        Kind::Set => Deed::Sets,
        Kind::Wait => Deed::Passes,
        _ => Deed::Notes,
    }
}

/// Whether the node of this kind at a place, with so many elements, may pick the one at an index next.
fn may_pick_at(kind: Kind, cells: &Cells, place: u32, count: u32, index: u32) -> bool
    ensures { (n : ℕ) → IsTrue result ↔ IsOffered (offer_at kind (cells_of cells.now.cells place) count) n (Pick n index) }
{
    match kind {
        Kind::NonSeq => index < count && !cells.has(place, index),
        Kind::Sel => index < count,
        _ => false,
    }
}

impl Frames {
    /// The frames of a run that has no entry yet. Once the table is made, each look at a node counts one step.
    ///
    /// # Errors
    /// `NoMemory` where there is none for a frame and a row of each node.
    pub fn open<L: Ledger>(
        alloc: Global,
        tree: &Tree,
        steps: &mut Steps<L>,
    ) -> Result<Frames, NoMemory>
        ensures at { IfOk result (λ f. IsAt tree.now.nodes f []) }
        ensures sorted { IfOk result (λ f. IsSorted tree.now f [] []) }
    {
        let arena = tree.nodes();
        let table = Table::new(alloc, tree)?;
        let mut frames = Cells::new(alloc, arena)?;
        let mut set = Sorted::new(alloc, first_classes(alloc, tree)?)?;
        let waits = Waits::new(alloc, tree)?;
        enter_tree(tree, &table, &mut frames, &mut set, steps);
        Ok(Frames {
            frames,
            table,
            set,
            waits,
        })
    }

    /// What the node at a place where the run can go on does next. The caller has looked at the node.
    pub fn deed(&self, tree: &Tree, node: &Node, place: u32) -> Deed
        requires node { slice_get tree.now.nodes place ≡ Some (bare_of node.now) }
        requires at { (t : List Entry) × IsAt tree.now.nodes self.now t × IsPlace tree.now.nodes place × (has (next (tree_in tree.now) t) (number_at tree.now.nodes place) ≡ true) }
        ensures { (t : List Entry) → IsAt tree.now.nodes self.now t → has (next (tree_in tree.now) t) (number_at tree.now.nodes place) ≡ true → IsDeed (offer (tree_in tree.now) t (number_at tree.now.nodes place)) result }
    {
        tree.nodes();
        deed_at(node.kind.kind(), &self.frames, place, node.elements.len())
    }

    /// Whether the node at a place where the run can go on may pick the element at an index next: it picks, and that one is left. The caller has
    /// looked at the node.
    pub fn may_pick(&self, tree: &Tree, node: &Node, place: u32, index: u32) -> bool
        requires node { slice_get tree.now.nodes place ≡ Some (bare_of node.now) }
        requires at { (t : List Entry) × IsAt tree.now.nodes self.now t × IsPlace tree.now.nodes place × (has (next (tree_in tree.now) t) (number_at tree.now.nodes place) ≡ true) }
        ensures { (t : List Entry) → IsAt tree.now.nodes self.now t → has (next (tree_in tree.now) t) (number_at tree.now.nodes place) ≡ true → IsTrue result ↔ IsOffered (offer (tree_in tree.now) t (number_at tree.now.nodes place)) (number_at tree.now.nodes place) (Pick (number_at tree.now.nodes place) index) }
    {
        tree.nodes();
        may_pick_at(
            node.kind.kind(),
            &self.frames,
            place,
            node.elements.len(),
            index,
        )
    }

    /// Whether the run can go on at the node at a place.
    pub fn goes_on(&self, tree: &Tree, place: u32) -> bool
        requires place { IsPlace tree.now.nodes place }
        requires at { (t : List Entry) × IsAt tree.now.nodes self.now t }
        ensures { (t : List Entry) → IsAt tree.now.nodes self.now t → result ≡ has (next (tree_in tree.now) t) (number_at tree.now.nodes place) }
    {
        tree.nodes();
        places_are_found();
        self.set.contains(place)
    }

    /// Moves the frames by an entry of the node at a place, with which the run is still a run so far. It takes no memory. Each look at a node
    /// counts one step: where each element of the tree has a number, at most three more than the tree's greatest nesting and twice the number of
    /// nodes that are new by the entry.
    pub fn advance<L: Ledger>(
        &mut self,
        tree: &Tree,
        place: u32,
        entry: &Entry,
        steps: &mut Steps<L>,
    )
        requires place { IfSome (number_of entry.now) (λ n. place_from 0 tree.now.nodes n ≡ Some place) }
        requires at { (t : List Entry) × IsAt tree.now.nodes self.old t × Part (tree_in tree.now) (t ++ entry.now ∷ []) }
        ensures at { (t : List Entry) → IsAt tree.now.nodes self.old t → Part (tree_in tree.now) (t ++ entry.now ∷ []) → IsAt tree.now.nodes self.new (t ++ entry.now ∷ []) }
        ensures sorted { (t : List Entry) (released : List ℕ) → IsAt tree.now.nodes self.old t → Part (tree_in tree.now) (t ++ entry.now ∷ []) → IsSorted tree.now self.old t released → IsSorted tree.now self.new (t ++ entry.now ∷ []) released }
        ensures looks { (t : List Entry) → IsAt tree.now.nodes self.old t → Part (tree_in tree.now) (t ++ entry.now ∷ []) → AreNumbered (tree_in tree.now) → steps.new ≤ steps.old + (3 + nesting (tree_in tree.now) + 2 * length (new_in (tree_in tree.now) t entry.now)) }
    {
        tree.nodes();
        move_at(
            tree,
            &self.table,
            &mut self.frames,
            &mut self.set,
            place,
            entry,
            steps,
        );
        sort_by(&mut self.set, tree, place, entry, steps);
    }

    /// The mark at a place is set for the first time: the waits for it may go on. It looks at no node.
    pub fn release(&mut self, tree: &Tree, mark: u32)
        requires at { (t : List Entry) × (released : List ℕ) × IsAt tree.now.nodes self.old t × IsSorted tree.now self.old t released }
        requires mark { IsPlace tree.now.nodes mark }
        ensures at { (t : List Entry) → IsAt tree.now.nodes self.old t → IsAt tree.now.nodes self.new t }
        ensures sorted { (t : List Entry) (released : List ℕ) → IsAt tree.now.nodes self.old t → IsSorted tree.now self.old t released → IsSorted tree.now self.new t (released ++ number_at tree.now.nodes mark ∷ []) }
    {
        places_are_found();
        self.waits.free(&mut self.set, tree, mark);
    }

    /// The place of the first node of a channel, in the order of the tree, where the run can go on and that may go on now: a step that is open,
    /// or any of the channel where that is idle, a wait whose mark was released, any other node. It looks at two sets, however many nodes there
    /// are, and at no node.
    pub fn ready(&self, tree: &Tree, channel: u8, idle: bool) -> Option<u32>
        requires channel { channel < MAX_CHANNELS }
        requires at { (t : List Entry) × (released : List ℕ) × IsAt tree.now.nodes self.now t × IsSorted tree.now self.now t released }
        ensures node { (t : List Entry) (released : List ℕ) → IsAt tree.now.nodes self.now t → IsSorted tree.now self.now t released → option_map (number_at tree.now.nodes) result ≡ find (is_ready tree.now t released channel idle) (next (tree_in tree.now) t) }
        ensures place { IfSome result (IsPlace tree.now.nodes) }
    {
        tree.nodes();
        self.set.first_in_channel(channel, idle)
    }

    /// Whether the run can go on nowhere.
    pub fn is_empty(&self, tree: &Tree) -> bool
        requires { (t : List Entry) × IsAt tree.now.nodes self.now t }
        ensures { (t : List Entry) → IsAt tree.now.nodes self.now t → result ≡ is_empty (next (tree_in tree.now) t) }
    {
        tree.nodes();
        self.set.is_empty()
    }

    /// Whether each node where the run can go on waits for a mark that wasn't released.
    pub fn all_wait(&self, tree: &Tree) -> bool
        requires channels { (n : ℕ) → channel_in tree.now.nodes n < MAX_CHANNELS }
        requires at { (t : List Entry) × (released : List ℕ) × IsAt tree.now.nodes self.now t × IsSorted tree.now self.now t released }
        ensures { (t : List Entry) (released : List ℕ) → IsAt tree.now.nodes self.now t → IsSorted tree.now self.now t released → result ≡ list_all (λ n. waits_by (role_in tree.now n) released) (next (tree_in tree.now) t) }
    {
        tree.nodes();
        self.set.are_shut()
    }
}

/// The class of each node of a tree before any entry, by place.
fn first_classes(alloc: Global, tree: &Tree) -> Result<Vec<Class>, NoMemory>
    ensures long { IfOk result (λ classes. length classes.items ≡ length tree.now.nodes) }
    ensures each { IfOk result (λ classes. AreClasses tree.now [] [] classes.items) }
    ensures one { IfOk result (λ classes. (q : ℕ) → IsClass (class_at classes.items q)) }
{
    let arena = tree.nodes();
    let mut classes = Vec::with_capacity(alloc, arena.len())?;
    for place in 0..tree.len() {
        let number = number_at(arena, place);
        classes.push(first_class(tree.role(number), tree.channel(number)))?;
    }
    Ok(classes)
}

/// Whether a workingstep is open after this entry of it; none where the entry says nothing of that.
fn opens(entry: &Entry) -> Option<bool>
    ensures { result ≡ opens entry.now }
{
    match *entry {
        Entry::Dispatch { .. } => Some(true),
        Entry::End { .. } => Some(false),
        _ => None,
    }
}

/// Says the class of an entry's node, at a place, after the entry: a workingstep's changes where it is dispatched or ends. Only then is the
/// node looked at, which counts one step.
fn sort_by<L: Ledger>(
    set: &mut Sorted,
    tree: &Tree,
    place: u32,
    entry: &Entry,
    steps: &mut Steps<L>,
)
    requires there { place < length set.old.classes }
    requires within { place < MAX_PLACES }
    requires place { IsPlace tree.now.nodes place }
    ensures all { set.new.all ≡ set.old.all }
    ensures classes { set.new.classes ≡ classes_after tree.now entry.now (number_at tree.now.nodes place) place set.old.classes }
    ensures looks { steps.new ≤ steps.old + 1 }
{
    let Some(started) = opens(entry) else {
        return;
    };
    places_are_found();
    let node = tree.node(place, steps);
    match node.kind.kind() {
        Kind::Work => sort_step(set, node.channel, place, started),
        _ => {}
    }
}

/// Says the class of the workingstep at a place of a channel, open or not.
fn sort_step(set: &mut Sorted, channel: u8, place: u32, started: bool)
    requires there { place < length set.old.classes }
    requires within { place < MAX_PLACES }
    ensures all { set.new.all ≡ set.old.all }
    ensures classes { set.new.classes ≡ classes_when role.Cutting channel place set.old.classes started }
{
    if channel >= MAX_CHANNELS {
        return;
    }
    if started {
        set.sort(place, Class::Free(channel));
    } else {
        set.sort(place, Class::Idle(channel));
    }
}

/// The class of a node of this role and channel before any entry. No tree has more channels than there are sets for.
fn first_class(role: Role, channel: u8) -> Class
    ensures same { result ≡ class_in role channel false [] }
    ensures one { IsClass result }
{
    if channel >= MAX_CHANNELS {
        return Class::Shut;
    }
    match role {
        Role::Cutting => Class::Idle(channel),
        Role::Waiting(_) => Class::Shut,
        Role::Free => Class::Free(channel),
    }
}
