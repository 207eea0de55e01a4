//! The state of a run: where it stands, what is set and open, and what the variables are.

ghost use Rattle.std.specs.Prelude.{IsSome, drop, ◌↔◌, IsTrue, ◌≡◌, ◌<◌, ◌≤◌, ◌^◌, ◌++◌, ◌∷◌, [], ℕ, List, Some, IfSome, true, false, max, ◌+◌, ◌*◌, length, IfOk, OnOk, OnErr, slice_get, is_none, option_map};
ghost use Rattle.std.specs.List.{list_all};
ghost use Rattle.nc_expr.specs.Vars.{value_at};
ghost use Rattle.exec_tree.specs.Exec.{has};
ghost use Rattle.exec_tree.specs.Said.{bare_of, said_by};
ghost use Rattle.exec_tree.specs.Walked.{place_from};
ghost use Rattle.tree_table.specs.Placed.{number_at};
ghost use Rattle.frame_law.specs.ComeTo.{nesting, new_in};
ghost use Rattle.exec_tree.specs.declared.limits.TheConstants.{MAX_CHANNELS};
ghost use Rattle.trace_law.specs.Of.{number_of};
ghost use Rattle.run_law.specs.Fits.{Fits, is_plain, plain, next_of, judged, is_due, is_enabled};
ghost use Rattle.trace_law.specs.Offer.{offer, IsOffered};
ghost use Rattle.run_law.specs.Sound.{IsSound};
ghost use Rattle.run_law.specs.Endings.{waits};
ghost use Rattle.run_law.specs.Replay.{cut, made, ready};
ghost use Rattle.project_store.specs.Entities.{entity_at};
ghost use Rattle.step_def.specs.Condition.{is_workingstep};
ghost use Rattle.run_frames.specs.declared.deed.Deed.TheVariants.{Starts};
ghost use Rattle.project_law.specs.Script.{store_after};
ghost use Rattle.project_law.specs.ProjectRules.{rules_of, store_channels, store_steps, version_after};
ghost use Rattle.project_law.specs.Legal.{Legal};
ghost use Rattle.run_state.specs.State.{may_cut, mark_in, slot_at, path_in, entry_by, def_by, starts_by};
ghost use Rattle.run_state.specs.Kept.{IsDefined};
ghost use Rattle.run_state.specs.Edits.{HasVersion, version_now, reached_by};
ghost use Rattle.run_frames.specs.Standing.{IsAt, IsPlace};
ghost use Rattle.run_frames.specs.Ready.{IsSorted};
ghost use Rattle.trace_law.specs.State.{marked};
ghost use Rattle.std.specs.Option.{option_to_list};
ghost use Rattle.run_log.specs.declared.entry.Entry.{Entry};
ghost use Rattle.run_log.specs.declared.entry.Entry.TheVariants.{Pick, Edit};
ghost use Rattle.run_frames.specs.Ready.{is_empty};
ghost use Rattle.run_state.specs.Actions.{starts_next, most_looks};
ghost use Rattle.run_state.specs.Pages.{IsFirstOf};

use crate::definition::definition_in;
use crate::edits::Edits;
use crate::journal::Journal;
use crate::marks::{self, Marks, mark_of};
use crate::open_steps::OpenSteps;
use crate::variables::{self, answer_of, opening_vars, value_of};
use edit_rules::Project;
use edit_rules::laws::tree_steps_are_workingsteps;
use entity_types::Script;
use exec_tree::laws::{places_are_found, trees_are_sound, trees_tell};
use exec_tree::{MAX_CHANNELS, Node, Role, Tree};
use frame_law::looks::trees_are_numbered;
use nc_base::{NoMemory, Number, Steps, Verdict};
use nc_expr::Vars;
use path_blocks::Def;
use project_law::laws::{project_rules_are_sound, project_rules_move, stuck_project_waits};
use project_store::Store;
use run_frames::{Deed, Frames};
use run_law::laws::{legal_runs, logs_move, what_is_made_fits};
use run_log::{Entry, Log};
use std::alloc::Global;
use std::marker::{Brand, Model};
use std::sync::ledger::{Blank, Ledger};
use trace_law::laws::{
    blocks_are_counted, next_stands_in_preorder, what_can_go_on_is_open, what_is_offered_follows,
};

/// The entry that a node makes next, and of a dispatch the definition of the step.
#[derive(Drop)]
pub struct Made {
    pub entry: Entry,
    pub def: Option<Def>,
}

/// What a channel can do: the node that goes on, and whether it is a workingstep that is dispatched by it.
#[derive(Clone, Copy, Debug, PartialEq, Eq)]
pub struct Action {
    pub node: Number,
    pub starts: bool,
}

/// The state of a run that is made or followed. Contracts see the project's entities, its script, the nodes of its tree, the entries so far, those
/// of a log that are still to be followed, and how many entries there is room for.
#[derive(Drop)]
pub struct RunState {
    store: Store,
    tree: Tree,
    edits: Edits,
    journal: Journal,
    frames: Frames,
    marks: Marks,
    vars: Vars,
    steps: OpenSteps,
}

impl Model for RunState {
    ghost use Rattle.run_state.specs.Kept.{State, IsState};
    ghost use Rattle.run_state.specs.Edits.{AreKept};

    ghost Value = { State };

    ghost view = { λ a. record { project = a.store; script = a.edits.script; nodes = a.tree.nodes; list = a.journal.list; coming = a.journal.coming; room = a.journal.room } };

    ghost invariant = { λ a. IsState a.store a.edits.script a.tree a.frames a.journal.list a.marks a.vars a.steps × AreKept a.store a.journal.list a.edits };
}

/// The next block of the open step of a channel, or its end.
fn next_cut(steps: &OpenSteps, channel: u8, n: Number, k: usize) -> Entry
    ensures { result ≡ cut n k (slice_get (path_in (slot_at steps.now channel)) k) }
{
    let Some(open_step) = steps.at(channel) else {
        return Entry::End { n };
    };
    match open_step.blocks.at(k) {
        Some(b) => Entry::Block { n, k: k as u32, b },
        None => Entry::End { n },
    }
}

/// The entry of a node of this number that does this next, a dispatch at this version.
fn entry_by(
    node: &Node,
    steps: &OpenSteps,
    vars: &Vars,
    version: u32,
    n: Number,
    deed: Deed,
) -> Entry
    ensures { result ≡ entry_by node.now.channel (Some (said_by node.now)) steps.now (value_at vars.now) version n deed }
{
    match deed {
        Deed::Starts => Entry::Dispatch { n, v: version },
        Deed::Cuts(k) => next_cut(steps, node.channel, n, k),
        Deed::Assigns => Entry::Assign {
            n,
            x: value_of(node, vars),
        },
        Deed::Sets => Entry::Set { n },
        Deed::Passes => Entry::Pass { n },
        Deed::Notes => Entry::Note { n },
        Deed::Picks { count: _, next } => Entry::Pick { n, k: next },
        Deed::Tests => Entry::Test {
            n,
            yes: answer_of(node, vars),
        },
    }
}

/// Whether workingstep `n` of a channel may go on: it is the channel's open one, or there is none.
fn may_cut(steps: &OpenSteps, channel: u8, n: Number) -> bool
    ensures { result ≡ may_cut (slot_at steps.now channel) n }
{
    match steps.at(channel) {
        Some(open_step) => open_step.step == n,
        None => true,
    }
}

/// Whether the mark of a node of this number is set.
fn is_set(marks: &Marks, tree: &Tree, mark: Number) -> bool
    ensures { result ≡ mark_in tree.now.nodes marks.now mark }
{
    match tree.place_of(mark) {
        Some(place) => marks.is_set(place),
        None => false,
    }
}

/// The definition of a step that starts, in the store as it is now.
fn def_by(store: &Store, n: Number, deed: Deed) -> Option<Def>
    requires { deed ≡ Starts → is_workingstep (entity_at store.now) n ≡ true }
    ensures { result ≡ def_by store.now n deed }
{
    match deed {
        Deed::Starts => definition_in(store, n),
        _ => None,
    }
}

/// The version of a step that starts.
fn version_by(edits: &Edits, n: Number, deed: Deed) -> u32
    requires { deed ≡ Starts → HasVersion edits.now.editing n }
    ensures { deed ≡ Starts → result ≡ version_now edits.now.editing n }
{
    match deed {
        Deed::Starts => edits.version(n),
        _ => 0,
    }
}

/// Whether a node that does this next is dispatched by it.
fn is_start(deed: Deed) -> bool
    ensures { result ≡ starts_by deed }
{
    match deed {
        Deed::Starts => true,
        _ => false,
    }
}

/// The node at a place.
fn node_at(tree: &Tree, place: u32) -> &Node
    requires { place < length tree.now.nodes }
    ensures { slice_get tree.now.nodes place ≡ Some (bare_of result.now) }
{
    &tree.nodes()[place as usize]
}

/// The number of the node that stands at a place, 0 where it has none.
fn number_in(tree: &Tree, node: &Node, place: u32) -> Number
    requires { slice_get tree.now.nodes place ≡ Some (bare_of node.now) }
    ensures { result ≡ number_at tree.now.nodes place }
{
    node.number.unwrap_or(0)
}

/// Releases the mark that an entry of the node at a place sets, where it wasn't set: the waits for it may go on. Each wait is released once
/// in a run.
fn release_by(frames: &mut Frames, tree: &Tree, marks: &Marks, place: u32, entry: &Entry)
    requires at { (t : List Entry) × (released : List ℕ) × IsAt tree.now.nodes frames.old t × IsSorted tree.now frames.old t released }
    requires place { IfSome (marked entry.now) (λ n. place_from 0 tree.now.nodes n ≡ Some place) }
    ensures at { (t : List Entry) → IsAt tree.now.nodes frames.old t → IsAt tree.now.nodes frames.new t }
    ensures sorted { (t : List Entry) (released : List ℕ) → IsAt tree.now.nodes frames.old t → IsSorted tree.now frames.old t released → ((n : ℕ) → mark_in tree.now.nodes marks.now n ≡ has released n) → IsSorted tree.now frames.new t (released ++ option_to_list (marked entry.now)) }
{
    places_are_found();
    let Some(_) = mark_of(entry) else {
        return;
    };
    if !marks.is_set(place) {
        frames.release(tree, place);
    }
}

/// The frames of a run that has no entry yet. Their looks are counted by a counter of their own.
fn open_frames<L: Ledger>(alloc: Global, tree: &Tree, blank: Blank) -> Result<Frames, NoMemory>
    requires name { blank.name ≡ L.name }
    requires parts { blank.parts ≡ L.parts }
    requires one { blank.parts ≡ 1 }
    ensures at { IfOk result (λ f. IsAt tree.now.nodes f []) }
    ensures sorted { IfOk result (λ f. IsSorted tree.now f [] []) }
{
    let (book, share) = blank.open::<L>();
    let mut counter = Steps::new(book, share);
    Frames::open(alloc, tree, &mut counter)
}

/// The state of a run of a project and a script before its first entry, with these entries to come.
fn open_with(
    alloc: Global,
    project: Project,
    script: Script,
    journal: Journal,
) -> Result<RunState, NoMemory>
    requires { journal.list ≡ [] }
    ensures project { IfOk result (λ state. state.project ≡ project) }
    ensures script { IfOk result (λ state. state.script ≡ script) }
    ensures list { IfOk result (λ state. state.list ≡ []) }
    ensures coming { IfOk result (λ state. state.coming ≡ journal.coming) }
    ensures room { IfOk result (λ state. state.room ≡ journal.room) }
{
    legal_runs();
    trees_tell();
    trees_are_sound();
    project.sound();
    tree_steps_are_workingsteps();
    let (store, tree) = project.parts();
    let edits = Edits::open(alloc, &store, tree.steps(), script)?;
    let frames = open_frames::<Brand>(alloc, &tree, Blank::new(1))?;
    let marks = Marks::new(alloc, tree.len())?;
    let vars = opening_vars(alloc, &store, &tree)?;
    let steps = OpenSteps::new(alloc)?;
    Ok(RunState {
        store,
        tree,
        edits,
        journal,
        frames,
        marks,
        vars,
        steps,
    })
}

impl RunState {
    /// The state of a run of a project and a script before its first entry, with room for so many.
    ///
    /// # Errors
    /// `NoMemory` where there is none for the entries and for what is kept of each node.
    pub fn open(
        alloc: Global,
        project: Project,
        script: Script,
        limit: u32,
    ) -> Result<RunState, NoMemory>
        ensures project { IfOk result (λ state. state.project ≡ project) }
        ensures script { IfOk result (λ state. state.script ≡ script) }
        ensures list { IfOk result (λ state. state.list ≡ []) }
        ensures coming { IfOk result (λ state. state.coming ≡ []) }
        ensures room { IfOk result (λ state. limit ≤ state.room) }
    {
        let journal = Journal::with_room(alloc, limit)?;
        open_with(alloc, project, script, journal)
    }

    /// The state of a run of a project and a script before the first entry of a log that it is to follow.
    ///
    /// # Errors
    /// `NoMemory` where there is none for what is kept of each node.
    pub fn before(
        alloc: Global,
        project: Project,
        script: Script,
        log: Log,
    ) -> Result<RunState, NoMemory>
        ensures project { IfOk result (λ state. state.project ≡ project) }
        ensures script { IfOk result (λ state. state.script ≡ script) }
        ensures list { IfOk result (λ state. state.list ≡ []) }
        ensures coming { IfOk result (λ state. state.coming ≡ log) }
    {
        open_with(alloc, project, script, Journal::of(log))
    }

    /// The rules of the project and the script are sound, and the entries so far are a legal run.
    pub fn legal(&self)
        ensures sound { IsSound (rules_of self.now.project self.now.script) }
        ensures legal { Legal self.now.project self.now.script self.now.list }
    {
        project_rules_are_sound();
        let _ = &self.frames;
    }

    /// The place of the first enabled node of a channel.
    pub fn ready(&self, channel: u8) -> Option<u32>
        ensures node { option_map (number_at self.now.nodes) result ≡ ready (rules_of self.now.project self.now.script) self.now.list channel }
        ensures place { IfSome result (IsPlace self.now.nodes) }
    {
        trees_tell();
        next_stands_in_preorder();
        trees_are_sound();
        logs_move();
        self.tree.channel_table();
        if channel >= MAX_CHANNELS {
            return None;
        }
        let idle = self.steps.is_idle(channel);
        self.frames.ready(&self.tree, channel, idle)
    }

    /// Whether the run can go on nowhere.
    pub fn is_over(&self) -> bool
        ensures { result ≡ is_empty (next_of (rules_of self.now.project self.now.script) self.now.list) }
    {
        self.frames.is_empty(&self.tree)
    }

    /// Whether each node where the run can go on waits for a mark that isn't set.
    pub fn all_wait(&self) -> bool
        ensures { result ≡ list_all (waits (rules_of self.now.project self.now.script) self.now.list) (next_of (rules_of self.now.project self.now.script) self.now.list) }
    {
        trees_tell();
        next_stands_in_preorder();
        trees_are_sound();
        self.tree.channel_table();
        self.frames.all_wait(&self.tree)
    }

    /// Whether each edit is judged.
    pub fn are_judged(&self) -> bool
        ensures { result ≡ is_none (slice_get (rules_of self.now.project self.now.script).edits (judged self.now.list)) }
    {
        self.edits.are_judged()
    }

    /// Whether the next edit is due, where the run waits at each node where it can go on, or not.
    pub fn is_due(&self, waiting: bool) -> bool
        requires { waiting ≡ list_all (waits (rules_of self.now.project self.now.script) self.now.list) (next_of (rules_of self.now.project self.now.script) self.now.list) }
        ensures { result ≡ is_due (rules_of self.now.project self.now.script) self.now.list }
    {
        stuck_project_waits();
        self.edits.are_due(self.journal.len(), waiting)
    }

    /// What the node at a place, where the run can go on, does next: its number, and whether it is dispatched.
    pub fn action(&self, place: u32) -> Action
        requires place { IsPlace self.now.nodes place }
        requires next { has (next_of (rules_of self.now.project self.now.script) self.now.list) (number_at self.now.nodes place) ≡ true }
        ensures node { result.node ≡ number_at self.now.nodes place }
        ensures starts { result.starts ≡ starts_next (rules_of self.now.project self.now.script) self.now.list (number_at self.now.nodes place) }
    {
        places_are_found();
        let at = node_at(&self.tree, place);
        Action {
            node: number_in(&self.tree, at, place),
            starts: is_start(self.frames.deed(&self.tree, at, place)),
        }
    }

    /// The place of node `n` where the run can go on there. None comes exactly where it can't.
    pub fn next_place(&self, n: Number) -> Option<u32>
        ensures next { IsSome result ↔ (has (next_of (rules_of self.now.project self.now.script) self.now.list) n ≡ true) }
        ensures found { IfSome result (λ p. place_from 0 self.now.nodes n ≡ Some p) }
        ensures number { IfSome result (λ p. number_at self.now.nodes p ≡ n) }
        ensures place { IfSome result (IsPlace self.now.nodes) }
    {
        places_are_found();
        next_stands_in_preorder();
        self.tree.nodes();
        let Some(place) = self.tree.place_of(n) else {
            return None;
        };
        if self.frames.goes_on(&self.tree, place) {
            Some(place)
        } else {
            None
        }
    }

    /// Whether node `n`, where the run can go on, is enabled: a wait where its mark is set, a workingstep where it is open or its channel has no
    /// open step, any other node.
    pub fn is_enabled(&self, n: Number) -> bool
        requires { has (next_of (rules_of self.now.project self.now.script) self.now.list) n ≡ true }
        ensures { result ≡ is_enabled (rules_of self.now.project self.now.script) self.now.list n }
    {
        trees_tell();
        next_stands_in_preorder();
        trees_are_sound();
        match self.tree.role(n) {
            Role::Cutting => may_cut(&self.steps, self.tree.channel(n), n),
            Role::Waiting(mark) => is_set(&self.marks, &self.tree, mark),
            Role::Free => true,
        }
    }

    /// Whether the node at a place, where the run can go on, may pick the element at an index.
    pub fn may_pick(&self, place: u32, k: u32) -> bool
        requires place { IsPlace self.now.nodes place }
        requires next { has (next_of (rules_of self.now.project self.now.script) self.now.list) (number_at self.now.nodes place) ≡ true }
        ensures { IsTrue result ↔ IsOffered (offer ((rules_of self.now.project self.now.script).tree self.now.list) (plain self.now.list) (number_at self.now.nodes place)) (number_at self.now.nodes place) (Pick (number_at self.now.nodes place) k) }
    {
        places_are_found();
        self.frames
            .may_pick(&self.tree, node_at(&self.tree, place), place, k)
    }

    /// How many edits are judged.
    pub fn judged(&self) -> u32
        ensures { result ≡ judged self.now.list }
    {
        self.edits.judged
    }

    /// How many channels the tree has, at least one.
    pub fn channels(&self) -> u8
        ensures { result ≡ max 1 (length (store_channels self.now.project)) }
    {
        self.tree.channels()
    }

    /// The version of a workingstep of the tree.
    pub fn version(&self, step: Number) -> u32
        requires { has (store_steps self.now.project) step ≡ true }
        ensures { result ≡ version_after self.now.script self.now.project self.now.list step }
    {
        self.edits.version(step)
    }

    /// The entries so far.
    pub fn log(&self) -> &[Entry]
        ensures { result.now ≡ self.now.list }
    {
        self.journal.entries()
    }

    /// The next entry of the log that is followed. None comes exactly where there is no more.
    pub fn coming(&self) -> Option<Entry>
        ensures { result ≡ slice_get self.now.coming 0 }
    {
        self.journal.coming()
    }

    /// How many entries there are so far.
    pub fn len(&self) -> usize
        ensures { result ≡ length self.now.list }
    {
        self.journal.len()
    }

    /// What the node at a place, where the run can go on, makes next. The look at the node counts one step.
    pub fn made<L: Ledger>(&self, place: u32, steps: &mut Steps<L>) -> Made
        requires place { IsPlace self.now.nodes place }
        requires next { has (next_of (rules_of self.now.project self.now.script) self.now.list) (number_at self.now.nodes place) ≡ true }
        ensures entry { result.entry ≡ made (rules_of self.now.project self.now.script) self.now.list (number_at self.now.nodes place) }
        ensures defined { IsDefined (store_after self.now.script self.now.project self.now.list) result.entry result.def }
        ensures looks { steps.new ≡ steps.old + 1 }
    {
        places_are_found();
        trees_tell();
        trees_are_sound();
        next_stands_in_preorder();
        blocks_are_counted();
        what_can_go_on_is_open();
        project_rules_are_sound();
        legal_runs();
        logs_move();
        let node = self.tree.node(place, steps);
        let n = number_in(&self.tree, node, place);
        let deed = self.frames.deed(&self.tree, node, place);
        let def = def_by(self.edits.store(&self.store), n, deed);
        let version = version_by(&self.edits, n, deed);
        let entry = entry_by(node, &self.steps, &self.vars, version, n, deed);
        Made { entry, def }
    }

    /// Goes on with an entry that fits, of the node at a place. Each look at a node counts one step.
    pub fn follow<L: Ledger>(
        &mut self,
        place: u32,
        entry: Entry,
        def: Option<Def>,
        steps: &mut Steps<L>,
    )
        requires next { IsFirstOf self.old.coming self.old.list self.old.room entry }
        requires place { IfSome (number_of entry) (λ n. place_from 0 self.old.nodes n ≡ Some place) }
        requires node { is_plain entry ≡ true }
        requires fits { Fits (rules_of self.old.project self.old.script) self.old.list entry }
        requires defined { IsDefined (store_after self.old.script self.old.project self.old.list) entry def }
        ensures list { self.new ≡ record self.old { list = self.old.list ++ entry ∷ []; coming = drop 1 self.old.coming } }
        ensures looks { steps.new ≤ steps.old + (4 + nesting ((rules_of self.old.project self.old.script).tree self.old.list) + 2 * length (new_in ((rules_of self.old.project self.old.script).tree self.old.list) (plain self.old.list) entry)) }
    {
        trees_are_numbered();
        trees_tell();
        trees_are_sound();
        next_stands_in_preorder();
        project_rules_are_sound();
        project_rules_move();
        legal_runs();
        logs_move();
        blocks_are_counted();
        what_is_offered_follows();
        places_are_found();
        self.tree.channel_table();
        let node = self.tree.node(place, steps);
        self.steps.follow(node.channel, &entry, def);
        self.edits.follow(&entry);
        release_by(&mut self.frames, &self.tree, &self.marks, place, &entry);
        marks::follow(&mut self.marks, &self.tree, place, &entry);
        variables::follow(&mut self.vars, &self.tree, node, &entry);
        self.frames.advance(&self.tree, place, &entry, steps);
        self.journal.take(entry);
    }

    /// Appends the entry of the first enabled node of a channel where no edit is due; none where no node is. Each look at a node counts one
    /// step.
    pub fn go_on<L: Ledger>(&mut self, channel: u8, steps: &mut Steps<L>) -> Option<Entry>
        requires room { length self.old.list < self.old.room }
        requires alone { self.old.coming ≡ [] }
        requires due { is_due (rules_of self.old.project self.old.script) self.old.list ≡ false }
        ensures entry { result ≡ option_map (made (rules_of self.old.project self.old.script) self.old.list) (ready (rules_of self.old.project self.old.script) self.old.list channel) }
        ensures list { self.new ≡ record self.old { list = self.old.list ++ option_to_list result } }
        ensures looks { IfSome result (λ x. steps.new ≤ steps.old + most_looks (rules_of self.old.project self.old.script) self.old.list x) }
    {
        let Some(place) = self.ready(channel) else {
            return None;
        };
        self.legal();
        legal_runs();
        what_is_made_fits();
        let it = self.made(place, steps);
        let entry = it.entry;
        self.follow(place, entry, it.def, steps);
        Some(entry)
    }

    /// The entries, which are fewer than 2^32.
    pub fn into_log(self) -> Log
        requires short { length self.list < 2 ^ 32 }
        requires whole { self.coming ≡ [] }
        ensures { result ≡ self.list }
    {
        self.journal.into_log()
    }

    /// The verdict on the next edit, which is due. It changes nothing.
    pub fn judge<L: Ledger>(&self, alloc: Global, steps: &mut Steps<L>) -> Result<Verdict, NoMemory>
        requires due { is_due (rules_of self.now.project self.now.script) self.now.list ≡ true }
        ensures verdict { IfOk result (λ verdict. verdict ≡ (rules_of self.now.project self.now.script).verdict self.now.list (judged self.now.list)) }
        ensures ticks { steps.new ≤ steps.old + reached_by self.now.project self.now.script self.now.list (judged self.now.list) }
    {
        trees_tell();
        self.edits.judge(alloc, &self.tree, steps)
    }

    /// Goes on with the verdict on the next edit, which is due, and puts the edit where it is accepted.
    ///
    /// # Errors
    /// `NoMemory` where there is none for the edit; all is then as it was.
    pub fn settle(&mut self, alloc: Global, verdict: Verdict) -> Result<(), NoMemory>
        requires next { IsFirstOf self.old.coming self.old.list self.old.room (Edit (judged self.old.list) verdict) }
        requires due { is_due (rules_of self.old.project self.old.script) self.old.list ≡ true }
        requires verdict { verdict ≡ (rules_of self.old.project self.old.script).verdict self.old.list (judged self.old.list) }
        ensures ok { OnOk result (self.new ≡ record self.old { list = self.old.list ++ Edit (judged self.old.list) verdict ∷ []; coming = drop 1 self.old.coming }) }
        ensures err { OnErr result (self.new ≡ self.old) }
    {
        project_rules_move();
        legal_runs();
        logs_move();
        let i = self.edits.judged;
        self.edits.settle(alloc, verdict)?;
        self.journal.take(Entry::Edit { i, verdict });
        Ok(())
    }
}
