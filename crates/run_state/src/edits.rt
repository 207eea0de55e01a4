//! The edits of a run's script, and what they did so far.

ghost use Rattle.std.specs.Prelude.{◌≡◌, ◌<◌, ◌≤◌, ◌+◌, ◌^◌, ◌++◌, ◌∷◌, [], ℕ, true, false, List, slice_get, is_none, None, IsSome, IfSome, IfOk, OnOk, OnErr, IsTrue, Contains};
ghost use Rattle.std.specs.List.{list_all};
ghost use Rattle.entity_types.specs.declared.entity.Entity.{Entity as EntitySeen};
ghost use Rattle.run_log.specs.declared.entry.Entry.{Entry as EntrySeen};
ghost use Rattle.run_log.specs.declared.entry.Entry.TheVariants as entries;
ghost use Rattle.project_store.specs.Entities.{entity_at};
ghost use Rattle.step_def.specs.Condition.{is_workingstep};
ghost use Rattle.exec_tree.specs.Built.{steps_in};
ghost use Rattle.project_store.specs.Putting.{CanPut};
ghost use Rattle.project_versions.specs.Versioned.{version_of, new_instances};
ghost use Rattle.project_versions.specs.StepSet.{Adds};
ghost use Rattle.run_law.specs.Fits.{is_plain, judged};
ghost use Rattle.edit_rules.specs.Faults.{has_def};
ghost use Rattle.project_law.specs.ProjectRules.{store_steps, verdict_after};
ghost use Rattle.nc_base.specs.declared.verdict.Verdict.TheVariants.{Accepted};
ghost use Rattle.run_state.specs.Edits.{now_store, version_now, HasVersion, due_by, items_in, reached_by, IsOpening, IsPut, PutsNext, AreKept};

use edit_rules::judge;
use edit_rules::laws::accepted_edits_keep_a_project;
use entity_types::{Edit, Script};
use exec_tree::Tree;
use nc_base::{NoMemory, Number, Steps, Verdict};
use project_law::laws::project_rules_move;
use project_store::Store;
use project_versions::{StepSet, Versions};
use run_law::laws::logs_move;
use run_log::Entry;
use std::alloc::Global;
use std::sync::ledger::Ledger;

/// What the edits did in a run that has a script: the store as they left it with the versions of the workingsteps, and which of these were
/// dispatched.
#[derive(Drop)]
pub struct Editing {
    pub versions: Versions,
    pub sent: StepSet,
}

/// The edits of a script, how many of them are judged, and what they did. A run without edits keeps nothing for them.
#[derive(Drop)]
pub struct Edits {
    pub script: Script,
    pub judged: u32,
    pub editing: Option<Editing>,
}

/// How many items these edits put, where there may be room for so many.
fn items_in(edits: &[Edit]) -> Option<u32>
    ensures { IfSome result (λ count. count ≡ items_in edits.now) }
{
    let mut count: u32 = 0;
    for edit in edits {
        count = count.checked_add(edit.items.len())?;
    }
    Some(count)
}

/// What is kept for a script before the first entry, and nothing for none.
fn editing_of(
    alloc: Global,
    store: &Store,
    steps: &[Number],
    script: &Script,
) -> Result<Option<Editing>, NoMemory>
    ensures none { IfOk result (λ editing. editing ≡ None → script.now ≡ []) }
    ensures some { IfOk result (λ editing. IfSome editing (λ e. IsOpening store.now steps.now script.now e)) }
{
    if script.is_empty() {
        return Ok(None);
    }
    let Some(more) = items_in(script.as_slice()) else {
        return Err(NoMemory);
    };
    let versions = Versions::new(alloc, store.copy(alloc)?, steps, more)?;
    let sent = StepSet::new(alloc, steps)?;
    Ok(Some(Editing { versions, sent }))
}

/// What is kept with one more step dispatched.
fn with_step(editing: Editing, step: Number) -> Editing
    requires { Contains editing.sent.steps step }
    ensures versions { result.versions ≡ editing.versions }
    ensures sent { Adds editing.sent result.sent step }
{
    let mut editing = editing;
    editing.sent.add(step);
    editing
}

/// What is kept with an edit put, and whether memory sufficed: where it didn't all is as it was.
fn with_edit(editing: Editing, alloc: Global, edit: Edit) -> (Editing, bool)
    requires items { CanPut editing.versions.store edit.items }
    requires room { new_instances editing.versions.store edit.items ≤ editing.versions.spare }
    requires versions { (n : ℕ) → Contains editing.versions.steps n → version_of editing.versions.versions n + 1 < 2 ^ 32 }
    ensures put { IsTrue result.1 → IsPut edit editing result.0 }
    ensures kept { result.1 ≡ false → result.0 ≡ editing }
{
    let mut editing = editing;
    let is_put = editing.versions.put(alloc, edit).is_ok();
    (editing, is_put)
}

impl Edits {
    /// Before the first entry: no edit is judged.
    pub fn open(
        alloc: Global,
        store: &Store,
        steps: &[Number],
        script: Script,
    ) -> Result<Edits, NoMemory>
        requires steps { steps.now ≡ store_steps store.now }
        requires defined { list_all (has_def store.now) (store_steps store.now) ≡ true }
        requires workingsteps { list_all (is_workingstep (entity_at store.now)) (store_steps store.now) ≡ true }
        ensures script { IfOk result (λ edits. edits.script ≡ script) }
        ensures kept { IfOk result (λ edits. AreKept store.now [] edits) }
    {
        let editing = editing_of(alloc, store, steps, &script)?;
        Ok(Edits {
            script,
            judged: 0,
            editing,
        })
    }

    /// The store as the edits left it.
    pub fn store<'a>(&'a self, opening: &'a Store) -> &'a Store
        ensures { result.now ≡ now_store opening.now self.now.editing }
    {
        match &self.editing {
            Some(editing) => editing.versions.store(),
            None => opening,
        }
    }

    /// The version of a workingstep: how many edits that were accepted reached it.
    pub fn version(&self, n: Number) -> u32
        requires { HasVersion self.now.editing n }
        ensures { result ≡ version_now self.now.editing n }
    {
        match &self.editing {
            Some(editing) => editing.versions.version(n),
            None => 0,
        }
    }

    /// Whether the next edit is due in a log of so many entries, where the run is stuck or not.
    pub fn are_due(&self, count: usize, stuck: bool) -> bool
        ensures { result ≡ due_by (slice_get self.now.script self.now.judged) count stuck }
    {
        match self.script.as_slice().get(self.judged as usize) {
            Some(edit) => edit.at as usize <= count || stuck,
            None => false,
        }
    }

    /// Whether each edit is judged.
    pub fn are_judged(&self) -> bool
        ensures { result ≡ is_none (slice_get self.now.script self.now.judged) }
    {
        self.script.as_slice().get(self.judged as usize).is_none()
    }

    /// Goes on with an entry of a node.
    pub fn follow(&mut self, entry: &Entry)
        requires plain { is_plain entry.now ≡ true }
        requires known { (n v : ℕ) → entry.now ≡ entries.Dispatch n v → HasVersion self.old.editing n }
        ensures script { self.new.script ≡ self.old.script }
        ensures kept { (project : List EntitySeen) (t : List EntrySeen) → AreKept project t self.old → AreKept project (t ++ entry.now ∷ []) self.new }
    {
        project_rules_move();
        logs_move();
        let Entry::Dispatch { n, .. } = *entry else {
            return;
        };
        if let Some(editing) = self.editing.take() {
            self.editing = Some(with_step(editing, n));
        }
    }

    /// The verdict on the next edit. It changes nothing, and counts what judging counts.
    pub fn judge<L: Ledger>(
        &self,
        alloc: Global,
        tree: &Tree,
        steps: &mut Steps<L>,
    ) -> Result<Verdict, NoMemory>
        requires kept { (project : List EntitySeen) × (t : List EntrySeen) × AreKept project t self.now × (steps_in tree.now.nodes ≡ store_steps project) }
        requires next { IsSome (slice_get self.now.script self.now.judged) }
        ensures verdict { (project : List EntitySeen) (t : List EntrySeen) → AreKept project t self.now → steps_in tree.now.nodes ≡ store_steps project
            → IfOk result (λ verdict. verdict ≡ verdict_after self.now.script project t self.now.judged) }
        ensures ticks { (project : List EntitySeen) (t : List EntrySeen) → AreKept project t self.now → steps_in tree.now.nodes ≡ store_steps project
            → steps.new ≤ steps.old + reached_by project self.now.script t self.now.judged }
    {
        let edit = self.script.at(self.judged);
        match &self.editing {
            Some(editing) => judge(alloc, &editing.versions, tree, &editing.sent, edit, steps),
            None => unreachable!(),
        }
    }

    /// A script has no more edits than 32 bits can say, so the index of each can be raised.
    fn index_fits(&self)
        requires { IsSome (slice_get self.now.script self.now.judged) }
        ensures { self.now.judged + 1 < 2 ^ 32 }
    {
        let _ = self.script.len();
    }

    /// Goes past the next edit, which is judged.
    fn pass(&mut self)
        requires { IsSome (slice_get self.old.script self.old.judged) }
        ensures script { self.new.script ≡ self.old.script }
        ensures judged { self.new.judged ≡ self.old.judged + 1 }
        ensures editing { self.new.editing ≡ self.old.editing }
    {
        self.index_fits();
        self.judged += 1;
    }

    /// Puts the next edit, which is accepted.
    ///
    /// # Errors
    /// `NoMemory` where there is none for the edit; all is then as it was.
    fn accept(&mut self, alloc: Global) -> Result<(), NoMemory>
        requires kept { (project : List EntitySeen) × (t : List EntrySeen) × AreKept project t self.old × (verdict_after self.old.script project t self.old.judged ≡ Accepted) }
        requires next { IsSome (slice_get self.old.script self.old.judged) }
        ensures script { self.new.script ≡ self.old.script }
        ensures judged { OnOk result (self.new.judged ≡ self.old.judged + 1) }
        ensures put { OnOk result (PutsNext (slice_get self.old.script self.old.judged) self.old.editing self.new.editing) }
        ensures err { OnErr result (self.new ≡ self.old) }
    {
        accepted_edits_keep_a_project();
        self.index_fits();
        let edit = self.script.at(self.judged).copy(alloc)?;
        let Some(editing) = self.editing.take() else {
            unreachable!()
        };
        let (editing, is_put) = with_edit(editing, alloc, edit);
        self.editing = Some(editing);
        if !is_put {
            return Err(NoMemory);
        }
        self.pass();
        Ok(())
    }

    /// Takes the verdict on the next edit: where it is accepted the edit is put.
    ///
    /// # Errors
    /// `NoMemory` where there is none for the edit; all is then as it was.
    pub fn settle(&mut self, alloc: Global, verdict: Verdict) -> Result<(), NoMemory>
        requires kept { (project : List EntitySeen) × (t : List EntrySeen) × AreKept project t self.old × (verdict ≡ verdict_after self.old.script project t self.old.judged) }
        requires next { IsSome (slice_get self.old.script self.old.judged) }
        ensures script { self.new.script ≡ self.old.script }
        ensures kept { (project : List EntitySeen) (t : List EntrySeen) → AreKept project t self.old → verdict ≡ verdict_after self.old.script project t self.old.judged
            → OnOk result (AreKept project (t ++ entries.Edit self.old.judged verdict ∷ []) self.new) }
        ensures err { OnErr result (self.new ≡ self.old) }
    {
        project_rules_move();
        logs_move();
        accepted_edits_keep_a_project();
        match verdict {
            Verdict::Accepted => self.accept(alloc),
            Verdict::Refused { .. } => {
                self.pass();
                Ok(())
            }
        }
    }
}
