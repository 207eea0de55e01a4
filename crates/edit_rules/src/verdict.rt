//! The verdict on an edit (this profile). Five rules are asked in order, and the first that applies refuses the edit.

ghost use Rattle.std.specs.Prelude.{◌≡◌, ◌≤◌, ◌+◌, ℕ, true, length, IsSome, IfOk};
ghost use Rattle.std.specs.List.{list_all};
ghost use Rattle.project_store.specs.Entities.{entity_at};
ghost use Rattle.step_def.specs.Condition.{is_workingstep};
ghost use Rattle.exec_tree.specs.Built.{steps_in};
ghost use Rattle.edit_rules.specs.Judge.{reached, first_refusal, judge};
ghost use Rattle.edit_rules.specs.Judging.{item_refusal, early_refusal};

use crate::item_faults::{first_class_fault, first_kind_fault, first_missing_fault};
use crate::step_faults::{first_faulty, first_sent};
use entity_types::{Edit, EntityList};
use exec_tree::Tree;
use nc_base::{NoMemory, Steps, Verdict};
use project_store::{Overlay, Store};
use project_versions::{StepSet, Versions};
use std::alloc::Global;
use std::sync::ledger::Ledger;

/// The first of the rules on classes and references that refuses an item: J1, J2 or J3. The overlay is of the store and the items.
fn item_refusal(store: &Store, put: &Overlay, items: &EntityList) -> Option<Verdict>
    requires store { put.now.store.now ≡ store.now }
    requires items { put.now.items.now ≡ items.now }
    ensures { result ≡ item_refusal store.now items.now }
{
    let items = items.as_slice();
    match first_class_fault(store, items) {
        Some(verdict) => Some(verdict),
        None => match first_missing_fault(put, items) {
            Some(verdict) => Some(verdict),
            None => first_kind_fault(put, items),
        },
    }
}

/// The first of the rules J1 to J5 that refuses the edit, where it leaves the tree's steps.
fn refusal<L: Ledger>(
    alloc: Global,
    versions: &Versions,
    tree: &Tree,
    sent: &StepSet,
    edit: &Edit,
    steps: &mut Steps<L>,
) -> Result<Option<Verdict>, NoMemory>
    requires steps { versions.now.steps ≡ steps_in tree.now.nodes }
    requires workingsteps { list_all (is_workingstep (entity_at versions.now.store)) (steps_in tree.now.nodes) ≡ true }
    ensures refusal { IfOk result (λ refusal. refusal ≡ first_refusal versions.now.store (steps_in tree.now.nodes) (steps_in tree.now.nodes) sent.now.members edit.now.items) }
    ensures ticks { steps.new ≤ steps.old + length (reached versions.now.store (steps_in tree.now.nodes) edit.now.items) }
    ensures idle { IsSome (early_refusal versions.now.store (steps_in tree.now.nodes) sent.now.members edit.now.items) → steps.new ≡ steps.old }
{
    let store = versions.store();
    let put = Overlay::new(alloc, store, &edit.items)?;
    if let Some(verdict) = item_refusal(store, &put, &edit.items) {
        return Ok(Some(verdict));
    }
    let reached = versions.reached(alloc, edit)?;
    let numbers = reached.as_slice();
    if let Some(verdict) = first_sent(sent, numbers) {
        return Ok(Some(verdict));
    }
    Ok(first_faulty(&put, numbers, steps))
}

/// The verdict on an edit (this profile): the first rule that applies refuses it, else it is accepted. `sent` are the steps that were
/// dispatched. It looks at the edit's items and at what they refer to, and then at the steps of the tree that the edit reaches alone, in order of
/// number: each definition that is looked up counts one, and where one of the first four rules applies none is.
///
/// # Errors
/// Want of memory alone.
pub fn judge<L: Ledger>(
    alloc: Global,
    versions: &Versions,
    tree: &Tree,
    sent: &StepSet,
    edit: &Edit,
    steps: &mut Steps<L>,
) -> Result<Verdict, NoMemory>
    requires steps { versions.now.steps ≡ steps_in tree.now.nodes }
    requires workingsteps { list_all (is_workingstep (entity_at versions.now.store)) (steps_in tree.now.nodes) ≡ true }
    ensures verdict { IfOk result (λ verdict. verdict ≡ judge versions.now.store (steps_in tree.now.nodes) sent.now.members edit.now.items) }
    ensures ticks { steps.new ≤ steps.old + length (reached versions.now.store (steps_in tree.now.nodes) edit.now.items) }
    ensures idle { IsSome (early_refusal versions.now.store (steps_in tree.now.nodes) sent.now.members edit.now.items) → steps.new ≡ steps.old }
{
    match refusal(alloc, versions, tree, sent, edit, steps)? {
        Some(verdict) => Ok(verdict),
        None => Ok(Verdict::Accepted),
    }
}
