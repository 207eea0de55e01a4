//! A store that edits are put into, with the version of each workingstep.

ghost use Rattle.std.specs.Prelude.{◌≡◌, ◌+◌, ◌<◌, ◌≤◌, ◌^◌, ℕ, replicate, IfOk, OnOk, IfErr, OnErr, Contains};
ghost use Rattle.project_store.specs.Put.{put_items};
ghost use Rattle.project_store.specs.Putting.{CanPut};
ghost use Rattle.project_versions.specs.Reach.{is_reached};
ghost use Rattle.project_versions.specs.Versions.{one_where};
ghost use Rattle.project_versions.specs.Versioned.{version_of, new_instances, AreReached};
ghost use Rattle.project_versions.specs.declared.error.PutErr.TheVariants.{NoMemory as WantOfMemory};

use crate::backward::reaching;
use crate::error::PutErr;
use crate::raising::raise;
use crate::step_order::StepOrder;
use crate::users::Users;
use entity_types::{Edit, EntityList};
use nc_base::{NoMemory, Number, NumberList};
use project_store::{Store, put_keeps_a_store};
use std::alloc::Global;
use std::marker::Model;

/// A store that edits are put into, and the version of each workingstep of its tree: how many of the edits reached it. Contracts see
/// the store, the steps, their versions, and `spare`: for how many further instances there is room.
#[derive(Drop)]
pub struct Versions {
    store: Store,
    users: Users,
    order: StepOrder,
    versions: Vec<u32>,
    spare: u32,
}

impl Model for Versions {
    ghost use Rattle.project_versions.specs.Versioned.{Versioned, counted};
    ghost use Rattle.project_versions.specs.Kept.{IsKept};

    ghost Value = { Versioned };

    ghost view = { λ a. record { store = a.store; steps = a.order.steps; versions = counted a.order.order a.versions.items; spare = a.spare } };

    ghost invariant = { λ a. IsKept a.store a.users a.order a.versions.items a.spare };
}

/// The items of an edit, copied.
fn copy_of(alloc: Global, edit: &Edit) -> Result<EntityList, NoMemory>
    ensures { IfOk result (λ items. items ≡ edit.now.items) }
{
    let Edit { at: _, items } = edit.copy(alloc)?;
    Ok(items)
}

/// The versions of so many steps, all 0.
fn no_versions(alloc: Global, count: usize) -> Result<Vec<u32>, NoMemory>
    ensures { IfOk result (λ versions. versions.items ≡ replicate count 0) }
{
    let mut versions = Vec::new(alloc);
    versions.resize(count, 0)?;
    Ok(versions)
}

impl Versions {
    /// The store with no edit put, and these workingsteps, all of version 0. There is room for `more` further instances.
    pub fn new(
        alloc: Global,
        store: Store,
        steps: &[Number],
        more: u32,
    ) -> Result<Versions, NoMemory>
        ensures store { IfOk result (λ made. made.store ≡ store) }
        ensures steps { IfOk result (λ made. made.steps ≡ steps.now) }
        ensures versions { IfOk result (λ made. (n : ℕ) → version_of made.versions n ≡ 0) }
        ensures spare { IfOk result (λ made. made.spare ≡ more) }
    {
        let mut store = store;
        store.reserve(more)?;
        let order = StepOrder::new(alloc, steps)?;
        let versions = no_versions(alloc, order.order().len())?;
        let users = Users::new(alloc, &store, more)?;
        Ok(Versions {
            store,
            users,
            order,
            versions,
            spare: more,
        })
    }

    /// The store with the edits put.
    pub fn store(&self) -> &Store
        ensures { result.now ≡ self.now.store }
    {
        &self.store
    }

    /// How many edits reached this workingstep, one of the steps.
    pub fn version(&self, step: Number) -> u32
        requires { Contains self.now.steps step }
        ensures { result ≡ version_of self.now.versions step }
    {
        match self.order.place_of(step) {
            Some(i) => self.versions[i],
            None => 0,
        }
    }

    /// The workingsteps that the edit reaches, in order of number: those from which one comes, in the store with the edit put, to a
    /// number that the edit puts.
    pub fn reached(&self, alloc: Global, edit: &Edit) -> Result<NumberList, NoMemory>
        ensures { IfOk result (AreReached self.now.store self.now.steps edit.now.items) }
    {
        reaching(
            alloc,
            &self.store,
            &self.users,
            &self.order,
            edit.items.as_slice(),
        )
    }

    /// Puts the items of an edit into the store, and raises by one the version of each workingstep that it reaches.
    ///
    /// # Errors
    /// Memory ran out: all is as it was, and the edit is given back.
    pub fn put(&mut self, alloc: Global, edit: Edit) -> Result<(), PutErr>
        requires items { CanPut self.old.store edit.items }
        requires room { new_instances self.old.store edit.items ≤ self.old.spare }
        requires versions { (n : ℕ) → Contains self.old.steps n → version_of self.old.versions n + 1 < 2 ^ 32 }
        ensures store { OnOk result (self.new.store ≡ put_items self.old.store edit.items) }
        ensures steps { OnOk result (self.new.steps ≡ self.old.steps) }
        ensures versions { OnOk result ((n : ℕ) → Contains self.old.steps n
            → version_of self.new.versions n ≡ version_of self.old.versions n + one_where (is_reached self.old.store edit.items n)) }
        ensures spare { OnOk result (self.new.spare + new_instances self.old.store edit.items ≡ self.old.spare) }
        ensures kept { OnErr result (self.new ≡ self.old) }
        ensures given_back { IfErr result (λ e. e ≡ WantOfMemory edit) }
    {
        self.store.closed();
        put_keeps_a_store();
        // All that may want memory comes before the first change.
        let Ok(reached) = self.reached(alloc, &edit) else {
            return Err(PutErr::NoMemory(edit));
        };
        let Ok(items) = copy_of(alloc, &edit) else {
            return Err(PutErr::NoMemory(edit));
        };
        let Ok(()) = self.users.reserve(edit.items.as_slice()) else {
            return Err(PutErr::NoMemory(edit));
        };
        let before = self.store.len();
        let Ok(()) = self.store.put(items) else {
            return Err(PutErr::NoMemory(edit));
        };
        self.spare -= (self.store.len() - before) as u32;
        self.users.put(&self.store, edit.items.as_slice());
        raise(&self.order, &mut self.versions, reached.as_slice());
        Ok(())
    }
}
