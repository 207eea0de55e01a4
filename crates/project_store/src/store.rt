//! The store of a project.

ghost use Rattle.std.specs.Prelude.{◌≡◌, ◌↔◌, ◌<◌, ℕ, [], ◌∷◌, nat_eq, length, slice_get, Some, None, IfOk, OnOk, IfErr, OnErr, Contains};
ghost use Rattle.std.specs.List.{IsDistinct};
ghost use Rattle.project_store.specs.Entities.{numbers_of, entity_at};
ghost use Rattle.project_store.specs.Build.{Builds, projects_of};
ghost use Rattle.project_store.specs.Inserts.{uses_at};
ghost use Rattle.project_store.specs.Places.{IsAt};
ghost use Rattle.project_store.specs.Put.{put_items};
ghost use Rattle.project_store.specs.Putting.{CanPut};
ghost use Rattle.project_store.specs.Resolved.{IsResolved};
ghost use Rattle.project_store.specs.Reach.{IsClosure};

use crate::build::{count_fault, least_missing, least_wrong};
use crate::entities::Entities;
use crate::error::StoreErr;
use crate::index::Index;
use crate::reach::closure;
use entity_types::{Entity, EntityList};
use nc_base::{NoMemory, Number, NumberList};
use std::alloc::Global;
use std::marker::Model;

/// The entities of a project in file order, their references resolved. Contracts see the list of them. There is one `PROJECT`,
/// and each used reference of an entity names an entity of the kind that the table of classes demands.
#[derive(Drop)]
pub struct Store {
    index: Index,
}

impl Model for Store {
    ghost use Rattle.std.specs.Prelude.{◌≡◌, List, None};
    ghost use Rattle.entity_types.specs.declared.entity.Entity.{Entity};
    ghost use Rattle.project_store.specs.Build.{fault_of};

    ghost Value = { List Entity };

    ghost view = { λ s. s.index };

    ghost invariant = { λ s. fault_of s.index ≡ None };
}

impl Store {
    /// The store of these entities, whose numbers are distinct.
    ///
    /// # Errors
    /// The first fault of the list, in the order of `StoreErr`, or want of memory.
    pub fn build(alloc: Global, entities: Vec<Entity>) -> Result<Store, StoreErr>
        requires { IsDistinct nat_eq (numbers_of entities.items) }
        ensures { Builds entities.items result }
    {
        if let Some(fault) = count_fault(&entities) {
            return Err(fault);
        }
        let index = Index::new(alloc, entities)?;
        // A reference that names no entity names none of the right kind either, so that one look at each is enough where all are right.
        let Some((number, position)) = least_wrong(&index) else {
            return Ok(Store { index });
        };
        match least_missing(&index) {
            Some((entity, reference)) => Err(StoreErr::Unresolved(entity, reference)),
            None => Err(StoreErr::WrongKind(number, position)),
        }
    }

    /// The only `PROJECT`.
    pub fn project(&self) -> &Entity
        ensures { projects_of self.now ≡ result.now ∷ [] }
    {
        self.index.project()
    }

    /// Each used reference of an entity in the store names an entity that is in it and of the kind that the table of classes demands.
    pub fn resolved(&self)
        ensures { IsResolved self.now }
    {
        let _ = &self.index;
    }

    /// What an entity of the store uses is in it.
    pub fn closed(&self)
        ensures { (n r : ℕ) → Contains (uses_at (entity_at self.now) n) r → entity_at self.now r ≡ None → ⊥ }
    {
        let _ = &self.index;
    }

    /// The entities in file order.
    pub fn as_slice(&self) -> &[Entity]
        ensures { result.now ≡ self.now }
    {
        self.index.as_slice()
    }

    /// How many entities there are. Their numbers are distinct.
    pub fn len(&self) -> usize
        ensures len { result ≡ length self.now }
        ensures distinct { IsDistinct nat_eq (numbers_of self.now) }
    {
        self.index.len()
    }

    /// The entity at index `i` in file order, counted from 0.
    pub fn at(&self, i: usize) -> &Entity
        requires { i < length self.now }
        ensures { slice_get self.now i ≡ Some result.now }
    {
        self.index.at(i)
    }

    /// The index at which the entity of this number stands, counted from 0. None comes exactly where there is none.
    pub fn place_of(&self, n: Number) -> Option<usize>
        ensures found { (i : ℕ) → (result ≡ Some i) ↔ IsAt self.now n i }
        ensures none { (result ≡ None) ↔ (entity_at self.now n ≡ None) }
    {
        self.index.place_of(n)
    }

    /// Keeps room for so many further entities, so that putting them moves none of those that are there.
    pub fn reserve(&mut self, more: u32) -> Result<(), NoMemory>
        ensures { self.new ≡ self.old }
    {
        self.index.reserve(more)
    }

    /// Puts items in their order: each takes the place of the entity of its number, or comes at the end.
    ///
    /// # Errors
    /// Memory ran out: the store is as it was, and the items are given back.
    pub fn put(&mut self, items: EntityList) -> Result<(), EntityList>
        requires { CanPut self.old items }
        ensures put { OnOk result (self.new ≡ put_items self.old items) }
        ensures kept { OnErr result (self.new ≡ self.old) }
        ensures given_back { IfErr result (λ list. list ≡ items) }
    {
        self.index.put(items)
    }

    /// The least set that holds `n` and what its members use, in order of number.
    pub fn closure(&self, alloc: Global, n: Number) -> Result<NumberList, NoMemory>
        ensures { IfOk result (IsClosure (entity_at self.now) n) }
    {
        closure(alloc, self, n)
    }

    /// An equal store.
    pub fn copy(&self, alloc: Global) -> Result<Store, NoMemory>
        ensures { IfOk result (λ copy. copy ≡ self.now) }
    {
        Ok(Store {
            index: self.index.copy(alloc)?,
        })
    }
}

impl Entities for Store {
    ghost entities = { entity_at };

    fn get(&self, n: Number) -> Option<&Entity> {
        self.index.get(n)
    }
}
