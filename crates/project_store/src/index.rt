//! Entities in file order, found by number.

ghost use Rattle.std.specs.Prelude.{◌≡◌, ◌↔◌, ◌<◌, ◌^◌, ℕ, [], ◌∷◌, nat_eq, length, slice_get, None, Some, IfOk, OnOk, IfErr, OnErr, option_copied};
ghost use Rattle.std.specs.List.{IsDistinct};
ghost use Rattle.project_store.specs.Build.{count_fault, projects_of};
ghost use Rattle.project_store.specs.Entities.{numbers_of, entity_at};
ghost use Rattle.project_store.specs.Places.{IsAt};
ghost use Rattle.project_store.specs.Put.{put_items};

use crate::places::{Place, index_among, ordered_places};
use crate::putting::{new_numbers, note_places, put_each, reversed};
use entity_types::{Entity, EntityList};
use nc_base::{NoMemory, Number};
use std::alloc::Global;
use std::collections::BTreeMap;
use std::marker::Model;

/// Entities of distinct numbers. Contracts see the list of them. Beside them stand their places in order of number: no hash of
/// numbers, which a file picks, so that no file can have them collide. The places of entities that were added later stand in a tree
/// of their own, so that adding more takes no pass over all, whatever their numbers are. Where memory ran out while entities were to be
/// added the tree keeps places that no entity took, so that a place of it counts only where an entity of its number stands.
#[derive(Drop)]
pub struct Index {
    entities: Vec<Entity>,
    opening: Vec<Place>,
    added: BTreeMap<Number, usize>,
}

impl Model for Index {
    ghost use Rattle.std.specs.Prelude.{List};
    ghost use Rattle.entity_types.specs.declared.entity.Entity.{Entity};
    ghost use Rattle.project_store.specs.Places.{IsIndex};

    ghost Value = { List Entity };

    ghost view = { λ a. a.entities.items };

    ghost invariant = { λ a. IsIndex a.opening.items a.added a.entities.items };
}

impl Index {
    /// The entities of a list, in its order.
    pub fn new(alloc: Global, entities: Vec<Entity>) -> Result<Index, NoMemory>
        requires { IsDistinct nat_eq (numbers_of entities.items) }
        ensures { IfOk result (λ index. index ≡ entities.items) }
    {
        let opening = ordered_places(alloc, entities.as_slice())?;
        Ok(Index {
            entities,
            opening,
            added: BTreeMap::new(alloc),
        })
    }

    /// How many entities there are.
    pub fn len(&self) -> usize
        ensures len { result ≡ length self.now }
        ensures bounded { result < 2 ^ 63 }
        ensures distinct { IsDistinct nat_eq (numbers_of self.now) }
    {
        self.entities.len()
    }

    /// The entities in order.
    pub fn as_slice(&self) -> &[Entity]
        ensures { result.now ≡ self.now }
    {
        self.entities.as_slice()
    }

    /// The entity at index `i`.
    pub fn at(&self, i: usize) -> &Entity
        requires { i < length self.now }
        ensures { slice_get self.now i ≡ Some result.now }
    {
        &self.entities[i]
    }

    /// Equal entities in the same order.
    pub fn copy(&self, alloc: Global) -> Result<Index, NoMemory>
        ensures { IfOk result (λ copy. copy ≡ self.now) }
    {
        let mut copies = Vec::with_capacity(alloc, self.len())?;
        for i in 0..self.len() {
            copies.push(self.at(i).copy(alloc)?)?;
        }
        Index::new(alloc, copies)
    }

    /// The only project.
    pub fn project(&self) -> &Entity
        requires { count_fault (projects_of self.now) ≡ None }
        ensures { projects_of self.now ≡ result.now ∷ [] }
    {
        for i in 0..self.len() {
            let entity = self.at(i);
            if entity.class.code() == 1 {
                return entity;
            }
        }
        unreachable!()
    }

    /// The index at which the entity of this number stands.
    pub fn place_of(&self, n: Number) -> Option<usize>
        ensures found { (i : ℕ) → (result ≡ Some i) ↔ IsAt self.now n i }
        ensures none { (result ≡ None) ↔ (entity_at self.now n ≡ None) }
    {
        index_among(
            self.entities.as_slice(),
            self.opening.as_slice(),
            &self.added,
            n,
        )
    }

    /// The entity of this number.
    pub fn get(&self, n: Number) -> Option<&Entity>
        ensures { option_copied result ≡ entity_at self.now n }
    {
        match index_among(
            self.entities.as_slice(),
            self.opening.as_slice(),
            &self.added,
            n,
        ) {
            Some(i) => Some(&self.entities[i]),
            None => None,
        }
    }

    /// Keeps room for so many further entities.
    pub fn reserve(&mut self, more: u32) -> Result<(), NoMemory>
        ensures { self.new ≡ self.old }
    {
        self.entities.reserve(more as usize)?;
        Ok(())
    }

    /// Puts items in their order: each takes the place of the entity of its number, or comes at the end. What may want memory is done
    /// before anything changes: where it runs out, all is as it was, and the items are given back.
    pub fn put(&mut self, items: EntityList) -> Result<(), EntityList>
        ensures put { OnOk result (self.new ≡ put_items self.old items) }
        ensures kept { OnErr result (self.new ≡ self.old) }
        ensures given_back { IfErr result (λ list. list ≡ items) }
        ensures distinct { IsDistinct nat_eq (numbers_of self.old) }
    {
        let first = self.len();
        let alloc = *self.entities.allocator();
        let Ok(numbers) = new_numbers(alloc, self, items.as_slice()) else {
            return Err(items);
        };
        let Ok(room) = Vec::with_capacity(alloc, items.len() as usize) else {
            return Err(items);
        };
        if self.entities.reserve(items.len() as usize).is_err() {
            return Err(items);
        }
        let Ok(()) = note_places(&mut self.added, first, numbers.as_slice()) else {
            return Err(items);
        };
        let left = reversed(items, room);
        put_each(
            &mut self.entities,
            self.opening.as_slice(),
            &self.added,
            left,
        );
        Ok(())
    }
}
