//! The index of direct users: what refers to an entity.
//!
//! Each reference is an edge: who refers, and the link to the next edge of what is referred to. An entity that names another one many
//! times is linked to it once. When an entity is put its row begins anew: its older edges count no more and are taken out of their lists,
//! and its present references are linked. So putting items costs what they refer to and what they referred to before, and no list is
//! searched for users that are gone. An edge that counts no more would be passed over where it is still linked, so that what an edge is
//! linked from need only be a hint.

ghost use Rattle.std.specs.Prelude.{◌≡◌, ◌+◌, ◌<◌, ◌≤◌, ℕ, [], ◌∷◌, length, replicate, vec_len, vec_capacity, IfOk, IfSome, IsTrue, OnOk};
ghost use Rattle.entity_types.specs.Entity.{uses_of};
ghost use Rattle.project_versions.specs.Users.{rows_of, AreLinked, HasRows, IsEdge, IsGone, IsUserIndex, Links, Spares, SetsRow, PutsRows, with_edge, uses_count};

use entity_types::Entity;
use nc_base::{NoMemory, Number};
use project_store::Store;
use std::alloc::Global;

/// A reference: the index in the store of the entity that refers, and the link to the next edge of what it refers to. A link is 0, or
/// one more than the index of an edge.
#[derive(Clone, Copy)]
pub(crate) struct Edge {
    pub(crate) user: usize,
    pub(crate) next: usize,
}

/// What an edge is linked from: the head of the entity at an index, or the newer edge at an index.
#[derive(Clone, Copy)]
pub(crate) enum Origin {
    Head(usize),
    Newer(usize),
}

/// For each entity of a store, by its index there, the link to its newest edge, and how many edges there were when its own row began;
/// and for each edge what it is linked from.
#[derive(Drop)]
pub(crate) struct Users {
    pub(crate) heads: Vec<usize>,
    pub(crate) since: Vec<usize>,
    pub(crate) edges: Vec<Edge>,
    origins: Vec<Origin>,
}

/// Keeps what the edge of a link is linked from.
fn note_origin(origins: &mut Vec<Origin>, link: usize, origin: Origin)
    ensures { length origins.new.items ≡ length origins.old.items }
{
    if link > 0 && link <= origins.len() {
        origins[link - 1] = origin;
    }
}

/// Keeps that one edge more, at index `k`, is linked from the head of an entity, and the one that it links to from this one. There is room
/// for it.
fn note_edge(origins: &mut Vec<Origin>, place: usize, k: usize, next: usize)
    ensures { length origins.old.items ≤ length origins.new.items }
{
    if origins.len() < origins.capacity() {
        origins.push_reserved(Origin::Head(place));
    }
    note_origin(origins, next, Origin::Newer(k));
}

/// So many zeros.
fn zeros(alloc: Global, count: usize) -> Result<Vec<usize>, NoMemory>
    ensures { IfOk result (λ made. made.items ≡ replicate count 0) }
{
    let mut made = Vec::new(alloc);
    made.resize(count, 0)?;
    Ok(made)
}

/// A count, and the references of an entity beside it, where that is not too much to count.
fn counted_on(before: usize, entity: &Entity) -> Option<usize>
    ensures { IfSome result (λ count. count ≡ before + length (uses_of entity.now)) }
{
    let mut count = before;
    for field in entity.fields.as_slice() {
        count = count.checked_add(field.references().len())?;
    }
    Some(count)
}

/// How many references entities have, where that is not too much to count.
fn references_in(entities: &[Entity]) -> Option<usize>
    ensures { IfSome result (λ count. count ≡ uses_count entities.now) }
{
    let mut count = 0;
    for entity in entities {
        count = counted_on(count, entity)?;
    }
    Some(count)
}

impl Users {
    /// The index of a store, with rows for `more` further entities.
    pub(crate) fn new(alloc: Global, store: &Store, more: u32) -> Result<Users, NoMemory>
        ensures index { IfOk result (λ made. IsUserIndex store.now (rows_of made)) }
        ensures rows { IfOk result (λ made. HasRows (length store.now + more) (rows_of made)) }
    {
        let Some(count) = store.len().checked_add(more as usize) else {
            return Err(NoMemory);
        };
        let mut users = Users {
            heads: zeros(alloc, count)?,
            since: zeros(alloc, count)?,
            edges: Vec::new(alloc),
            origins: Vec::new(alloc),
        };
        let all = store.as_slice();
        users.reserve(all)?;
        users.put(store, all);
        Ok(users)
    }

    /// Keeps room for the references of these items. The index stays, also where memory runs out.
    pub(crate) fn reserve(&mut self, items: &[Entity]) -> Result<(), NoMemory>
        ensures rows { rows_of self.new ≡ rows_of self.old }
        ensures room { OnOk result (vec_len self.new.edges + uses_count items.now ≤ vec_capacity self.new.edges) }
    {
        let Some(count) = references_in(items) else {
            return Err(NoMemory);
        };
        self.origins.reserve(count)?;
        self.edges.reserve(count)?;
        Ok(())
    }

    /// One edge more.
    fn link(&mut self, place: usize, user: usize)
        requires place { place < length self.old.heads.items }
        requires room { vec_len self.old.edges < vec_capacity self.old.edges }
        ensures rows { rows_of self.new ≡ with_edge (rows_of self.old) place user }
        ensures len { vec_len self.new.edges ≡ vec_len self.old.edges + 1 }
        ensures capacity { vec_capacity self.new.edges ≡ vec_capacity self.old.edges }
    {
        let edge = Edge {
            user,
            next: self.heads[place],
        };
        note_edge(&mut self.origins, place, self.edges.len(), edge.next);
        self.heads[place] = self.edges.len() + 1;
        self.edges.push_reserved(edge);
    }

    /// Whether the newest edge of an entity is of this user and counts. All edges of a user's row are made one after another, so that where
    /// this isn't so the row has no edge there.
    fn is_linked(&self, store: &Store, place: usize, user: usize) -> bool
        requires linked { AreLinked (length store.now) (rows_of self.now) }
        requires place { place < length self.now.heads.items }
        requires user { user < length self.now.since.items }
        ensures { IsTrue result → (k : ℕ) × IsEdge (rows_of self.now) user place k }
    {
        let link = self.heads[place];
        if link == 0 {
            return false;
        }
        let edge = self.edges[link - 1];
        edge.user == user && self.since[user] < link
    }

    /// An edge more, where the reference leads to an entity of the store and the user isn't linked to it yet.
    fn link_to(&mut self, store: &Store, user: usize, reference: Number)
        requires linked { AreLinked (length store.now) (rows_of self.old) }
        requires rows { HasRows (length store.now) (rows_of self.old) }
        requires user { user < length store.now }
        requires room { vec_len self.old.edges < vec_capacity self.old.edges }
        ensures links { Links store.now (rows_of self.old) (rows_of self.new) user (reference ∷ []) }
        ensures len { vec_len self.new.edges ≤ vec_len self.old.edges + 1 }
        ensures capacity { vec_capacity self.new.edges ≡ vec_capacity self.old.edges }
    {
        if let Some(place) = store.place_of(reference) {
            if !self.is_linked(store, place, user) {
                self.link(place, user);
            }
        }
    }

    /// An edge more for each of these references that leads to an entity of the store.
    fn link_all(&mut self, store: &Store, user: usize, references: &[Number])
        requires linked { AreLinked (length store.now) (rows_of self.old) }
        requires rows { HasRows (length store.now) (rows_of self.old) }
        requires user { user < length store.now }
        requires room { vec_len self.old.edges + length references.now ≤ vec_capacity self.old.edges }
        ensures links { Links store.now (rows_of self.old) (rows_of self.new) user references.now }
        ensures len { vec_len self.new.edges ≤ vec_len self.old.edges + length references.now }
        ensures capacity { vec_capacity self.new.edges ≡ vec_capacity self.old.edges }
    {
        for reference in references {
            self.link_to(store, user, *reference);
        }
    }

    /// Edges for all that an entity uses.
    fn link_uses(&mut self, store: &Store, user: usize, entity: &Entity)
        requires linked { AreLinked (length store.now) (rows_of self.old) }
        requires rows { HasRows (length store.now) (rows_of self.old) }
        requires user { user < length store.now }
        requires room { vec_len self.old.edges + length (uses_of entity.now) ≤ vec_capacity self.old.edges }
        ensures links { Links store.now (rows_of self.old) (rows_of self.new) user (uses_of entity.now) }
        ensures len { vec_len self.new.edges ≤ vec_len self.old.edges + length (uses_of entity.now) }
        ensures capacity { vec_capacity self.new.edges ≡ vec_capacity self.old.edges }
    {
        for field in entity.fields.as_slice() {
            self.link_all(store, user, field.references());
        }
    }

    /// Takes the edge at index `k`, which counts no more, out of its list, where the head of an entity links to it.
    fn unlink_first(&mut self, store: &Store, k: usize, place: usize)
        requires linked { AreLinked (length store.now) (rows_of self.old) }
        requires gone { IsGone (rows_of self.old) k }
        ensures spares { Spares store.now (rows_of self.old) (rows_of self.new) }
        ensures edges { self.new.edges ≡ self.old.edges }
    {
        if place < self.heads.len() && self.heads[place] > k && self.heads[place] - 1 == k {
            self.heads[place] = self.edges[k].next;
        }
    }

    /// Takes the edge at index `k`, which counts no more, out of its list, where the edge at index `newer` links to it.
    fn unlink_behind(&mut self, store: &Store, k: usize, newer: usize)
        requires linked { AreLinked (length store.now) (rows_of self.old) }
        requires gone { IsGone (rows_of self.old) k }
        ensures spares { Spares store.now (rows_of self.old) (rows_of self.new) }
        ensures len { vec_len self.new.edges ≡ vec_len self.old.edges }
        ensures capacity { vec_capacity self.new.edges ≡ vec_capacity self.old.edges }
    {
        if newer < self.edges.len()
            && self.edges[newer].next > k
            && self.edges[newer].next - 1 == k
        {
            self.edges[newer] = Edge {
                user: self.edges[newer].user,
                next: self.edges[k].next,
            };
        }
    }

    /// Takes the edge at index `k`, which counts no more, out of its list.
    fn unlink(&mut self, store: &Store, k: usize)
        requires linked { AreLinked (length store.now) (rows_of self.old) }
        requires gone { IsGone (rows_of self.old) k }
        ensures spares { Spares store.now (rows_of self.old) (rows_of self.new) }
        ensures len { vec_len self.new.edges ≡ vec_len self.old.edges }
        ensures capacity { vec_capacity self.new.edges ≡ vec_capacity self.old.edges }
    {
        if k >= self.origins.len() {
            return;
        }
        let origin = self.origins[k];
        note_origin(&mut self.origins, self.edges[k].next, origin);
        match origin {
            Origin::Head(place) => self.unlink_first(store, k, place),
            Origin::Newer(newer) => self.unlink_behind(store, k, newer),
        }
    }

    /// Takes the edges of the entity at index `place`, of which the first stood at index `first` and none counts any more, out of their lists.
    fn unlink_row(&mut self, store: &Store, place: usize, first: usize)
        requires linked { AreLinked (length store.now) (rows_of self.old) }
        requires place { place < length self.old.since.items }
        ensures spares { Spares store.now (rows_of self.old) (rows_of self.new) }
        ensures len { vec_len self.new.edges ≡ vec_len self.old.edges }
        ensures capacity { vec_capacity self.new.edges ≡ vec_capacity self.old.edges }
    {
        let mut k = first;
        while k < self.since[place] && self.edges[k].user == place {
            self.unlink(store, k);
            k += 1;
        }
    }

    /// Sets the row of the entity at index `place`: its older edges count no more.
    fn set_row(&mut self, store: &Store, place: usize, entity: &Entity)
        requires linked { AreLinked (length store.now) (rows_of self.old) }
        requires rows { HasRows (length store.now) (rows_of self.old) }
        requires place { place < length store.now }
        requires room { vec_len self.old.edges + length (uses_of entity.now) ≤ vec_capacity self.old.edges }
        ensures row { SetsRow store.now (rows_of self.old) (rows_of self.new) place (uses_of entity.now) }
        ensures len { vec_len self.new.edges ≤ vec_len self.old.edges + length (uses_of entity.now) }
        ensures capacity { vec_capacity self.new.edges ≡ vec_capacity self.old.edges }
    {
        let first = self.since[place];
        self.since[place] = self.edges.len();
        self.unlink_row(store, place, first);
        self.link_uses(store, place, entity);
    }

    /// Sets the row of an item that was put into the store.
    fn put_one(&mut self, store: &Store, item: &Entity)
        requires linked { AreLinked (length store.now) (rows_of self.old) }
        requires rows { HasRows (length store.now) (rows_of self.old) }
        requires room { vec_len self.old.edges + length (uses_of item.now) ≤ vec_capacity self.old.edges }
        ensures puts { PutsRows store.now (rows_of self.old) (rows_of self.new) (item.now ∷ []) }
        ensures len { vec_len self.new.edges ≤ vec_len self.old.edges + length (uses_of item.now) }
        ensures capacity { vec_capacity self.new.edges ≡ vec_capacity self.old.edges }
    {
        if let Some(place) = store.place_of(item.number) {
            self.set_row(store, place, item);
        }
    }

    /// Sets the rows of items that were put into the store, in their order.
    pub(crate) fn put(&mut self, store: &Store, items: &[Entity])
        requires linked { AreLinked (length store.now) (rows_of self.old) }
        requires rows { HasRows (length store.now) (rows_of self.old) }
        requires room { vec_len self.old.edges + uses_count items.now ≤ vec_capacity self.old.edges }
        ensures { PutsRows store.now (rows_of self.old) (rows_of self.new) items.now }
    {
        for item in items {
            self.put_one(store, item);
        }
    }
}
