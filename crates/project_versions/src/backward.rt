//! What leads to the items of an edit, found backwards.

ghost use Rattle.std.specs.Prelude.{◌≡◌, ◌↔◌, ◌<◌, ◌≤◌, ℕ, [], length, IfOk, OnOk, Contains, filter};
ghost use Rattle.std.specs.List.Sorted.{IsStrictlyIncreasing};
ghost use Rattle.project_store.specs.Entities.{numbers_of, entity_at};
ghost use Rattle.project_store.specs.Inserts.{is_among, AreMembers};
ghost use Rattle.project_versions.specs.Reach.{Reach};
ghost use Rattle.project_versions.specs.Users.{rows_of, AreLinked, HasRows, IsUserIndex, AddsUsers, AddsEdge, AddsLinked, Grown};
ghost use Rattle.project_versions.specs.Versioned.{AreReached};

use crate::step_order::StepOrder;
use crate::users::Users;
use entity_types::Entity;
use nc_base::{NoMemory, Number, NumberList};
use project_store::{Gathered, Store};
use std::alloc::Global;
use std::collections::BTreeSet;

/// Puts in the user of the edge at index `k`, where the edge is still in its row.
fn insert_edge(set: &mut Gathered, users: &Users, store: &Store, k: usize) -> Result<(), NoMemory>
    requires linked { AreLinked (length store.now) (rows_of users.now) }
    requires rows { HasRows (length store.now) (rows_of users.now) }
    requires within { k < length users.now.edges.items }
    requires members { AreMembers set.old.order.items set.old.members }
    ensures order { OnOk result (AddsEdge store.now (rows_of users.now) k set.old.order.items set.new.order.items) }
    ensures members { OnOk result (AreMembers set.new.order.items set.new.members) }
{
    let edge = users.edges[k];
    if users.since[edge.user] <= k {
        set.insert(store.at(edge.user).number)
    } else {
        Ok(())
    }
}

/// Puts in the users of all edges that are linked from here and still in their rows.
fn insert_linked(
    set: &mut Gathered,
    users: &Users,
    store: &Store,
    head: usize,
) -> Result<(), NoMemory>
    requires linked { AreLinked (length store.now) (rows_of users.now) }
    requires rows { HasRows (length store.now) (rows_of users.now) }
    requires within { head ≤ length users.now.edges.items }
    requires members { AreMembers set.old.order.items set.old.members }
    ensures order { OnOk result (AddsLinked store.now (rows_of users.now) head 0 set.old.order.items set.new.order.items) }
    ensures members { OnOk result (AreMembers set.new.order.items set.new.members) }
{
    let mut link = head;
    while link > 0 {
        insert_edge(set, users, store, link - 1)?;
        link = users.edges[link - 1].next;
    }
    Ok(())
}

/// Puts in the entities of the store that use a number.
fn insert_users(
    set: &mut Gathered,
    users: &Users,
    store: &Store,
    number: Number,
) -> Result<(), NoMemory>
    requires index { IsUserIndex store.now (rows_of users.now) }
    requires rows { HasRows (length store.now) (rows_of users.now) }
    requires members { AreMembers set.old.order.items set.old.members }
    ensures order { OnOk result (AddsUsers (entity_at store.now) number set.old.order.items set.new.order.items) }
    ensures members { OnOk result (AreMembers set.new.order.items set.new.members) }
{
    store.closed();
    match store.place_of(number) {
        Some(place) => insert_linked(set, users, store, users.heads[place]),
        None => Ok(()),
    }
}

/// The numbers that items put.
fn put_numbers(alloc: Global, items: &[Entity]) -> Result<Gathered, NoMemory>
    ensures order { IfOk result (λ set. Grown [] set.order.items (numbers_of items.now)) }
    ensures members { IfOk result (λ set. AreMembers set.order.items set.members) }
{
    let mut set = Gathered::new(alloc);
    for item in items {
        set.insert(item.number)?;
    }
    Ok(set)
}

/// All numbers from which one comes, in the store with the items put, to one that the items put. What an item used before doesn't
/// matter, since it is reached at once; and what isn't an item uses the same after as before.
fn leading(
    alloc: Global,
    store: &Store,
    users: &Users,
    items: &[Entity],
) -> Result<BTreeSet<Number>, NoMemory>
    requires index { IsUserIndex store.now (rows_of users.now) }
    requires rows { HasRows (length store.now) (rows_of users.now) }
    ensures { IfOk result (λ set. (n : ℕ) → Contains set.keys n ↔ Reach store.now items.now n) }
{
    let mut set = put_numbers(alloc, items)?;
    let mut next = 0;
    while next < set.order.len() {
        let number = set.order[next];
        insert_users(&mut set, users, store, number)?;
        next += 1;
    }
    Ok(set.members)
}

/// Those of these numbers that are steps, in order.
fn steps_among(
    alloc: Global,
    order: &StepOrder,
    numbers: &BTreeSet<Number>,
) -> Result<NumberList, NoMemory>
    ensures list { IfOk result (λ list. list ≡ filter (is_among order.now.steps) numbers.now.keys) }
    ensures rising { IfOk result (λ _. IsStrictlyIncreasing numbers.now.keys) }
{
    let mut list = NumberList::new(alloc);
    for number in numbers {
        if order.has(*number) {
            list.push(*number)?;
        }
    }
    Ok(list)
}

/// The workingsteps that items reach, in order of number.
pub(crate) fn reaching(
    alloc: Global,
    store: &Store,
    users: &Users,
    order: &StepOrder,
    items: &[Entity],
) -> Result<NumberList, NoMemory>
    requires index { IsUserIndex store.now (rows_of users.now) }
    requires rows { HasRows (length store.now) (rows_of users.now) }
    ensures { IfOk result (AreReached store.now order.now.steps items.now) }
{
    let numbers = leading(alloc, store, users, items)?;
    steps_among(alloc, order, &numbers)
}
