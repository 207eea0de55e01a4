//! Items put into entities.

ghost use Rattle.std.specs.Prelude.{◌≡◌, ◌+◌, ◌<◌, ◌≤◌, ◌^◌, ◌++◌, [], nat_eq, length, reverse, vec_len, vec_capacity, IfOk, OnOk};
ghost use Rattle.std.specs.List.{IsDistinct};
ghost use Rattle.project_store.specs.Entities.{numbers_of};
ghost use Rattle.project_store.specs.Places.{IsIndex, AreKept, AreNoted};
ghost use Rattle.project_store.specs.Put.{put_items};

use crate::gathered::Gathered;
use crate::index::Index;
use crate::places::{Place, index_among};
use entity_types::{Entity, EntityList};
use nc_base::{NoMemory, Number};
use std::alloc::Global;
use std::collections::BTreeMap;

/// The numbers of items that no entity has, each once, in the order in which they first come.
pub(crate) fn new_numbers(
    alloc: Global,
    index: &Index,
    items: &[Entity],
) -> Result<Vec<Number>, NoMemory>
    ensures { IfOk result (λ numbers. numbers_of (put_items index.now items.now) ≡ numbers_of index.now ++ numbers.items) }
{
    let mut numbers = Gathered::new(alloc);
    for item in items {
        if index.get(item.number).is_none() {
            numbers.insert(item.number)?;
        }
    }
    Ok(numbers.order)
}

/// Keeps where the entities of further numbers are to stand, of which the first comes at index `first`. Where memory runs out that of some
/// is kept.
pub(crate) fn note_places(
    added: &mut BTreeMap<Number, usize>,
    first: usize,
    numbers: &[Number],
) -> Result<(), NoMemory>
    requires fits { first + length numbers.now < 2 ^ 64 }
    requires distinct { IsDistinct nat_eq numbers.now }
    ensures kept { AreKept added.old added.new numbers.now }
    ensures noted { OnOk result (AreNoted added.new first numbers.now) }
{
    for (behind, number) in numbers.iter().enumerate() {
        added.insert(*number, first + behind)?;
    }
    Ok(())
}

/// The items from the last to the first, so that they can be taken in their order. There is room for them.
pub(crate) fn reversed(mut items: EntityList, mut room: Vec<Entity>) -> Vec<Entity>
    requires empty { room.items ≡ [] }
    requires reserved { length items ≤ vec_capacity room }
    ensures { result.items ≡ reverse items }
{
    while let Some(item) = items.pop() {
        room.push_reserved(item);
    }
    room
}

/// Puts the items that are left, the last of them first, by the places of the entities as they stand in the end. There is room for all.
pub(crate) fn put_each(
    entities: &mut Vec<Entity>,
    opening: &[Place],
    added: &BTreeMap<Number, usize>,
    mut left: Vec<Entity>,
)
    requires index { IsIndex opening.now added.now (put_items entities.old.items (reverse left.items)) }
    requires reserved { vec_len entities.old + length left.items ≤ vec_capacity entities.old }
    ensures { entities.new.items ≡ put_items entities.old.items (reverse left.items) }
{
    while let Some(item) = left.pop() {
        match index_among(entities.as_slice(), opening, added, item.number) {
            Some(i) if i < entities.len() => entities[i] = item,
            _ => entities.push_reserved(item),
        }
    }
}
