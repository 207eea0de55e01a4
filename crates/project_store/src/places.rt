//! Where the entity of a number stands in a list.

ghost use Rattle.std.specs.Prelude.{◌≡◌, ◌⊎◌, ◌≤◌, ℕ, Some, length, IsTrue, IfOk, IfSome, IfNone, Contains};
ghost use Rattle.std.specs.List.{AllAdjacentBelow};
ghost use Rattle.std.specs.List.Sorted.{IsPermutation};
ghost use Rattle.std.specs.Ordering.{nat_cmp};
ghost use Rattle.std.specs.BTreeMap.{get};
ghost use Rattle.project_store.specs.declared.places.Place.{Place};
ghost use Rattle.project_store.specs.Places.{place_at, places_from, AreOrdered, IsAt, Leads};

use entity_types::Entity;
use nc_base::{NoMemory, Number};
use std::alloc::Global;
use std::collections::BTreeMap;

/// The index in a list at which the entity of a number stands.
#[derive(Clone, Copy)]
pub(crate) struct Place {
    pub(crate) number: Number,
    pub(crate) index: usize,
}

/// The places of entities in their order.
fn places_of(alloc: Global, entities: &[Entity]) -> Result<Vec<Place>, NoMemory>
    ensures { IfOk result (λ places. places.items ≡ places_from 0 entities.now) }
{
    let mut places = Vec::with_capacity(alloc, entities.len())?;
    for (index, entity) in entities.iter().enumerate() {
        places.push(Place {
            number: entity.number,
            index,
        })?;
    }
    Ok(places)
}

/// Whether no number is below the one before it.
fn are_ordered(places: &[Place]) -> bool
    ensures { IsTrue result → AllAdjacentBelow (λ x y. x.number ≤ y.number) places.now (length places.now) }
{
    places
        .windows(2)
        .all(|pair| pair[0].number <= pair[1].number)
}

/// The places of entities in order of number. Where the entities are in that order, as those of most files are, nothing is sorted.
pub(crate) fn ordered_places(alloc: Global, entities: &[Entity]) -> Result<Vec<Place>, NoMemory>
    ensures ordered { IfOk result (λ places. AreOrdered places.items) }
    ensures all { IfOk result (λ places. IsPermutation (places_from 0 entities.now) places.items) }
{
    let mut places = places_of(alloc, entities)?;
    if !are_ordered(places.as_slice()) {
        places.sort_by_key(|place| place.number)?;
    }
    Ok(places)
}

/// The index of the entity of this number, if it stands as far behind the first as their numbers are apart: so it is in a file
/// whose numbers leave no gap.
fn guessed(places: &[Place], n: Number) -> Option<usize>
    ensures { IfSome result (λ index. Contains places.now (place_at n index)) }
{
    let Some(first) = places.first() else {
        return None;
    };
    let i = n.saturating_sub(first.number) as usize;
    if i >= places.len() || places[i].number != n {
        return None;
    }
    Some(places[i].index)
}

/// The index of the entity of this number, by places in order of number. No choice of numbers makes the search longer.
pub(crate) fn index_of(places: &[Place], n: Number) -> Option<usize>
    requires { AreOrdered places.now }
    ensures found { IfSome result (λ index. Contains places.now (place_at n index)) }
    ensures none { IfNone result ((place : Place) → Contains places.now place → place.number ≡ n → ⊥) }
{
    if let Some(index) = guessed(places, n) {
        return Some(index);
    }
    match places.binary_search_by_key(&n, |place| place.number) {
        Ok(i) => Some(places[i].index),
        Err(_) => None,
    }
}

/// The index of the entity of this number, by places of which those count where an entity of their number stands.
fn index_of_added(entities: &[Entity], added: &BTreeMap<Number, usize>, n: Number) -> Option<usize>
    ensures found { IfSome result (IsAt entities.now n) }
    ensures none { IfNone result ((i : ℕ) → get nat_cmp added.now n ≡ Some i → IsAt entities.now n i → ⊥) }
{
    match added.get(&n) {
        Some(i) if *i < entities.len() && entities[*i].number == n => Some(*i),
        _ => None,
    }
}

/// The index of the entity of this number, by the places of the first ones in order of number, and by those that were added.
pub(crate) fn index_among(
    entities: &[Entity],
    opening: &[Place],
    added: &BTreeMap<Number, usize>,
    n: Number,
) -> Option<usize>
    requires { AreOrdered opening.now }
    ensures found { IfSome result (λ i. Contains opening.now (place_at n i) ⊎ IsAt entities.now n i) }
    ensures none { IfNone result ((i : ℕ) → Leads opening.now added.now n i → IsAt entities.now n i → ⊥) }
{
    match index_of(opening, n) {
        Some(index) => Some(index),
        None => index_of_added(entities, added, n),
    }
}
