//! The places where a run can go on, in a set for each class.

ghost use Rattle.std.specs.Prelude.{◌≡◌, ◌<◌, ◌≤◌, ◌==◌, ◌||◌, ◌&&◌, not, ℕ, true, false, length, slice_set, ◌↔◌, IsTrue, IfOk, MatchOption};
ghost use Rattle.place_set.specs.declared.set.TheConstants.{MAX_PLACES};
ghost use Rattle.place_set.specs.Words.{holds};
ghost use Rattle.place_classes.specs.Classes.{IsClass, index_of, class_at, set_at, least_of, is_in_channel};
ghost use Rattle.place_classes.specs.declared.class.TheConstants.{CLASS_CHANNELS};

use crate::class::{Class, class_at, index_of};
use nc_base::NoMemory;
use place_set::PlaceSet;
use std::alloc::Global;
use std::marker::Model;

/// A set of places, each of a class, by which they are also found. Contracts see the set and the class of each place.
#[derive(Drop)]
pub struct Sorted {
    all: PlaceSet,
    sets: Vec<PlaceSet>,
    classes: Vec<Class>,
}

impl Model for Sorted {
    ghost use Rattle.place_classes.specs.Classes.{SortedPlaces, AreSorted};

    ghost Value = { SortedPlaces };

    ghost view = { λ s. record { all = s.all; classes = s.classes.items } };

    ghost invariant = { λ s. AreSorted s.all s.sets.items s.classes.items };
}

/// Puts a place into one of these sets.
fn insert_in(sets: &mut [PlaceSet], k: usize, place: u32)
    requires there { k < length sets.old }
    requires within { place < MAX_PLACES }
    ensures long { length sets.new ≡ length sets.old }
    ensures came { (j q : ℕ) → holds (set_at sets.new j) q ≡ (((j == k) && (q == place)) || holds (set_at sets.old j) q) }
{
    sets[k].insert(place);
}

/// Takes a place out of one of these sets.
fn remove_from(sets: &mut [PlaceSet], k: usize, place: u32)
    requires there { k < length sets.old }
    requires within { place < MAX_PLACES }
    requires inside { holds (set_at sets.old k) place ≡ true }
    ensures long { length sets.new ≡ length sets.old }
    ensures left { (j q : ℕ) → holds (set_at sets.new j) q ≡ (not ((j == k) && (q == place)) && holds (set_at sets.old j) q) }
{
    sets[k].remove(place);
}

/// The least place of one of these sets.
fn first_in(sets: &[PlaceSet], k: usize) -> Option<u32>
    requires { k < length sets.now }
    ensures { MatchOption result ((q : ℕ) → holds (set_at sets.now k) q ≡ false) (λ p. (holds (set_at sets.now k) p ≡ true) × (p < MAX_PLACES) × ((q : ℕ) → q < p → holds (set_at sets.now k) q ≡ false)) }
{
    sets[k].first()
}

/// The lesser of two places, where there are any.
fn least(a: Option<u32>, b: Option<u32>) -> Option<u32>
    ensures { result ≡ least_of a b }
{
    match (a, b) {
        (Some(p), Some(q)) => Some(if p < q { p } else { q }),
        (Some(p), None) => Some(p),
        (None, b) => b,
    }
}

/// Whether one of these sets has no place.
fn is_empty_at(sets: &[PlaceSet], k: usize) -> bool
    requires { k < length sets.now }
    ensures { IsTrue result ↔ ((q : ℕ) → holds (set_at sets.now k) q ≡ false) }
{
    sets[k].is_empty()
}

/// Whether the first so many of these sets have no place.
#[tactic(auto, using(crate::proofs::SortedLemmas::none_more))]
fn are_empty(sets: &[PlaceSet], count: usize) -> bool
    requires { count ≤ length sets.now }
    ensures { IsTrue result ↔ ((k q : ℕ) → k < count → holds (set_at sets.now k) q ≡ false) }
{
    for k in 0..count {
        if !is_empty_at(sets, k) {
            return false;
        }
    }
    true
}

/// Moves a place, where it is there, from one of these sets to another.
fn move_between(sets: &mut [PlaceSet], there: bool, from: usize, to: usize, place: u32)
    requires from { from < length sets.old }
    requires to { to < length sets.old }
    requires within { place < MAX_PLACES }
    requires inside { there ≡ true → holds (set_at sets.old from) place ≡ true }
    ensures long { length sets.new ≡ length sets.old }
    ensures moved { there ≡ true → (j q : ℕ) → holds (set_at sets.new j) q ≡ (((j == to) && (q == place)) || (not ((j == from) && (q == place)) && holds (set_at sets.old j) q)) }
    ensures kept { there ≡ false → sets.new ≡ sets.old }
{
    if there {
        remove_from(sets, from, place);
        insert_in(sets, to, place);
    }
}

/// So many sets without places.
fn blank_sets(alloc: Global, count: usize) -> Result<Vec<PlaceSet>, NoMemory>
    ensures long { IfOk result (λ sets. length sets.items ≡ count) }
    ensures none { IfOk result (λ sets. (k q : ℕ) → k < count → holds (set_at sets.items k) q ≡ false) }
{
    let mut sets = Vec::with_capacity(alloc, count)?;
    for _k in 0..count {
        sets.push(PlaceSet::new())?;
    }
    Ok(sets)
}

impl Sorted {
    /// No place, where places are of these classes.
    ///
    /// # Errors
    /// `NoMemory` where there is none for the sets.
    pub fn new(alloc: Global, of_places: Vec<Class>) -> Result<Sorted, NoMemory>
        requires { (q : ℕ) → IsClass (class_at of_places.items q) }
        ensures none { IfOk result (λ s. (q : ℕ) → holds s.all q ≡ false) }
        ensures kept { IfOk result (λ s. s.classes ≡ of_places.items) }
    {
        let sets = blank_sets(alloc, 17)?;
        Ok(Sorted {
            all: PlaceSet::new(),
            sets,
            classes: of_places,
        })
    }

    /// Puts a place into the set.
    pub fn insert(&mut self, place: u32)
        requires { place < MAX_PLACES }
        ensures came { (q : ℕ) → holds self.new.all q ≡ ((q == place) || holds self.old.all q) }
        ensures kept { self.new.classes ≡ self.old.classes }
    {
        let k = index_of(class_at(self.classes.as_slice(), place));
        self.all.insert(place);
        insert_in(self.sets.as_mut_slice(), k, place);
    }

    /// Takes a place, which is in the set, out of it.
    pub fn remove(&mut self, place: u32)
        requires within { place < MAX_PLACES }
        requires there { holds self.old.all place ≡ true }
        ensures left { (q : ℕ) → holds self.new.all q ≡ (not (q == place) && holds self.old.all q) }
        ensures kept { self.new.classes ≡ self.old.classes }
    {
        let k = index_of(class_at(self.classes.as_slice(), place));
        self.all.remove(place);
        remove_from(self.sets.as_mut_slice(), k, place);
    }

    /// Says the class of a place, which may be in the set.
    pub fn sort(&mut self, place: u32, class: Class)
        requires within { place < MAX_PLACES }
        requires there { place < length self.old.classes }
        requires one { IsClass class }
        ensures all { self.new.all ≡ self.old.all }
        ensures classes { self.new.classes ≡ slice_set self.old.classes place class }
    {
        let there = self.all.contains(place);
        let k = index_of(class_at(self.classes.as_slice(), place));
        move_between(self.sets.as_mut_slice(), there, k, index_of(class), place);
        self.classes[place as usize] = class;
    }

    /// Whether the place is in the set.
    pub fn contains(&self, place: u32) -> bool
        requires { place < MAX_PLACES }
        ensures { result ≡ holds self.now.all place }
    {
        self.all.contains(place)
    }

    /// The least place of the set that may go on in a channel, which is idle or not: it is free, or idle where the channel is. None comes exactly
    /// where there is none.
    pub fn first_in_channel(&self, channel: u8, idle: bool) -> Option<u32>
        requires { channel < CLASS_CHANNELS }
        ensures { MatchOption result ((q : ℕ) → is_in_channel self.now channel idle q ≡ false) (λ p. (is_in_channel self.now channel idle p ≡ true) × ((q : ℕ) → q < p → is_in_channel self.now channel idle q ≡ false)) }
    {
        let free = first_in(self.sets.as_slice(), channel as usize);
        if idle {
            least(free, first_in(self.sets.as_slice(), 8 + channel as usize))
        } else {
            free
        }
    }

    /// Whether no place of the set is free or idle in a channel.
    pub fn are_shut(&self) -> bool
        ensures { IsTrue result ↔ ((q : ℕ) → holds self.now.all q ≡ true → index_of (class_at self.now.classes q) ≡ 16) }
    {
        are_empty(self.sets.as_slice(), 16)
    }

    /// The least place of the set that doesn't lie before `place`. None comes exactly where it has no such place.
    pub fn first_from(&self, place: u32) -> Option<u32>
        ensures { MatchOption result ((q : ℕ) → place ≤ q → holds self.now.all q ≡ false) (λ p. (holds self.now.all p ≡ true) × (p < MAX_PLACES) × (place ≤ p) × ((q : ℕ) → place ≤ q → q < p → holds self.now.all q ≡ false)) }
    {
        self.all.first_from(place)
    }

    /// Whether the set has no place.
    pub fn is_empty(&self) -> bool
        ensures { IsTrue result ↔ ((q : ℕ) → holds self.now.all q ≡ false) }
    {
        self.all.is_empty()
    }
}
