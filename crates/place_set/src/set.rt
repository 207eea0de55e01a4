//! A set of places in three levels of words.

ghost use Rattle.std.specs.Prelude.{◌≡◌, ◌<◌, ◌≤◌, ◌==◌, ◌||◌, ◌&&◌, ◌↔◌, not, ℕ, true, false, length, IsTrue, MatchOption};
ghost use Rattle.place_set.specs.Words.{holds, SumsUp, IsSummed, NoneFrom, IsNextFrom};

use crate::words::{clear_bit, first_of_word, has_bit, next_in_word, set_bit};
use std::marker::Model;

/// How many places there are, those from 0 on below this: as many as three levels of words have bits. A tree has fewer nodes, those of branches
/// that are left out included.
pub const MAX_PLACES: u32 = 262_144;

/// A set of places below `MAX_PLACES`. Contracts see which are in it, by `holds`. A bit of a level stands for a word of the level below that
/// isn't zero.
#[derive(Drop)]
pub struct PlaceSet {
    low: [u64; 4096],
    mid: [u64; 64],
    top: [u64; 1],
}

impl Model for PlaceSet {
    ghost use Rattle.std.specs.Prelude.{ℕ, List};
    ghost use Rattle.place_set.specs.Words.{IsSummed};

    ghost Value = { List ℕ };

    ghost view = { λ s. s.low };

    ghost invariant = { λ s. IsSummed s.low s.mid s.top };
}

/// The first bit from i on of words that others sum up.
fn next_up(below: &[u64], above: &[u64], i: usize) -> Option<usize>
    requires long { length below.now ≡ 64 }
    requires one { length above.now ≡ 1 }
    requires sums { SumsUp below.now above.now }
    ensures { MatchOption result (NoneFrom below.now i) (IsNextFrom below.now i) }
{
    if i >= 4096 {
        return None;
    }
    if let Some(b) = next_in_word(below, i) {
        return Some(b);
    }
    if i / 64 + 1 >= 64 {
        return None;
    }
    match next_in_word(above, i / 64 + 1) {
        Some(w) => Some(first_of_word(below, w)),
        None => None,
    }
}

/// The first bit from i on of the lowest of three levels.
fn next_below(low: &[u64], mid: &[u64], top: &[u64], i: usize) -> Option<usize>
    requires { IsSummed low.now mid.now top.now }
    ensures { MatchOption result (NoneFrom low.now i) (IsNextFrom low.now i) }
{
    if i >= MAX_PLACES as usize {
        return None;
    }
    if let Some(b) = next_in_word(low, i) {
        return Some(b);
    }
    match next_up(mid, top, i / 64 + 1) {
        Some(w) => Some(first_of_word(low, w)),
        None => None,
    }
}

impl PlaceSet {
    fn filled(word: u64) -> PlaceSet
        requires { word ≡ 0 }
        ensures { (q : ℕ) → holds result q ≡ false }
    {
        PlaceSet {
            low: [word; 4096],
            mid: [word; 64],
            top: [word; 1],
        }
    }

    /// The set with no place.
    pub fn new() -> PlaceSet
        ensures { (q : ℕ) → holds result q ≡ false }
    {
        PlaceSet::filled(0)
    }

    /// Whether the place is in the set.
    pub fn contains(&self, place: u32) -> bool
        requires { place < MAX_PLACES }
        ensures { result ≡ holds self.now place }
    {
        has_bit(&self.low, place as usize)
    }

    /// Whether the set has no place.
    pub fn is_empty(&self) -> bool
        ensures { IsTrue result ↔ ((q : ℕ) → holds self.now q ≡ false) }
    {
        match self.first() {
            Some(_) => false,
            None => true,
        }
    }

    /// Puts the place into the set.
    pub fn insert(&mut self, place: u32)
        requires { place < MAX_PLACES }
        ensures { (q : ℕ) → holds self.new q ≡ ((q == place) || holds self.old q) }
    {
        let i = place as usize;
        set_bit(&mut self.low, i);
        set_bit(&mut self.mid, i / 64);
        set_bit(&mut self.top, i / 64 / 64);
    }

    /// Takes the place, which is in the set, out of it.
    pub fn remove(&mut self, place: u32)
        requires within { place < MAX_PLACES }
        requires there { holds self.old place ≡ true }
        ensures { (q : ℕ) → holds self.new q ≡ (not (q == place) && holds self.old q) }
    {
        let i = place as usize;
        clear_bit(&mut self.low, i);
        if self.low[i / 64] == 0 {
            clear_bit(&mut self.mid, i / 64);
            if self.mid[i / 64 / 64] == 0 {
                clear_bit(&mut self.top, i / 64 / 64);
            }
        }
    }

    /// The least place of the set that doesn't lie before `place`. None comes exactly where it has no such place.
    pub fn first_from(&self, place: u32) -> Option<u32>
        ensures { MatchOption result ((q : ℕ) → place ≤ q → holds self.now q ≡ false) (λ p. (holds self.now p ≡ true) × (p < MAX_PLACES) × (place ≤ p) × ((q : ℕ) → place ≤ q → q < p → holds self.now q ≡ false)) }
    {
        match next_below(&self.low, &self.mid, &self.top, place as usize) {
            Some(p) => Some(p as u32),
            None => None,
        }
    }

    /// The least place of the set. None comes exactly where it has no place.
    pub fn first(&self) -> Option<u32>
        ensures { MatchOption result ((q : ℕ) → holds self.now q ≡ false) (λ p. (holds self.now p ≡ true) × (p < MAX_PLACES) × ((q : ℕ) → q < p → holds self.now q ≡ false)) }
    {
        if self.top[0] == 0 {
            return None;
        }
        let a = first_of_word(&self.top, 0);
        let b = first_of_word(&self.mid, a);
        let c = first_of_word(&self.low, b);
        Some(c as u32)
    }
}
