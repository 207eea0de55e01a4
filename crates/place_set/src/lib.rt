//! Sets of places: of the nodes of a tree by where they stand in it. A place is put in, taken out and looked up by one word of each of
//! three levels, and so is the least place found. A set takes 33,288 bytes and asks for no memory.
//!
//! | module | what is in it | calls |
//! |---|---|---|
//! | set | a set of places | `PlaceSet`, `MAX_PLACES` |
//! | words | bits in words | |
//!
//! Its tests stand in the crate base_tests.
#![tactic(auto)]

mod set;
mod words;

pub use set::{MAX_PLACES, PlaceSet};
