//! Deciding by one pass over its entries whether a list is a run of a tree so far, or a whole one, where it can go on, and which entry strays
//! from the tree first. Frames of the tree are moved entry by entry; the plain deciders of trace_law, which begin anew at each entry, answer
//! the same. The tests, which compare the two, stand in the crate law_tests.
//!
//! | module | what is in it | calls |
//! |---|---|---|
//! | deciding | what a list of entries is to a tree, and where it can go on | `part`, `whole`, `next`, `first_stray` |
//! | following | going on with entries as far as they are a run so far | |
//! | fitting | whether an entry may follow, by what its node does next | |
//! | entries | the number of an entry's node | |
#![tactic(auto)]

mod deciding;
mod entries;
mod fitting;
mod following;

pub use deciding::{first_stray, next, part, whole};
