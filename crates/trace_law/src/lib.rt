//! What a run of a tree of executables is: whole runs, runs so far, and where a run can go on. The definitions stand in
//! specs/; the functions of `laws` carry their laws, and `part`, `whole`, `next` and `first_stray` decide them for a tree, entry by entry
//! and each time from the beginning: the plain way, to compare others with. The tests stand in the crate law_tests.
//!
//! | module | what is in it | calls |
//! |---|---|---|
//! | laws | laws of the definitions, as contracts of functions without code | `whole_where_nothing_is_next` and others |
//! | deciding | whether entries are a run of a tree, and where it can go on | `part`, `whole`, `next`, `first_stray` |
//! | strays | whether an entry may follow | |
//! | offers | what a node does next | |
//! | going_on | where an executable can go on | |
//! | below | the numbers of an executable's nodes | |
//! | entries | the entries of some nodes, and what a node's own entries tell | |
#![tactic(auto)]

mod below;
mod deciding;
mod entries;
mod going_on;
pub mod laws;
mod offers;
mod strays;

pub use deciding::{first_stray, next, part, whole};
