//! The definition of a workingstep: what its feature, its operation and the instances that they refer to come down to, or the
//! first fault that they have.
//!
//! | module | what is in it | calls |
//! |---|---|---|
//! | definition | the definition of a workingstep | `resolve`, `is_workingstep` |
//! | laws | a definition depends only on what its workingstep reaches | `definition_is_local` |
//! | fault | why a workingstep has none, and the order of the kinds | `DefFault` |
//! | lookup | what is looked up from a workingstep, in order | |
//! | reference | the instances that fields refer to | |
//! | number | numbers and lengths that stand in fields or measures | |
//! | placement | points, directions, placements and planes | |
//! | hole, face, pocket | what features and operations of the three kinds add | |
//! | tool | the tool of an operation, its feed and its spindle speed | |
//! | attributes | what is looked up, as structs | |
//! | check | its faults, kind by kind | |
//! | rectangle | the rectangle of a pocket | |
//! | ranges | the ranges of its numbers | `MAX_VALUE` |
//!
//! `resolve` asks for each instance by its number; it has one pass over a list of the file, the points of a pocket's polyline, and
//! makes it at most once. The tests stand in the crate definition_tests.
#![tactic(auto)]

mod attributes;
mod check;
mod definition;
mod face;
mod fault;
mod hole;
mod laws;
mod lookup;
mod number;
mod placement;
mod pocket;
mod ranges;
mod rectangle;
mod reference;
mod tool;

pub use definition::{is_workingstep, resolve};
pub use fault::DefFault;
pub use laws::definition_is_local;
pub use ranges::MAX_VALUE;
