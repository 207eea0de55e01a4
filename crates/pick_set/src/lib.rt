//! The picks of non-sequentials: of the elements of each node of a tree, which were picked in its present turn, and in which order. A pick is
//! made, looked up, and found to be the next that is left, by a few looks at arrays, however many elements there are; a new turn forgets the
//! picks of the last one without a look at them. Only `new` takes memory.
//!
//! | module | what is in it | calls |
//! |---|---|---|
//! | set | the picks of all nodes | `PickSet` |
//! | row | what is kept of one node | |
//! | layout | the slots of each node's elements | |
//!
//! Its tests stand in the crate base_tests.
#![tactic(auto)]

mod layout;
mod row;
mod set;

pub use set::PickSet;
