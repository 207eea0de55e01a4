//! Where a run stands in its tree: of each node to which it has come what it has in its present turn, and all nodes where it can go on. An
//! entry is told by its own node and by the table of the tree: no log is looked through, and nothing goes down from the tree's root.
//!
//! | module | what is in it | calls |
//! |---|---|---|
//! | frames | the frames of a run | `Frames` |
//! | deed | what a node does next | `Deed` |
//! | cells | what is kept of each node | |
//! | frame | what is kept of a node | |
//! | entries | what an entry makes of its node's frame | |
//! | moving | the move by one entry, from its own node on | |
//! | entering | opening, by the table | |
//! | going | going on where a node is over, by the table | |
//! | nodes | the nodes of a tree by place | |
//! | waits | the waits of a tree for each mark | |
#![tactic(auto)]

mod cells;
mod deed;
mod entering;
mod entries;
mod frame;
mod frames;
mod going;
mod moving;
mod nodes;
mod waits;

pub use deed::Deed;
pub use frames::Frames;
