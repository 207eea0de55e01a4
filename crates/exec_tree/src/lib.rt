//! The tree of executables of a store (ISO 14649-10, executables), or the first reason why it has none.
//!
//! | module | what is in it | calls |
//! |---|---|---|
//! | tree | the tree, its nodes by place and by number | `build`, `rebuild`, `Tree` |
//! | node | nodes, with and without what they say | `Node`, `BareNode` |
//! | kind | the kinds of executables, with and without conditions and values | `Kind`, `NodeKind` |
//! | role | what a run asks of a node beside its place | `Role` |
//! | error | why a store has no tree | `TreeErr` |
//! | limits | how large a tree may be | `MAX_TREE_NESTING`, `MAX_TREE_NODES`, .. |
//! | adding | the walk through a store in preorder | |
//! | walk | what the walk has come by | |
//! | executable | what an executable says | |
//! | size | how many nodes an expression has | |
//! | classes | what a class is in an expression | |
//! | expressions | expressions with each reference written out | |
//! | full_nodes | nodes with what they say, in a second pass | |
//! | laws | what the definitions mean | `trees_are_sound`, `first_visit_decides`, .. |
//!
//! Its tests stand in the crate tree_tests.
#![tactic(auto)]

mod adding;
mod classes;
mod error;
mod executable;
mod expressions;
mod full_nodes;
mod kind;
pub mod laws;
mod limits;
mod node;
mod role;
mod size;
mod tree;
mod walk;

pub use error::TreeErr;
pub use kind::{Kind, NodeKind};
pub use limits::{MAX_CHANNELS, MAX_EXPRESSION_NODES, MAX_TREE_NESTING, MAX_TREE_NODES};
pub use node::{BareNode, Node};
pub use role::Role;
pub use tree::{Tree, build, rebuild};
