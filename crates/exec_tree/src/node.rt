//! The nodes of a tree.

use crate::kind::{Kind, NodeKind};
use nc_base::{Number, NumberList};

/// A node of a tree: its executable's number (none for the branch that an if leaves out), the number of its channel, its kind with what
/// it says, and the places of its elements in order. Of an if these are the branch for yes and the branch for no, of a while the body.
#[derive(Drop)]
pub struct Node {
    pub number: Option<Number>,
    pub channel: u8,
    pub kind: NodeKind,
    pub elements: NumberList,
}

/// A node without what it says, which is how contracts see the shape of a tree.
#[derive(Drop)]
pub struct BareNode {
    pub number: Option<Number>,
    pub channel: u8,
    pub kind: Kind,
    pub elements: NumberList,
}
