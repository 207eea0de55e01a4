//! What a run asks of a node beside its place in the tree.

use nc_base::Number;

/// What else is known of a node than its place in the tree: it is a workingstep, a wait for the mark of this number, or any other.
#[derive(Clone, Copy, Debug, PartialEq, Eq)]
pub enum Role {
    Cutting,
    Waiting(Number),
    Free,
}
