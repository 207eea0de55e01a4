//! A table of the nodes of a tree: where opening a node leads, and where a run goes on when a node is over. It is worked out once for a
//! tree, so that no entry of a run goes down from the tree's root. The definitions stand in specs/.
//!
//! | module | what is in it | calls |
//! |---|---|---|
//! | table | the table of a tree | `Table` |
//! | row | what is kept of a node | `Row`, `Continuation` |
//! | laws | what the definitions mean | `onward_is_after` |
//! | leading | the pass from the leaves up: where opening leads | |
//! | telling | the pass from the root down: where the run goes on | |
//! | opening | opening, by a table | |
//! | nodes | the nodes of a tree by place | `look_at` |
#![tactic(auto)]

pub mod laws;
mod leading;
mod nodes;
mod opening;
mod row;
mod table;
mod telling;

pub use nodes::look_at;
pub use row::{Continuation, Row};
pub use table::Table;
