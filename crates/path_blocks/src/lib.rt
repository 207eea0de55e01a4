//! What the definition of a workingstep comes down to, and the path that it stands for: the blocks that a machine runs.
//!
//! | module | what is in it | calls |
//! |---|---|---|
//! | limits | how many blocks a path has at most, and how great its numbers are | `MAX_BLOCKS`, `MAX_SIZE` |
//! | block | one move of the machine | `Block` |
//! | def | the definition of a workingstep, with its ranges, and the heights of its levels | `Def`, `Shape` |
//! | step | a workingstep and its definition | `Step` |
//! | plan | a definition with its blocks | `Plan` |
//! | part | a definition with the blocks that were made so far | `PlanPart` |
//! | count | how many blocks a path has, before there is a definition | `block_count` |
//! | cuts | a whole that is gone through by equal cuts, and a last one | `cut`, `cut_count` |
//!
//! What the blocks of each shape are stands in specs/; the crates path_drill, path_plane and path_pocket make them. The tests
//! stand in the crate base_tests.
#![tactic(auto)]

mod block;
mod count;
mod cuts;
mod def;
mod limits;
mod part;
mod plan;
mod step;

pub use block::Block;
pub use count::block_count;
pub use cuts::{cut, cut_count};
pub use def::{Def, Shape};
pub use limits::{MAX_BLOCKS, MAX_SIZE};
pub use part::PlanPart;
pub use plan::Plan;
pub use step::Step;
