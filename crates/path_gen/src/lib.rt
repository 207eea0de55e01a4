//! The path of a definition, handed out block by block. No call here takes memory.
//!
//! | module | what is in it | calls |
//! |---|---|---|
//! | generator | the path from its beginning on, one block at a time or many into a plan's part | `Gen`, `Filled` |
//! | hole | the block of a drilled hole's path at an index | |
//! | face | the block of a planar face's path at an index | |
//! | pocket | the block of a pocket's path at an index | |
//! | tool | the block that every path begins with | |
//! | laws | what was handed out, joined with what is still to come | `pieces_join` |
//!
//! Each level of a face or a pocket has as many blocks as any other, so a division tells the level of a block, and what is left over
//! tells its row or its ring. The crates path_plane and path_pocket say where these lie. The tests stand in the crate path_tests.
#![tactic(auto)]

mod face;
mod generator;
mod hole;
pub mod laws;
mod pocket;
mod tool;

pub use generator::{Filled, Gen};
