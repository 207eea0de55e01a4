//! The run log: its entries, its text, its writer, and laws of its text. The tests stand in the crate path_tests.
#![tactic(auto)]

mod entry;
pub mod laws;
mod lines;
mod writing;

pub use entry::{Ending, Entry, Log, MAX_ENTRIES};
pub use writing::{WriteErr, write, write_blocks};
