//! The places where a run can go on, in a set for each channel of those that may go on and of those that may where the channel is idle. The
//! least of a channel is found by one look at a set, however many places there are.
//!
//! | module | what is in it | calls |
//! |---|---|---|
//! | class | what lets a run go on at a place | `Class`, `CLASS_CHANNELS` |
//! | sorted | places sorted by their classes | `Sorted` |
#![tactic(auto)]

mod class;
mod sorted;

pub use class::{CLASS_CHANNELS, Class};
pub use sorted::Sorted;
