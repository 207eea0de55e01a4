//! How frames move without going down from the root: what comes in, what is written, and that this is the step of the whole tree, all told
//! at an entry's own node and on the way up from it. The definitions stand in specs/; the functions of `laws` carry the laws.
#![tactic(auto)]

pub mod going;
pub mod kinds;
pub mod laws;
pub mod looks;
pub mod tree;
