//! Files that are read slice by slice, so that no more than one slice is held as tokens and as trees: the front up to `DATA;`, and then whole
//! instances. A law says that these together are the front of a file. What is left of it, its end or what refuses it, `p21_parse::read_behind` reads.
#![tactic(auto)]

mod laws;
mod slice;

pub use laws::slice_laws;
pub use slice::{Front, MAX_FILE, front_of, next_slice};
