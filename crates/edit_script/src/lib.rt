//! Scripts of edits: from text to edits, or the first reason why a text holds none (this profile).
//!
//! | module | what is in it | calls |
//! |---|---|---|
//! | reading | the edits of a text | `read` |
//! | laws | a text holds one script at most, or it is refused for one reason, but never both | `script_laws` |
//! | limits | how many edits a script has, and instances an edit | `MAX_EDITS`, `MAX_ITEMS` |
//! | error | why a text holds no script | `ScriptErr` |
//! | source | what stands at a token, and the beginning and the end of an edit | |
//! | edits | one edit from a token on | |
//! | moment | the digits that say when an edit is due | |
//! | gathered | what is kept of the edits so far: their entities, or the first fault | |
//! | judged | one edit as entities, or its first fault | |
//! | repeat | the number that an edit puts a second time | |
//!
//! Its tests stand in the crate entity_tests.
#![tactic(auto)]

mod edits;
mod error;
mod gathered;
mod judged;
mod laws;
mod limits;
mod moment;
mod reading;
mod repeat;
mod source;

pub use error::ScriptErr;
pub use laws::script_laws;
pub use limits::{MAX_EDITS, MAX_ITEMS};
pub use reading::read;
