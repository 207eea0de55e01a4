//! Reading the text of a run log: the log and its ending, or the first line that isn't in its place.
//!
//! | module | what is in it | calls |
//! |---|---|---|
//! | reading | the log of a text | `read` |
//! | laws | a text is of one log and one ending or is refused for one reason, and leaves the format at one place | `log_laws`, `one_log_for_one_text`, `log_lines_are_apart`, `a_text_leaves_its_format_once` |
//! | limits | the ranges of numbers that no lower crate names, and the length of a text | `MAX_LOG_BYTES`, `MAX_VERSION`, `MAX_EDIT`, `MAX_RULE`, `MAX_PICK`, `MAX_RATE` |
//! | error | why a text is not that of a log | `LogErr` |
//! | rows | lines behind the first one | |
//! | entries | lines of entries | |
//! | blocks | blocks in the lines of entries | |
//! | words | the words of a line | |
//!
//! Its tests stand in the crate log_tests.
#![tactic(auto)]

mod blocks;
mod entries;
mod error;
mod laws;
mod limits;
mod reading;
mod rows;
mod words;

pub use error::LogErr;
pub use laws::{
    a_text_leaves_its_format_once, log_laws, log_lines_are_apart, one_log_for_one_text,
};
pub use limits::{MAX_EDIT, MAX_LOG_BYTES, MAX_PICK, MAX_RATE, MAX_RULE, MAX_VERSION};
pub use reading::read;
