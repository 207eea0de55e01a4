//! Judging a log: whether it is a legal run of a project and a script, with its own ending.
//!
//! | module | what is in it | calls |
//! |---|---|---|
//! | checking | the check of a log | `check` |
//! | following | whether the next entry of a log fits | |
//! | answer | what a check finds | `Answer` |
//! | laws | a log has one answer | `a_log_has_one_answer` |
#![tactic(auto)]

mod answer;
mod checking;
mod following;
mod laws;

pub use answer::Answer;
pub use checking::check;
pub use laws::a_log_has_one_answer;
