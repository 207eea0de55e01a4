//! All that the program stepnc does: the words of a command are read, the files that they name are read, their project is run or shown or their log
//! is checked, and the answer is written into a sink. `top` and `quick` are the calls; everything they say of an answer is the definition `Serves`.
//!
//! | module | what is in it | calls |
//! |---|---|---|
//! | top_calls | the calls | `top`, `quick` |
//! | status | how a call ended, and its exit status | `Status` |
//! | command, numerals | the words of a command | |
//! | laws | words mean one command or are bad at one place, and have one answer | `word_laws`, `answer_laws` |
//! | project_file, script_file, schedule_file, log_file, unheld | the project and the log that files hold, the script and the schedule that words name, or why there is none | |
//! | replaying, showing | what the commands do with a project | |
//! | checking | the check of a log | |
//! | large_case, counting | the run of a large case, and the counts of a log | |
//! | answer, refusal | an answer before it is written, and its text | |
//!
//! Its tests stand in the crate controller_tests.
#![tactic(auto)]

mod answer;
mod checking;
mod command;
mod counting;
mod large_case;
mod laws;
mod log_file;
mod numerals;
mod project_file;
mod refusal;
mod replaying;
mod schedule_file;
mod script_file;
mod showing;
mod status;
mod top_calls;
mod unheld;

pub use laws::{answer_laws, word_laws};
pub use status::{LogReason, ScriptReason, Status};
pub use top_calls::{quick, top};
