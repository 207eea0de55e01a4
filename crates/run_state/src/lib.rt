//! The state of a run, which follows a log entry by entry: where the run stands, what is set and open, what the variables are, and what the
//! edits left. A core makes entries by it, and a checker of logs tests them by it.
//!
//! | module | what is in it | calls |
//! |---|---|---|
//! | state | the state of a run | `RunState`, `Made`, `Action` |
//! | fitting | whether an entry fits | `Fitting` |
//! | same | whether two entries are the same | |
//! | journal | the entries so far, and those to be followed | |
//! | open_steps | the open step of each channel | |
//! | marks | which marks are set | |
//! | variables | the values of variables | |
//! | edits | what is kept of a script's edits | |
//! | definition | the definition of a step that is dispatched | |
//!
//! Its tests stand in the crate core_tests.
#![tactic(auto)]

mod definition;
mod edits;
mod fitting;
mod journal;
mod marks;
mod open_steps;
mod same;
mod state;
mod variables;

pub use fitting::Fitting;
pub use state::{Action, Made, RunState};
