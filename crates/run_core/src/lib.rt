//! The core of a run: which entry may come next, and the run that makes one legal entry after another. The tests stand in the crate
//! core_tests.
#![tactic(auto)]

mod free;
mod idle;
mod named;
mod planning;
mod replaying;
mod standings;

pub use free::{Acted, PathUse};
pub use named::{RunCore, RunName};
pub use planning::plan_of;
pub use replaying::replay;
pub use run_state::Action;
pub use standings::Standing;
