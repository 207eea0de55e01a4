//! Schedules: texts of digits that say which channel has the next turn (this profile).
//!
//! | module | what is in it | calls |
//! |---|---|---|
//! | reading | the channels of a schedule | `read`, `MAX_SCHEDULE_BYTES` |
//! | error | why a text is no schedule | `ScheduleErr` |
//!
//! Its tests stand in the crate base_tests.
#![tactic(auto)]

mod error;
mod reading;

pub use error::ScheduleErr;
pub use reading::{MAX_SCHEDULE_BYTES, read};
