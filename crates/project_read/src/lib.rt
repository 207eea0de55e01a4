//! The project that the bytes of a file hold, or the first reason why they hold none.
//!
//! | module | what is in it | calls |
//! |---|---|---|
//! | reading | from bytes to a project | `project_in` |
//! | limits | how large a project file may be | `MAX_PROJECT_BYTES` |
//! | reason | why a project is refused | `ProjectReason`, `ProjectErr` |
//! | laws | bytes hold one project at most, and are refused for one reason at most | `project_laws` |
//! | slices | the entities of a file, slice after slice | |
//! | gathered | what is kept of the slices so far | |
//! | entities | the entities of instances | |
//!
//! Its tests stand in the crate definition_tests.
#![tactic(auto)]

mod entities;
mod gathered;
mod laws;
mod limits;
mod reading;
mod reason;
mod slices;

pub use laws::project_laws;
pub use limits::MAX_PROJECT_BYTES;
pub use reading::project_in;
pub use reason::{ProjectErr, ProjectReason};
