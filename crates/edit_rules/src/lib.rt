//! What edits act on: a project, whose executables are a tree, and each of whose workingsteps has a definition; and the rules that an
//! operator's edit of it is judged by.
//!
//! | module | what is in it | calls |
//! |---|---|---|
//! | project | a project | `Project` |
//! | verdict | the verdict on an edit | `judge` |
//! | error | why a store is no project | `ProjErr` |
//! | laws | what a verdict means | `rules_decide`, `accepted_edits_are_safe`, `accepted_edits_keep_a_project`, .. |
//! | steps | the definitions of the tree's workingsteps | |
//! | indices | where the step of a number stands | |
//! | item_faults | what an edit may put: classes and references | |
//! | step_faults | which of the steps that an edit reaches refuses it | |
//!
//! Worked rows of verdicts stand in proofs/Rows.antt; the tests stand in the crate definition_tests.
#![tactic(auto)]

mod error;
mod indices;
mod item_faults;
pub mod laws;
mod project;
mod step_faults;
mod steps;
mod verdict;

pub use error::ProjErr;
pub use project::Project;
pub use verdict::judge;
