//! What an operator's edit reaches, the store after edits, and how many edits reached each workingstep.
//!
//! | module | what is in it | calls |
//! |---|---|---|
//! | versions | a store that edits are put into, with the version of each workingstep | `Versions` |
//! | step_set | a set of workingsteps that takes no memory once it is made | `StepSet` |
//! | error | why an edit isn't put | `PutErr` |
//! | laws | what the definitions of edits mean | `laws` |
//! | step_order | the workingsteps in order of number | |
//! | raising | versions raised | |
//! | users | the index of direct users: what refers to an entity | |
//! | backward | what leads to the items of an edit, found backwards | |
#![tactic(auto)]

mod backward;
mod error;
pub mod laws;
mod raising;
mod step_order;
mod step_set;
mod users;
mod versions;

pub use error::PutErr;
pub use step_set::StepSet;
pub use versions::Versions;
