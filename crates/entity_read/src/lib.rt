//! From the instances of an exchange to the entities of a project. Its tests stand in the crate entity_tests.
#![tactic(auto)]

mod error;
mod field;
mod param;
mod reading;

pub use error::TypeErr;
pub use reading::typed;
