//! A large case from two numbers: a project of many workingsteps, and a script of edits of it, which are the same at every call.
//!
//! | module | what is in it | calls |
//! |---|---|---|
//! | large | project and script | `text` |
//! | project | the exchange of the project | |
//! | workplans | the three workplans and their elements | `MAX_STEPS` |
//! | front | the instances that all workingsteps share | |
//! | operations | features and operations | |
//! | steps | the instances of a workingstep | |
//! | script | the text of the script | |
//! | draws, step | the numbers that are drawn, and what they say | |
//! | params | parameters, and instances with one part | |
#![tactic(auto)]

mod draws;
mod front;
mod large;
mod operations;
mod params;
mod project;
mod script;
mod step;
mod steps;
mod workplans;

pub use large::text;
pub use workplans::MAX_STEPS;
