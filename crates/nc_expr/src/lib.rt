//! Expressions and conditions over the variables of a project, and what they are worth. Contracts see them as plain trees.
//!
//! A list of AND or OR is a row of pairs, since a type whose values hold lists of its own kind can't be gone through in definitions here.
#![tactic(auto)]

mod evaluation;
mod expr;
mod vars;

pub use evaluation::{test, value};
pub use expr::{Cond, Expr, Relation};
pub use vars::Vars;
