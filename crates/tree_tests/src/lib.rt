//! Tests of expressions and of trees of executables.
#![tactic(auto)]

#[cfg(test)]
mod expect;
#[cfg(test)]
mod expressions;
#[cfg(test)]
mod faults;
#[cfg(test)]
mod limits;
#[cfg(test)]
mod projects;
#[cfg(test)]
mod trees;
