//! Tests of stores, of definitions, of versions, of verdicts and of reading projects.
#![tactic(auto)]

#[cfg(test)]
mod definitions;
#[cfg(test)]
mod entities;
#[cfg(test)]
mod putting;
#[cfg(test)]
mod reading;
#[cfg(test)]
mod store;
#[cfg(test)]
mod verdicts;
#[cfg(test)]
mod versions;
