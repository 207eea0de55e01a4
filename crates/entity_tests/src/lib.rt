//! Tests of entities: their classes and attributes, how they are read from instances, and scripts of edits.
#![tactic(auto)]

#[cfg(test)]
mod expect;
#[cfg(test)]
mod reading;
#[cfg(test)]
mod scripts;
#[cfg(test)]
mod types;
