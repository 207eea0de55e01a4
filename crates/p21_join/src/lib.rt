//! Texts that are read slice by slice, where each slice ends behind a semicolon: the tokens of a text are those of its slices.
#![tactic(auto)]

mod join;

pub use join::{ends_in_semicolon, join_laws, last_is_semicolon};
