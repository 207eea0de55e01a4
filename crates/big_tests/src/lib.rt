//! Tests of the large case: its texts, and that they are read again.
#![tactic(auto)]

#[cfg(test)]
mod texts;
