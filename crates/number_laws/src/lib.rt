//! That the tokens of numbers and the numbers that are read in thousandths are the same texts.
#![tactic(auto)]

mod laws;

pub use laws::number_laws;
