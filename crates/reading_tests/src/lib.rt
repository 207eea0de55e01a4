//! Tests of tokens, of numbers in thousandths, and of exchanges that are read, made and printed.
#![tactic(auto)]

#[cfg(test)]
mod behind;
#[cfg(test)]
mod building;
#[cfg(test)]
mod lexing;
#[cfg(test)]
mod made;
#[cfg(test)]
mod measuring;
#[cfg(test)]
mod printing;
#[cfg(test)]
mod reading;
#[cfg(test)]
mod rows;
#[cfg(test)]
mod shared;
