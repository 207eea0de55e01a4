//! Tests of reading logs: log_read.
#![tactic(auto)]

#[cfg(test)]
mod expected;
#[cfg(test)]
mod lines;
#[cfg(test)]
mod logs;
