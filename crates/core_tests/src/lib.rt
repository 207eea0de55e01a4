//! Tests of runs: run_core, run_state and log_check, over projects that are read from text, and what run_law says of runs.
#![tactic(auto)]

#[cfg(test)]
mod checks;
#[cfg(test)]
mod edits;
#[cfg(test)]
mod logs;
#[cfg(test)]
mod nesting;
#[cfg(test)]
mod projects;
#[cfg(test)]
mod runs;
#[cfg(test)]
mod states;
#[cfg(test)]
mod turns;
