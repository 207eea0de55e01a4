//! Tests of the crates that all others stand on: nc_base, nc_outside, path_blocks, run_schedule, place_set and pick_set.
#![tactic(auto)]

#[cfg(test)]
mod base;
#[cfg(test)]
mod definitions;
#[cfg(test)]
mod expected;
#[cfg(test)]
mod outside;
#[cfg(test)]
mod paths;
#[cfg(test)]
mod picks;
#[cfg(test)]
mod places;
#[cfg(test)]
mod schedules;
