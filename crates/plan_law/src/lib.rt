//! The tickets of a run: those of the steps that are planned ahead, each at its step's present version, and each plan that is there of its
//! step's present definition. The definition stands in specs/, over any rules; the functions of `laws` carry its laws, by which the tickets
//! follow the run from entry to entry.
#![tactic(auto)]

pub mod laws;
