//! Tests of paths, of logs and of the definitions of runs: path_drill, path_plane, path_pocket, path_gen, run_log and trace_law.
#![tactic(auto)]

#[cfg(test)]
mod expected;
#[cfg(test)]
mod faces;
#[cfg(test)]
mod holes;
#[cfg(test)]
mod laws;
#[cfg(test)]
mod logs;
#[cfg(test)]
mod paths;
#[cfg(test)]
mod pieces;
#[cfg(test)]
mod pockets;
