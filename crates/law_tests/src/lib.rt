//! Tests of the trace law, of passes over entries, of tables of trees, and of the log's entries of all kinds: trace_law, trace_check, tree_table,
//! run_log.
#![tactic(auto)]

#[cfg(test)]
mod lines;
#[cfg(test)]
mod passes;
#[cfg(test)]
mod rows;
#[cfg(test)]
mod runs;
#[cfg(test)]
mod tables;
#[cfg(test)]
mod trees;
