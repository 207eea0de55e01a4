//! What a run of a project is, and the rules of a project without edits: what its store says of tree, roles, channels, paths and expressions
//! decides its runs. The program runs projects; a checker of logs asks whether a log is such a run; both cite these definitions, which stand
//! below them in specs/. The functions of `laws` carry their laws. Worked rows stand in proofs/Rows.antt.
#![tactic(auto)]

pub mod laws;
