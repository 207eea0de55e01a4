//! What a legal run is, for any rules, and the laws of legal runs. The definitions stand in specs/; the functions of `laws` carry the
//! laws. Worked rows stand in proofs/Rows.antt.
#![tactic(auto)]

pub mod laws;
