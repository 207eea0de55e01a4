//! Exchanges as ISO 10303-21 clear text: printing, and reading back what was printed.
//!
//! | module | what is in it | calls |
//! |---|---|---|
//! | file | the text of an exchange | `print` |
//! | laws | what was printed reads back | `print_laws` |
//! | error | why an exchange is not printed | `PrintErr` |
//! | shallow | whether an exchange is no deeper than a file may be | |
//! | parts, params, pieces | each puts one thing of the grammar | |
#![tactic(auto)]

mod error;
mod file;
mod laws;
mod params;
mod parts;
mod pieces;
mod shallow;

pub use error::PrintErr;
pub use file::print;
pub use laws::print_laws;
