//! Numbers of a project in thousandths: from the text of an Int or a Real to a whole count of thousandths.
//!
//! | module | what is in it | calls |
//! |---|---|---|
//! | value | the value of a text in thousandths | `thousandths`, `MAX_DIGITS` |
//! | rounding | a fraction of powers of ten rounded to the nearest whole number | none |
//! | reading | the parts of the number that a text spells | none |
//! | number | these parts | none |
//! | laws | what the definitions mean | `one_reading`, `half_up` |
//! | fault | why a text has no value | `UnitErr` |
#![tactic(auto)]

mod fault;
mod laws;
mod number;
mod reading;
mod rounding;
mod value;

pub use fault::UnitErr;
pub use laws::{half_up, one_reading};
pub use value::{MAX_DIGITS, thousandths};
