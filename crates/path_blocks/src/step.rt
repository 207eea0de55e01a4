//! A workingstep that is to be run.

use crate::def::Def;
use nc_base::Number;

/// A workingstep and its definition.
#[derive(Clone, Copy)]
pub struct Step {
    pub number: Number,
    pub def: Def,
}
