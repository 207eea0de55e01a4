//! An exchange structure: its header and its instances.

use crate::param::ParamList;
use nc_base::{ItemList, NcText, Number};

/// A list of parts.
pub type PartList = ItemList<Part>;

/// A list of instances.
pub type InstanceList = ItemList<Instance>;

/// A keyword with its parameters: a simple entity record, or a header entry (ISO 10303-21, data section and header section).
#[derive(Debug, Drop)]
pub struct Part {
    pub keyword: NcText,
    pub parameters: ParamList,
}

/// An entity instance with its number: one part, or for a complex instance its parts in their outer parentheses
/// (ISO 10303-21, entity instances).
#[derive(Debug, Drop)]
pub struct Instance {
    pub number: Number,
    pub complex: bool,
    pub parts: PartList,
}

/// What a file holds: the entries of its header and the instances of its data section, each in the file's order.
#[derive(Debug, Drop)]
pub struct Exchange {
    pub head: PartList,
    pub items: InstanceList,
}
