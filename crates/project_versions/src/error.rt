//! Why an edit isn't put.

use entity_types::Edit;

/// Why an edit isn't put into a store.
#[derive(Debug, Drop)]
pub enum PutErr {
    /// Memory ran out. The edit is given back.
    NoMemory(Edit),
}
