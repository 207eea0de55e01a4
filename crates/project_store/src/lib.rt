//! The store: the entities of a project with their references resolved.
//!
//! | module | what is in it | calls |
//! |---|---|---|
//! | store | a project's entities in file order | `Store` |
//! | entities | entities by number, whatever holds them | `Entities` |
//! | overlay | a store with an edit's items put | `Overlay` |
//! | reach | what an entity uses, and what that uses in turn | `closure` |
//! | error | why a list of entities is no project | `StoreErr` |
//! | laws | what the least fault of a list is, and that a store with items put is one | `least_faults`, `put_keeps_a_store` |
//! | index | entities in file order, found by number | |
//! | places | where the entity of a number stands: a search, no hash | |
//! | build | the faults of a list of entities | |
//! | putting | items put into entities | |
//! | gathered | numbers, each once in the order in which they came | `Gathered` |
//!
//! Its tests stand in the crate definition_tests.
#![tactic(auto)]

mod build;
mod entities;
mod error;
mod gathered;
mod index;
mod laws;
mod overlay;
mod places;
mod putting;
mod reach;
mod store;

pub use entities::Entities;
pub use error::StoreErr;
pub use gathered::Gathered;
pub use laws::{least_faults, put_keeps_a_store};
pub use overlay::Overlay;
pub use reach::closure;
pub use store::Store;
