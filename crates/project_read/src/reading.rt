//! From the bytes of a file to its project.

ghost use Rattle.std.specs.Prelude.{◌≡◌, ◌≤◌, ℕ, List, length, map, nat_eq};
ghost use Rattle.std.specs.List.{IsDistinct};
ghost use Rattle.project_store.specs.Entities.{numbers_of};
ghost use Rattle.project_read.specs.Holds.{HasEntities, HasStore};
ghost use Rattle.project_read.specs.Reads.{Reads, ReadsStore};

use crate::limits::MAX_PROJECT_BYTES;
use crate::reason::ProjectErr;
use crate::slices::entities_in;
use edit_rules::Project;
use entity_types::Entity;
use project_store::Store;
use std::alloc::Global;

/// The project that a store holds.
fn project_of(alloc: Global, store: Store) -> Result<Project, ProjectErr>
    ensures { (bytes : List ℕ) → HasStore bytes store → Reads bytes result }
{
    Ok(Project::accept(alloc, store)?)
}

/// The store of a file's entities.
fn store_from(alloc: Global, entities: Vec<Entity>) -> Result<Store, ProjectErr>
    requires { IsDistinct nat_eq (numbers_of entities.items) }
    ensures { (bytes : List ℕ) → HasEntities bytes entities.items → ReadsStore bytes result }
{
    Ok(Store::build(alloc, entities)?)
}

/// The store of a text's entities, or why there is none.
fn store_in(alloc: Global, bytes: &[u8]) -> Result<Store, ProjectErr>
    requires { length bytes.now ≤ MAX_PROJECT_BYTES }
    ensures { ReadsStore bytes.now result }
{
    let entities = entities_in(alloc, bytes)?;
    store_from(alloc, entities)
}

/// The project in the bytes of a file, of at most `MAX_PROJECT_BYTES`: they are clear text (ISO 10303-21) of one exchange, its instances are
/// entities (ISO 14649-10 and ISO 14649-11, by this profile's table), these are a project whose executables are a tree, and each workingstep of
/// the tree has a definition.
///
/// # Errors
/// The first reason why the bytes hold none, in the order of `ProjectReason`, but never `TooLong` or `NoStep`; or want of memory.
pub fn project_in(alloc: Global, bytes: &[u8]) -> Result<Project, ProjectErr>
    requires { length bytes.now ≤ MAX_PROJECT_BYTES }
    ensures { Reads bytes.now result }
{
    let store = store_in(alloc, bytes)?;
    project_of(alloc, store)
}
