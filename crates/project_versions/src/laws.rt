//! Laws of edits. Each function's contract is the law.

ghost use Rattle.std.specs.Prelude.{◌≡◌, ◌↔◌, ◌≤◌, ◌+◌, length, [], ◌∷◌, ◌++◌, ℕ, List, true, false};
ghost use Rattle.entity_types.specs.declared.entity.Entity.{Entity};
ghost use Rattle.entity_types.specs.declared.edit.Edit.{Edit};
ghost use Rattle.project_store.specs.Entities.{entity_at};
ghost use Rattle.project_store.specs.Put.{put_all};
ghost use Rattle.step_def.specs.DefOf.{def_of};
ghost use Rattle.project_versions.specs.Versions.{Event, put_items, store_by, rises_by, store_from, version_from};
ghost use Rattle.project_versions.specs.Reach.{is_reached, after, Reach};
ghost use Rattle.project_versions.specs.Versioned.{new_instances};

use step_def::definition_is_local;

/// An edit reaches a number exactly where the number's closure holds one that the edit puts.
pub fn reach_is_decided()
    ensures { (store items : List Entity) (n : ℕ) → (is_reached store items n ≡ true) ↔ Reach store items n }
{}

/// The store and the versions move with each event, and in the store as a list is found what was put into it as a map.
pub fn versions_move()
    ensures store { (script : List Edit) (store : List Entity) (t : List Event) (x : Event) → store_from script store (t ++ x ∷ []) ≡ store_by script (store_from script store t) x }
    ensures version { (script : List Edit) (store : List Entity) (t : List Event) (x : Event) (n : ℕ) → version_from script store n (t ++ x ∷ []) ≡ version_from script store n t + rises_by script (store_from script store t) n x }
    ensures found { (store items : List Entity) (n : ℕ) → entity_at (put_items store items) n ≡ put_all (entity_at store) items n }
{}

/// What an edit doesn't reach keeps its definition.
pub fn unreached_keeps_its_definition()
    ensures { (store items : List Entity) (n : ℕ) → is_reached store items n ≡ false → def_of (after store items) n ≡ def_of (entity_at store) n }
{
    definition_is_local();
}

/// At most as many instances are new in a store with items put as there are items.
pub fn few_are_new()
    ensures { (store items : List Entity) → new_instances store items ≤ length items }
{}
