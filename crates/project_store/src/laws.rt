//! What the definitions mean, as contracts of functions that do nothing.

ghost use Rattle.std.specs.Prelude.{◌≡◌, ℕ, nat_eq, List, Option, Some, None};
ghost use Rattle.std.specs.List.{AllByRecursion, IsDistinct};
ghost use Rattle.entity_types.specs.declared.entity.Entity.{Entity};
ghost use Rattle.project_store.specs.Build.{least_fault, fault_of};
ghost use Rattle.project_store.specs.Entities.{numbers_of, entity_at};
ghost use Rattle.project_store.specs.Least.{IsLeast};
ghost use Rattle.project_store.specs.Put.{put_all, put_items};
ghost use Rattle.project_store.specs.Putting.{CanPut};

/// The least fault of a list is that of one of its entities, and no entity with a fault has a lesser number. Where there is
/// none, no entity has one.
pub fn least_faults()
    ensures least { (test : Entity → Option ℕ) (all : List Entity) (n fault : ℕ) → least_fault test all ≡ Some (n, fault) → IsLeast test all n fault }
    ensures none { (test : Entity → Option ℕ) (all : List Entity) → least_fault test all ≡ None → AllByRecursion (λ entity. test entity ≡ None) all }
{}

/// A store with items put that may be put is one: it has no fault, its numbers are distinct, and in it as a list is found what was put
/// into it as a map.
pub fn put_keeps_a_store()
    ensures fault { (store items : List Entity) → fault_of store ≡ None → IsDistinct nat_eq (numbers_of store) → CanPut store items → fault_of (put_items store items) ≡ None }
    ensures distinct { (store items : List Entity) → IsDistinct nat_eq (numbers_of store) → IsDistinct nat_eq (numbers_of (put_items store items)) }
    ensures found { (store items : List Entity) (n : ℕ) → entity_at (put_items store items) n ≡ put_all (entity_at store) items n }
{}
