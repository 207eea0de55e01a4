//! Laws over definitions, as contracts of functions without code.

ghost use Rattle.std.specs.Prelude.{◌≡◌, ℕ, Option};
ghost use Rattle.entity_types.specs.declared.entity.Entity.{Entity};
ghost use Rattle.step_def.specs.DefOf.{def_of};
ghost use Rattle.step_def.specs.Agree.{Agree};

/// The definition of a workingstep, or its fault, depends only on what the workingstep reaches: it is the same in all stores that agree
/// on that.
pub fn definition_is_local()
    ensures { (e f : ℕ → Option Entity) (n : ℕ) → Agree e f n → def_of e n ≡ def_of f n }
{}
