//! Laws of verdicts. Each function's contract is the law.

ghost use Rattle.std.specs.Prelude.{◌≡◌, ◌↔◌, ℕ, List, true, false, Option, Some, None, Contains};
ghost use Rattle.std.specs.List.{list_all};
ghost use Rattle.nc_base.specs.declared.verdict.Verdict.TheVariants.{Accepted};
ghost use Rattle.entity_types.specs.declared.entity.Entity.{Entity};
ghost use Rattle.project_store.specs.Entities.{entity_at};
ghost use Rattle.project_store.specs.Put.{put_items};
ghost use Rattle.project_store.specs.Putting.{CanPut};
ghost use Rattle.step_def.specs.Condition.{is_workingstep};
ghost use Rattle.exec_tree.specs.Exec.{has};
ghost use Rattle.exec_tree.specs.Built.{steps_of};
ghost use Rattle.exec_tree.specs.Built.{TreeValue, IsTreeOf, steps_in};
ghost use Rattle.project_versions.specs.Reach.{after, is_reached};
ghost use Rattle.edit_rules.specs.Judge.{j1, j2, j3, j4, j5, reached, touched, step_fault, is_replaceable, judge};
ghost use Rattle.edit_rules.specs.Faults.{has_def};

use exec_tree::laws::trees_tell;
use project_versions::laws::{unreached_keeps_its_definition, versions_move};
use step_def::definition_is_local;

/// An edit is accepted exactly where none of the rules applies. Where it leaves the tree's steps, the last rule looks at those that it reaches.
pub fn rules_decide()
    ensures accepted { (store : List Entity) (steps sent : List ℕ) (items : List Entity) → (judge store steps sent items ≡ Accepted)
        ↔ ((j1 store items ≡ None) × (j2 store items ≡ None) × (j3 store items ≡ None) × (j4 store steps sent items ≡ None) × (j5 store steps steps items ≡ None)) }
    ensures reached { (store : List Entity) (steps : List ℕ) (items : List Entity) → touched store steps steps items ≡ reached store steps items }
{}

/// An edit that is accepted reaches no step of the tree that was dispatched, and each step of the tree that it reaches has a definition behind it.
pub fn accepted_edits_are_safe()
    ensures sent { (store : List Entity) (steps sent : List ℕ) (items : List Entity) (n : ℕ) → judge store steps sent items ≡ Accepted → has steps n ≡ true → has sent n ≡ true → is_reached store items n ≡ false }
    ensures defined { (store : List Entity) (steps sent : List ℕ) (items : List Entity) (n : ℕ) → judge store steps sent items ≡ Accepted → has steps n ≡ true → is_reached store items n ≡ true → step_fault (after store items) n ≡ None }
{}

/// An edit that is accepted may be put. Behind it stands under each number of what a run is made of the entity that stood there, but for
/// workingsteps; a workingstep is one still, and the tree's have definitions if they had.
pub fn accepted_edits_keep_a_project()
    ensures can_put { (store : List Entity) (steps sent : List ℕ) (items : List Entity) → judge store steps sent items ≡ Accepted → CanPut store items }
    ensures program { (store : List Entity) (steps sent : List ℕ) (items : List Entity) (n : ℕ) (old : Entity) → judge store steps sent items ≡ Accepted → entity_at store n ≡ Some old → is_replaceable old.class ≡ false → entity_at (put_items store items) n ≡ entity_at store n }
    ensures workingstep { (store : List Entity) (steps sent : List ℕ) (items : List Entity) (n : ℕ) → judge store steps sent items ≡ Accepted → is_workingstep (entity_at store) n ≡ true → is_workingstep (entity_at (put_items store items)) n ≡ true }
    ensures workingsteps { (store : List Entity) (steps sent : List ℕ) (items : List Entity) → judge store steps sent items ≡ Accepted → list_all (is_workingstep (entity_at store)) steps ≡ true → list_all (is_workingstep (entity_at (put_items store items))) steps ≡ true }
    ensures definition { (store : List Entity) (steps sent : List ℕ) (items : List Entity) (n : ℕ) → judge store steps sent items ≡ Accepted → has steps n ≡ true → has_def store n ≡ true → has_def (put_items store items) n ≡ true }
    ensures definitions { (store : List Entity) (steps sent : List ℕ) (items : List Entity) → judge store steps sent items ≡ Accepted → list_all (has_def store) steps ≡ true → list_all (has_def (put_items store items)) steps ≡ true }
{
    versions_move();
    definition_is_local();
    unreached_keeps_its_definition();
}

/// A verdict asks only which steps were dispatched, not how often or in which order.
pub fn verdicts_ask_for_members()
    ensures { (store : List Entity) (steps sent others : List ℕ) (items : List Entity) → ((n : ℕ) → Contains sent n ↔ Contains others n) → judge store steps sent items ≡ judge store steps others items }
{}

/// The steps of a tree are workingsteps of its store.
pub fn steps_of_trees_are_workingsteps()
    ensures { (entities : ℕ → Option Entity) (main : ℕ) (tree : TreeValue) → IsTreeOf entities main tree → list_all (is_workingstep entities) (steps_in tree.nodes) ≡ true }
{
    trees_tell();
}

/// The workingsteps of a tree are workingsteps by their class.
pub fn tree_steps_are_workingsteps()
    ensures { (entities : ℕ → Option Entity) (main : ℕ) → list_all (is_workingstep entities) (steps_of entities main) ≡ true }
{}
