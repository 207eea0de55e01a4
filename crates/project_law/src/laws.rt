//! Laws of the rules and the runs of a project. Each function's contract is the law.

ghost use Rattle.std.specs.Prelude.{◌≡◌, ◌<◌, ◌≤◌, ◌+◌, ◌++◌, ℕ, length, true, false, List, [], ◌∷◌, Option, None};
ghost use Rattle.entity_types.specs.declared.entity.Entity.{Entity};
ghost use Rattle.entity_types.specs.declared.edit.Edit.{Edit};
ghost use Rattle.project_store.specs.Entities.{entity_at};
ghost use Rattle.exec_tree.specs.declared.role.Role.TheVariants.{Waiting};
ghost use Rattle.exec_tree.specs.declared.kind.Kind.TheVariants as kind;
ghost use Rattle.exec_tree.specs.Executable.{kind_at};
ghost use Rattle.exec_tree.specs.Exec.{has};
ghost use Rattle.exec_tree.specs.TreeFault.{first_tree_fault};
ghost use Rattle.exec_tree.specs.TreeOf.{tree_of};
ghost use Rattle.nc_expr.specs.Value.{value_of, holds};
ghost use Rattle.exec_tree.specs.Said.{condition_of, assigned_of};
ghost use Rattle.exec_tree.specs.Role.{role_of};
ghost use Rattle.exec_tree.specs.Built.{main_of, channel_of};
ghost use Rattle.run_log.specs.declared.entry.Entry.{Entry};
ghost use Rattle.run_log.specs.declared.entry.Entry.TheVariants.{Dispatch};
ghost use Rattle.run_log.specs.declared.entry.Ending.{Ending};
ghost use Rattle.run_log.specs.declared.entry.Ending.TheVariants.{Limit};
ghost use Rattle.trace_law.specs.Of.{has_some};
ghost use Rattle.trace_law.specs.State.{dispatched, marks};
ghost use Rattle.run_law.specs.Fits.{is_due, is_stuck, next_of};
ghost use Rattle.run_law.specs.Replay.{AreChannels};
ghost use Rattle.run_law.specs.Sound.{IsSound};
ghost use Rattle.run_law.specs.Length.{HasNoLoop, most_entries};
ghost use Rattle.project_versions.specs.Versions.{rises_by};
ghost use Rattle.project_law.specs.Script.{event_of, store_with, store_after, plan_after};
ghost use Rattle.project_law.specs.Variables.{opening_of, vars_with, vars_after};
ghost use Rattle.project_law.specs.Paths.{blocks_in, frozen_with, frozen_after};
ghost use Rattle.project_law.specs.ProjectRules.{rules_of, store_tree, channel_numbers, version_after};
ghost use Rattle.project_law.specs.Legal.{Legal};
ghost use Rattle.project_law.specs.Run.{IsRun};

use exec_tree::laws::trees_are_sound;
use run_law::laws::{runs_are_short, stuck_means_waiting};

/// Where a store has a tree, the rules of it and any script are sound, so all laws of legal runs hold of them. Each node's channel is one of
/// the tree's, of which channel 0 is one.
pub fn project_rules_are_sound()
    ensures sound { (store : List Entity) (script : List Edit) → first_tree_fault (entity_at store) (main_of store) ≡ None → IsSound (rules_of store script) }
    ensures channels { (store : List Entity) (script : List Edit) → AreChannels (rules_of store script) (channel_numbers store) }
    ensures first { (store : List Entity) → has (channel_numbers store) 0 ≡ true }
{
    trees_are_sound();
}

/// With one more entry the store, the versions, the variables and the paths that steps were dispatched with change as that entry says.
pub fn project_rules_move()
    ensures store { (store : List Entity) (script : List Edit) (t : List Entry) (x : Entry) → store_after script store (t ++ x ∷ []) ≡ store_with script (store_after script store t) x }
    ensures version { (store : List Entity) (script : List Edit) (t : List Entry) (x : Entry) (n : ℕ)
        → version_after script store (t ++ x ∷ []) n ≡ version_after script store t n + rises_by script (store_after script store t) n (event_of x) }
    ensures vars { (store : List Entity) (script : List Edit) (t : List Entry) (x : Entry) (v : ℕ)
        → vars_after script store (t ++ x ∷ []) v ≡ vars_with (plan_after script store t) (vars_after script store t) x v }
    ensures path { (store : List Entity) (script : List Edit) (t : List Entry) (x : Entry) (n : ℕ)
        → frozen_after script store (t ++ x ∷ []) n ≡ frozen_with (store_after script store t) n (frozen_after script store t n) x }
    ensures dispatched { (store : List Entity) (script : List Edit) (t : List Entry) (n v : ℕ)
        → (rules_of store script).path (t ++ Dispatch n v ∷ []) n ≡ blocks_in (entity_at (store_after script store t)) n }
    ensures kept { (store : List Entity) (script : List Edit) (t : List Entry) (x : Entry) (n : ℕ)
        → has_some (n ∷ []) (dispatched x) ≡ false → (rules_of store script).path (t ++ x ∷ []) n ≡ (rules_of store script).path t n }
{}

/// Where there are no edits the store stays, every version is 0, and tree, roles, channels and expressions are those of the store; a dispatch
/// gives a step the path of its definition there, an assignment sets the variable that it names there; and no edit is ever due.
pub fn rules_without_edits()
    ensures store { (store : List Entity) (t : List Entry) → store_after [] store t ≡ store }
    ensures version { (store : List Entity) (t : List Entry) (n : ℕ) → (rules_of store []).version t n ≡ 0 }
    ensures tree { (store : List Entity) (t : List Entry) → (rules_of store []).tree t ≡ tree_of (entity_at store) (main_of store) }
    ensures role { (store : List Entity) (t : List Entry) (n : ℕ) → (rules_of store []).role t n ≡ role_of (entity_at store) n }
    ensures channel { (store : List Entity) (t : List Entry) (n : ℕ) → (rules_of store []).channel t n ≡ channel_of (entity_at store) (main_of store) n }
    ensures path { (store : List Entity) (t : List Entry) (n v : ℕ) → (rules_of store []).path (t ++ Dispatch n v ∷ []) n ≡ blocks_in (entity_at store) n }
    ensures vars { (store : List Entity) (t : List Entry) (x : Entry) (v : ℕ) → vars_after [] store (t ++ x ∷ []) v ≡ vars_with store (vars_after [] store t) x v }
    ensures opening { (store : List Entity) (v : ℕ) → vars_after [] store [] v ≡ opening_of (entity_at store v) }
    ensures answer { (store : List Entity) (t : List Entry) (n : ℕ) → (rules_of store []).answer t n ≡ holds (vars_after [] store t) (condition_of (entity_at store) (entity_at store n)) }
    ensures value { (store : List Entity) (t : List Entry) (n : ℕ) → (rules_of store []).value t n ≡ value_of (vars_after [] store t) (assigned_of (entity_at store) (entity_at store n)) }
    ensures edits { (store : List Entity) → (rules_of store []).edits ≡ [] }
    ensures due { (store : List Entity) (t : List Entry) → is_due (rules_of store []) t ≡ false }
{}

/// Where a legal run of a project is stuck, each node where it can go on waits for a mark that isn't set.
pub fn stuck_project_waits()
    ensures { (project : List Entity) (script : List Edit) (t : List Entry) (n : ℕ) → first_tree_fault (entity_at project) (main_of project) ≡ None
        → Legal project script t → is_stuck (rules_of project script) t ≡ true → has (next_of (rules_of project script) t) n ≡ true
        → (m : ℕ) × ((rules_of project script).role t n ≡ Waiting m) × (has (marks t) m ≡ false) }
{
    project_rules_are_sound();
    stuck_means_waiting();
}

/// A run of a project ends in one way: done, blocked, or stopped by the limit.
pub fn runs_end_in_one_way()
    ensures { (project : List Entity) (script : List Edit) (limit : ℕ) (t : List Entry) (a b : Ending) → IsRun project script limit t a → IsRun project script limit t b → a ≡ b }
{}

/// A legal run of a project without loops has fewer entries than there are edits, three for each node, and for each workingstep those of
/// the longest path with its dispatch and its end together; so a limit of as many entries stops no run.
pub fn project_runs_are_short()
    ensures loops { (project : List Entity) → ((n : ℕ) → ¬ (kind_at (entity_at project n) ≡ kind.While)) → HasNoLoop (store_tree project) }
    ensures few { (project : List Entity) (script : List Edit) (t : List Entry) → first_tree_fault (entity_at project) (main_of project) ≡ None → HasNoLoop (store_tree project)
        → Legal project script t → length t < length script + most_entries (store_tree project) }
    ensures limit { (project : List Entity) (script : List Edit) (limit : ℕ) (t : List Entry) → first_tree_fault (entity_at project) (main_of project) ≡ None → HasNoLoop (store_tree project)
        → length script + most_entries (store_tree project) ≤ limit → ¬ IsRun project script limit t Limit }
{
    project_rules_are_sound();
    runs_are_short();
}
