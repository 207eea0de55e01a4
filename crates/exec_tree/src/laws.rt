//! What the definitions mean, as contracts of functions that do nothing.

ghost use Rattle.std.specs.Prelude.{◌≡◌, ◌↔◌, ◌<◌, ◌≤◌, ◌+◌, ◌++◌, ℕ, max, true, if◌then◌else◌, is_some, List, map, sum, length, slice_get, Option, Some, None};
ghost use Rattle.entity_types.specs.declared.entity.Entity.{Entity};
ghost use Rattle.exec_tree.specs.Exec.{nodes, has, AreDistinct};
ghost use Rattle.exec_tree.specs.Exec.{works};
ghost use Rattle.exec_tree.specs.Exec.{HasChoices};
ghost use Rattle.exec_tree.specs.declared.error.TreeErr.{TreeErr};
ghost use Rattle.exec_tree.specs.Executable.{kind_at};
ghost use Rattle.exec_tree.specs.Size.{size};
ghost use Rattle.exec_tree.specs.Walk.{Visit};
ghost use Rattle.exec_tree.specs.TreeFault.{Seen, weight_of, first_fault, seen_after, walk_of, seen_before, first_fault_from, first_tree_fault};
ghost use Rattle.exec_tree.specs.TreeOf.{tree_of};
ghost use Rattle.exec_tree.specs.Built.{TreeValue, IsTreeFrom, is_work, channels_from, channel_from, channel_in, steps_of, steps_in, said_in, role_in};
ghost use Rattle.exec_tree.specs.Arena.{numbers_in};
ghost use Rattle.exec_tree.specs.declared.node.BareNode.{BareNode};
ghost use Rattle.exec_tree.specs.declared.role.Role.TheVariants.{Free};
ghost use Rattle.exec_tree.specs.Said.{said_for};
ghost use Rattle.exec_tree.specs.Role.{role_of};
ghost use Rattle.exec_tree.specs.Terms.{term_from, test_from};
ghost use Rattle.exec_tree.specs.Walked.{place_from};
ghost use Rattle.exec_tree.specs.First.{IsFirst};
ghost use Rattle.exec_tree.specs.Resolving.{IsExecutable, AreExecutables};
ghost use Rattle.exec_tree.specs.Built.{main_of};
ghost use Rattle.project_store.specs.Entities.{entity_at};
ghost use Rattle.project_store.specs.Resolved.{IsResolved};

use project_store::Store;

/// The tree of a store without a fault, however the walk starts: each number stands once, and each selective has an element. The nodes of a store's tree are those
/// of its walk and the workingsteps those of its class, in its order; each node's channel is one of the tree's.
pub fn trees_are_sound()
    ensures distinct { (start : Seen) (entities : ℕ → Option Entity) (main : ℕ) → first_fault_from start entities main ≡ None → AreDistinct (nodes (tree_of entities main)) }
    ensures choices { (start : Seen) (entities : ℕ → Option Entity) (main : ℕ) → first_fault_from start entities main ≡ None → HasChoices (tree_of entities main) }
    ensures nodes { (entities : ℕ → Option Entity) (main : ℕ) → nodes (tree_of entities main) ≡ map (λ v. v.number) (walk_of entities main) }
    ensures steps { (entities : ℕ → Option Entity) (main : ℕ) → works (tree_of entities main) ≡ steps_of entities main }
    ensures works { (entities : ℕ → Option Entity) (main n : ℕ) → has (works (tree_of entities main)) n ≡ true → is_work (kind_at (entities n)) ≡ true }
    ensures channels { (start : Seen) (entities : ℕ → Option Entity) (main n : ℕ) → channel_from start entities main n < max 1 (length (channels_from start entities main)) }
{}

/// A walk has a first fault exactly where a visit has it after others that have none; and what those have come by are their numbers, and
/// their nodes with those of their expressions.
pub fn first_visit_decides()
    ensures first { (entities : ℕ → Option Entity) (seen : Seen) (visits : List Visit) (fault : TreeErr) → first_fault entities seen visits ≡ Some fault ↔ IsFirst entities seen visits fault }
    ensures numbers { (entities : ℕ → Option Entity) (seen : Seen) (visits : List Visit) → (seen_after entities seen visits).numbers ≡ seen.numbers ++ map (λ v. v.number) visits }
    ensures weight { (entities : ℕ → Option Entity) (seen : Seen) (visits : List Visit) → (seen_after entities seen visits).weight ≡ seen.weight + sum (map (weight_of entities) visits) }
{}

/// Where no channel may come, none does; where they may, none is refused for being new.
pub fn channels_are_kept()
    ensures kept { (entities : ℕ → Option Entity) (main : ℕ) (channels : List ℕ) → first_fault_from (seen_before channels) entities main ≡ None → channels_from (seen_before channels) entities main ≡ channels }
    ensures build { (entities : ℕ → Option Entity) (main n : ℕ) → ¬ (first_tree_fault entities main ≡ Some (TreeErr.NewChannel n)) }
{}

/// An expression that has fewer nodes than one looks levels deep has no more below, and one never sees fewer by looking deeper. So what has
/// more than `MAX_EXPRESSION_NODES` nodes in any number of levels has more than that in its first `MAX_EXPRESSION_NODES` + 1.
pub fn expressions_are_seen_whole()
    ensures whole { (entities : ℕ → Option Entity) (levels more n : ℕ) → size entities levels n < levels → levels ≤ more → size entities more n ≡ size entities levels n }
    ensures deeper { (entities : ℕ → Option Entity) (levels more n : ℕ) → levels ≤ more → size entities levels n ≤ size entities more n }
{}

/// What a store's tree tells by number is what the store says: channels, workingsteps, what nodes say, and their roles. A number that no node
/// has says nothing.
pub fn trees_tell()
    ensures channels { (start : Seen) (entities : ℕ → Option Entity) (main n : ℕ) (tree : TreeValue) → IsTreeFrom start entities main tree → channel_in tree.nodes n ≡ channel_from start entities main n }
    ensures steps { (start : Seen) (entities : ℕ → Option Entity) (main : ℕ) (tree : TreeValue) → IsTreeFrom start entities main tree → steps_in tree.nodes ≡ steps_of entities main }
    ensures said { (start : Seen) (entities : ℕ → Option Entity) (main n : ℕ) (tree : TreeValue) → IsTreeFrom start entities main tree → said_in tree n ≡ (if has (nodes (tree_of entities main)) n then Some (said_for entities (kind_at (entities n)) (entities n)) else None) }
    ensures roles { (start : Seen) (entities : ℕ → Option Entity) (main n : ℕ) (tree : TreeValue) → IsTreeFrom start entities main tree → role_in tree n ≡ (if has (nodes (tree_of entities main)) n then role_of entities n else Free) }
{}

/// A number has a place exactly where a node has it, and the node at its place has it.
pub fn places_are_found()
    ensures some { (arena : List BareNode) (n : ℕ) → is_some (place_from 0 arena n) ≡ has (numbers_in arena) n }
    ensures numbered { (arena : List BareNode) (n place : ℕ) → place_from 0 arena n ≡ Some place → (node : BareNode) × (slice_get arena place ≡ Some node) × (node.number ≡ Some n) }
{}

/// What has fewer nodes than one looks levels deep is the same value, and the same condition, however deeper one looks. So what is at most
/// `MAX_EXPRESSION_NODES` large is written out whole.
pub fn expressions_are_written_out()
    ensures values { (entities : ℕ → Option Entity) (levels more n : ℕ) → size entities levels n < levels → levels ≤ more → term_from entities more n ≡ term_from entities levels n }
    ensures tests { (entities : ℕ → Option Entity) (levels more n : ℕ) → size entities levels n < levels → levels ≤ more → test_from entities more n ≡ test_from entities levels n }
{}

/// The walk of a resolved store comes to executables alone, where its main workplan is one.
pub fn walks_are_resolved()
    ensures { (all : List Entity) (main : ℕ) → IsResolved all → IsExecutable all main → AreExecutables all (walk_of (entity_at all) main) }
{}

/// The main workplan of a store is an executable of it, so its walk comes to executables alone.
pub fn main_workplan_is_executable(store: &Store)
    ensures main { IsExecutable store.now (main_of store.now) }
    ensures walk { AreExecutables store.now (walk_of (entity_at store.now) (main_of store.now)) }
{
    store.resolved();
    store.len();
    store.project();
}
