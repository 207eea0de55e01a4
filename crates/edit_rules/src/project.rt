//! A project.

ghost use Rattle.std.specs.Prelude.{◌≡◌, true, false, None, MatchOption};
ghost use Rattle.std.specs.List.{list_all};
ghost use Rattle.project_store.specs.Entities.{entity_at};
ghost use Rattle.exec_tree.specs.TreeFault.{first_tree_fault};
ghost use Rattle.exec_tree.specs.Built.{main_of, IsTreeOf};
ghost use Rattle.edit_rules.specs.Faults.{has_def, is_among, IsDefOf};
ghost use Rattle.edit_rules.specs.Steps.{HaveDefs, step_numbers};
ghost use Rattle.edit_rules.specs.Project.{project_steps, IsSound, Accepts};

use crate::error::ProjErr;
use crate::indices::indices_of;
use crate::steps::steps_of;
use exec_tree::laws::trees_tell;
use exec_tree::{Tree, build};
use nc_base::Number;
use path_blocks::{Def, Step};
use project_store::Store;
use std::alloc::Global;
use std::collections::BTreeMap;
use std::marker::Model;

/// A project: its store, the tree of its executables from the main workplan on, and the tree's workingsteps, in preorder, with their
/// definitions. Contracts see the store's list of entities, since all else follows from it.
#[derive(Drop)]
pub struct Project {
    store: Store,
    tree: Tree,
    steps: Vec<Step>,
    indices: BTreeMap<Number, usize>,
}

impl Model for Project {
    ghost use Rattle.std.specs.Prelude.{List};
    ghost use Rattle.entity_types.specs.declared.entity.Entity.{Entity};
    ghost use Rattle.edit_rules.specs.Project.{IsProject};

    ghost Value = { List Entity };

    ghost view = { λ p. p.store };

    ghost invariant = { λ p. IsProject p.store p.tree p.steps.items p.indices };
}

impl Project {
    /// The project of a store: its executables from the main workplan on are a tree, and each workingstep of the tree has a definition.
    ///
    /// # Errors
    /// The first reason why the store holds none, in the order of `ProjErr`, or want of memory.
    pub fn accept(alloc: Global, store: Store) -> Result<Project, ProjErr>
        ensures { Accepts store result }
    {
        let tree = build(alloc, &store)?;
        trees_tell();
        let steps = steps_of(alloc, &store, tree.steps())?;
        let indices = indices_of(alloc, steps.as_slice())?;
        Ok(Project {
            store,
            tree,
            steps,
            indices,
        })
    }

    /// Its executables are a tree, and each of the tree's workingsteps has a definition.
    pub fn sound(&self)
        ensures { IsSound self.now }
    {
        let _ = &self.store;
    }

    /// The store.
    pub fn store(&self) -> &Store
        ensures store { result.now ≡ self.now }
        ensures sound { IsSound self.now }
    {
        &self.store
    }

    /// The tree of the executables from the main workplan on.
    pub fn tree(&self) -> &Tree
        ensures tree { IsTreeOf (entity_at self.now) (main_of self.now) result.now }
        ensures no_fault { first_tree_fault (entity_at self.now) (main_of self.now) ≡ None }
    {
        &self.tree
    }

    /// The tree's workingsteps in preorder, with their definitions.
    pub fn steps(&self) -> &[Step]
        ensures numbers { step_numbers result.now ≡ project_steps self.now }
        ensures defs { HaveDefs self.now result.now }
        ensures defined { list_all (has_def self.now) (project_steps self.now) ≡ true }
    {
        self.steps.as_slice()
    }

    /// The definition of workingstep `n`. None comes exactly where the tree has no such workingstep.
    pub fn definition(&self, n: Number) -> Option<&Def>
        ensures { MatchOption result (is_among (project_steps self.now) n ≡ false) (λ def. IsDefOf self.now (project_steps self.now) n def.now) }
    {
        match self.indices.get(&n) {
            Some(i) => Some(&self.steps[*i].def),
            None => None,
        }
    }

    /// The store and its tree.
    pub fn parts(self) -> (Store, Tree)
        ensures store { result.0 ≡ self }
        ensures tree { IsTreeOf (entity_at self) (main_of self) result.1 }
    {
        (self.store, self.tree)
    }
}
