//! A definition with the first blocks of its path.

ghost use Rattle.std.specs.Prelude.{◌≡◌, ◌≤◌, ◌+◌, Some, slice_get, length, IfOk};
ghost use Rattle.path_blocks.specs.Path.{path_of};
ghost use Rattle.path_blocks.specs.Place.{IsAtEnd, behind, onward, start};

use crate::block::Block;
use crate::def::Def;
use crate::plan::Plan;
use nc_base::NoMemory;
use std::alloc::Global;
use std::marker::Model;

/// A definition, the blocks of its path that were made so far, and room for all of them. Contracts see how far along the path of
/// which definition that is.
#[derive(Drop)]
pub struct PlanPart {
    def: Def,
    blocks: Vec<Block>,
}

impl Model for PlanPart {
    ghost use Rattle.std.specs.Prelude.{◌≡◌, ◌≤◌, length, take, vec_capacity};
    ghost use Rattle.path_blocks.specs.Path.{path_of};
    ghost use Rattle.path_blocks.specs.Place.{Place};

    ghost Value = { Place };

    ghost view = { λ p. record { def = p.def; given = length p.blocks.items } };

    ghost invariant = { λ p. (p.blocks.items ≡ take (length p.blocks.items) (path_of p.def)) × (length (path_of p.def) ≤ vec_capacity p.blocks) };
}

impl PlanPart {
    /// No block of the path yet, and room for all: what is put later takes no memory.
    ///
    /// # Errors
    /// `NoMemory` where there is none for so many blocks.
    pub fn new(alloc: Global, def: Def) -> Result<PlanPart, NoMemory>
        ensures { IfOk result (λ part. part ≡ start def) }
    {
        Ok(PlanPart {
            def,
            blocks: Vec::with_capacity(alloc, def.count() as usize)?,
        })
    }

    /// The definition that is planned.
    pub fn def(&self) -> &Def
        ensures { result.now ≡ self.now.def }
    {
        &self.def
    }

    /// How many blocks were made, at most as many as the path has.
    pub fn count(&self) -> u32
        ensures exact { result ≡ self.now.given }
        ensures few { result ≤ length (path_of self.now.def) }
    {
        self.blocks.len() as u32
    }

    /// The blocks that were made, the first of the path, in order.
    pub fn blocks(&self) -> &[Block]
        ensures exact { result.now ≡ behind self.now }
        ensures many { length result.now ≡ self.now.given }
    {
        self.blocks.as_slice()
    }

    /// Puts the next block of the path. It takes no memory.
    pub fn push(&mut self, block: Block)
        requires { slice_get (path_of self.old.def) self.old.given ≡ Some block }
        ensures next { self.new ≡ onward self.old 1 }
        ensures more { self.new.given ≡ self.old.given + 1 }
    {
        self.blocks.push_reserved(block);
    }

    /// The plan, once all blocks were made.
    pub fn whole(self) -> Plan
        requires { IsAtEnd self }
        ensures { result ≡ self.def }
    {
        Plan::new(self.def, self.blocks)
    }
}
