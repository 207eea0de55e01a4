//! A definition with its path.

ghost use Rattle.std.specs.Prelude.{◌≡◌, ◌≤◌, length};
ghost use Rattle.path_blocks.specs.Path.{path_of};
ghost use Rattle.path_blocks.specs.declared.limits.TheConstants.{MAX_BLOCKS};

use crate::block::Block;
use crate::def::Def;
use std::marker::Model;

/// A definition and the blocks of its path. Contracts see the definition alone, since that determines the blocks.
#[derive(Drop)]
pub struct Plan {
    def: Def,
    blocks: Vec<Block>,
}

impl Model for Plan {
    ghost use Rattle.std.specs.Prelude.{◌≡◌};
    ghost use Rattle.path_blocks.specs.declared.def.Def.{Def};
    ghost use Rattle.path_blocks.specs.Path.{path_of};

    ghost Value = { Def };

    ghost view = { λ p. p.def };

    ghost invariant = { λ p. p.blocks.items ≡ path_of p.def };
}

impl Plan {
    /// The plan of a definition, from the blocks of its path.
    pub fn new(def: Def, blocks: Vec<Block>) -> Plan
        requires { blocks.items ≡ path_of def }
        ensures { result ≡ def }
    {
        Plan { def, blocks }
    }

    /// The definition that was planned.
    pub fn def(&self) -> &Def
        ensures { result.now ≡ self.now }
    {
        &self.def
    }

    /// The blocks of its path, in order.
    pub fn blocks(&self) -> &[Block]
        ensures exact { result.now ≡ path_of self.now }
        ensures few { length result.now ≤ MAX_BLOCKS }
    {
        self.blocks.as_slice()
    }
}
