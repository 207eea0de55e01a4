//! The path of a definition, block by block.

ghost use Rattle.std.specs.Prelude.{◌≡◌, ◌≤◌, ◌<◌, ◌+◌, ◌∷◌, [], ◌++◌, ◌↔◌, IsNone, IsSome, IfSome, Some, length, slice_get};
ghost use Rattle.path_blocks.specs.Path.{path_of};
ghost use Rattle.path_blocks.specs.Place.{IsAtEnd, ahead, behind, onward, start};
ghost use Rattle.path_blocks.specs.declared.limits.TheConstants.{MAX_BLOCKS};
ghost use Rattle.path_gen.specs.declared.generator.Filled.TheVariants.{Whole};

use crate::{face, hole, pocket};
use path_blocks::{Block, Def, PlanPart, Shape};
use path_plane::Facing;
use path_pocket::Inset;
use std::marker::Model;

/// Whether the path is complete.
#[derive(Clone, Copy, Debug, PartialEq, Eq)]
pub enum Filled {
    /// All its blocks are there.
    Whole,
    /// There are more blocks to come.
    More,
}

/// The path of a definition, handed out block by block from its beginning to its end. Contracts see how far along the path it is.
#[derive(Clone, Copy, Debug)]
pub struct Gen {
    definition: Def,
    next: u32,
    count: u32,
}

impl Model for Gen {
    ghost use Rattle.std.specs.Prelude.{◌≡◌, ◌≤◌, length};
    ghost use Rattle.path_blocks.specs.Path.{path_of};
    ghost use Rattle.path_blocks.specs.Place.{Place};

    ghost Value = { Place };

    ghost view = { λ g. record { def = g.definition; given = g.next } };

    ghost invariant = { λ g. (g.count ≡ length (path_of g.definition)) × (g.next ≤ g.count) };

    ghost inverse = { λ p. record { definition = p.def; next = p.given; count = length (path_of p.def) } };
}

/// The block with this index, counted from 0, of a path with `count` blocks.
fn block_at(def: &Def, count: u32, index: u32) -> Block
    requires counted { count ≡ length (path_of def.now) }
    requires index { index < count }
    ensures { slice_get (path_of def.now) index ≡ Some result }
{
    let index = u64::from(index);
    let last = u64::from(count) - 1;
    match def.shape {
        Shape::Drill { x, y, dwell } => hole::block(def, x, y, dwell, index),
        Shape::Plane { .. } => face::block(def, &Facing::of(def), last, index),
        Shape::Pocket { .. } => pocket::block(def, &Inset::of(def), last, index),
    }
}

impl Gen {
    /// The whole path of a definition, none of which was handed out.
    pub fn new(def: &Def) -> Gen
        ensures { result ≡ start def.now }
    {
        Gen {
            definition: *def,
            next: 0,
            count: def.count(),
        }
    }

    /// The definition whose path it is.
    pub fn def(&self) -> &Def
        ensures { result.now ≡ self.now.def }
    {
        &self.definition
    }

    /// How many blocks were handed out, at most as many as the path has.
    pub fn given(&self) -> u32
        ensures exact { result ≡ self.now.given }
        ensures few { result ≤ length (path_of self.now.def) }
    {
        self.next
    }

    /// How many blocks are still to come.
    pub fn left(&self) -> u32
        ensures exact { result ≡ length (ahead self.now) }
        ensures joined { self.now.given + result ≡ length (path_of self.now.def) }
    {
        self.count - self.next
    }

    /// The block that `next` hands out, or None at the path's end. Nothing moves.
    pub fn peek(&self) -> Option<Block>
        ensures exact { result ≡ slice_get (path_of self.now.def) self.now.given }
        ensures end { IsNone result ↔ IsAtEnd self.now }
    {
        if self.next < self.count {
            Some(block_at(&self.definition, self.count, self.next))
        } else {
            None
        }
    }

    /// How many blocks the whole path has.
    fn length(&self) -> u32
        ensures exact { result ≡ length (path_of self.now.def) }
        ensures few { result ≤ MAX_BLOCKS }
    {
        self.count
    }

    /// The block with this index, counted from 0, of the whole path, however far along it is. None where the path has no such block.
    pub fn at(&self, index: usize) -> Option<Block>
        ensures exact { result ≡ slice_get (path_of self.now.def) index }
        ensures few { IsSome result → index < MAX_BLOCKS }
    {
        let count = self.length();
        if index < count as usize {
            Some(block_at(&self.definition, count, index as u32))
        } else {
            None
        }
    }

    /// Hands out the next block, which there is.
    fn give(&mut self) -> Block
        requires { self.old.given < length (path_of self.old.def) }
        ensures exact { slice_get (path_of self.old.def) self.old.given ≡ Some result }
        ensures moves { self.new ≡ onward self.old 1 }
    {
        let block = block_at(&self.definition, self.count, self.next);
        self.next += 1;
        block
    }

    /// Hands out the next block, or None exactly at the path's end. What was handed out before, the block, and what is still to come
    /// make up the path.
    pub fn next(&mut self) -> Option<Block>
        ensures exact { result ≡ slice_get (path_of self.old.def) self.old.given }
        ensures end { IsNone result ↔ IsAtEnd self.old }
        ensures moves { self.new ≡ onward self.old 1 }
        ensures handed { IfSome result (λ block. behind self.new ≡ behind self.old ++ block ∷ []) }
        ensures rest { IfSome result (λ block. ahead self.old ≡ block ∷ ahead self.new) }
    {
        if self.next == self.count {
            return None;
        }
        Some(self.give())
    }

    /// Puts the next `most` blocks, or all that are left where these are fewer, to the blocks of a plan that were made so far. It
    /// answers `Filled::Whole` exactly where the path is complete then, else `Filled::More`.
    pub fn fill(&mut self, part: &mut PlanPart, most: u32) -> Filled
        requires some { 1 ≤ most }
        requires together { self.old ≡ part.old }
        ensures moves { self.new ≡ onward self.old most }
        ensures part { part.new ≡ onward part.old most }
        ensures whole { (result ≡ Whole) ↔ IsAtEnd part.new }
    {
        for _ in 0..most.min(self.left()) {
            part.push(self.give());
        }
        if self.left() == 0 {
            Filled::Whole
        } else {
            Filled::More
        }
    }
}
