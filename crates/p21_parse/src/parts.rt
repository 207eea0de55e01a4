//! Parts and instances: each method reads one thing of the grammar (ISO 10303-21, entity instances) from a token on, and gives it with the
//! index behind it.

ghost use Rattle.std.specs.Prelude.{◌≡◌, ◌+◌, ◌<◌, ◌≤◌, [], ◌∷◌, map, length, IfOk, IfErr};
ghost use Rattle.std.specs.List.{AllByRecursion};
ghost use Rattle.p21_parse.specs.Symbol.{closing, opening, semicolon};
ghost use Rattle.p21_parse.specs.Spell.{spell_list, spell_part, spell_parts, spell_all, spell_instance};
ghost use Rattle.p21_parse.specs.Grammar.{AreParameters, IsPart, HasParts, IsInstance};
ghost use Rattle.p21_parse.specs.Nesting.{nestings, part_nesting, instance_nesting, greatest};
ghost use Rattle.p21_parse.specs.View.{trees_of, part_of, instance_of};
ghost use Rattle.p21_parse.specs.Machine.{fixed, parameter_list, part, more_parts, behind_name, body};
ghost use Rattle.p21_parse.specs.Parser.{IsParser, IsRead, IsRefused, AreRead, AreRefused, HasNoName, from, spell_behind_name};

use crate::exchange::{Instance, InstanceList, Part, PartList};
use crate::limits::MAX_NESTING;
use crate::param::ParamList;
use crate::parser::{Parser, Stop};
use nc_base::{NcText, Number};
use p21_lex::TokenKind;
use std::alloc::Global;

/// The parts of an instance.
#[derive(Drop)]
struct Body {
    complex: bool,
    parts: PartList,
}

impl Parser<'_> {
    /// The parameters of a part, in their parentheses.
    fn arguments(&self, alloc: Global, at: usize) -> Result<(ParamList, usize), Stop>
        requires parser { IsParser self.now }
        requires at { at ≤ length self.now.tokens.now }
        ensures read { IfOk result (λ x. IsRead self.now 0 0 (fixed opening ∷ parameter_list ∷ []) at x.1 (λ r. opening ∷ spell_list (trees_of x.0) r)) }
        ensures are { IfOk result (λ x. AreParameters (trees_of x.0) × (1 + nestings (trees_of x.0) ≤ MAX_NESTING)) }
        ensures refused { IfErr result (IsRefused self.now 0 (fixed opening ∷ parameter_list ∷ []) at) }
    {
        let inner = self.enter(at, 0)?;
        self.parameter_list(alloc, inner, 1)
    }

    /// A keyword and its parameters.
    fn part(&self, alloc: Global, at: usize) -> Result<(Part, usize), Stop>
        requires parser { IsParser self.now }
        requires at { at ≤ length self.now.tokens.now }
        ensures read { IfOk result (λ x. IsRead self.now 0 0 (part ∷ []) at x.1 (spell_part (part_of x.0))) }
        ensures is { IfOk result (λ x. IsPart (part_of x.0) × (part_nesting (part_of x.0) ≤ MAX_NESTING)) }
        ensures refused { IfErr result (IsRefused self.now 0 (part ∷ []) at) }
    {
        let Some(word) = self.keyword(at) else {
            return Err(Stop::Syntax(at));
        };
        let (parameters, next) = self.arguments(alloc, at + 1)?;
        let keyword = NcText::of(alloc, word)?;
        Ok((
            Part {
                keyword,
                parameters,
            },
            next,
        ))
    }

    /// The parts of a complex instance, and the closing parenthesis behind them.
    fn parts(&self, alloc: Global, at: usize) -> Result<(PartList, usize), Stop>
        requires parser { IsParser self.now }
        requires at { at ≤ length self.now.tokens.now }
        ensures read { IfOk result (λ x. IsRead self.now 0 0 (part ∷ more_parts ∷ []) at x.1 (λ r. spell_all spell_part (map part_of x.0) (closing ∷ r))) }
        ensures some { IfOk result (λ x. 0 < length (map part_of x.0)) }
        ensures are { IfOk result (λ x. AllByRecursion IsPart (map part_of x.0) × (greatest part_nesting (map part_of x.0) ≤ MAX_NESTING)) }
        ensures refused { IfErr result (IsRefused self.now 0 (part ∷ more_parts ∷ []) at) }
    {
        let mut parts = PartList::new(alloc);
        let (first, mut rest) = self.part(alloc, at)?;
        parts.push(first)?;
        while !self.is_mark(rest, TokenKind::Close) {
            let (next, after) = self.part(alloc, rest)?;
            parts.push(next)?;
            rest = after;
        }
        Ok((parts, rest + 1))
    }

    /// What stands behind the mark behind an instance's name: a part, or parts in parentheses.
    fn body(&self, alloc: Global, at: usize) -> Result<(Body, usize), Stop>
        requires parser { IsParser self.now }
        requires at { at ≤ length self.now.tokens.now }
        ensures read { IfOk result (λ x. IsRead self.now 0 0 (body ∷ []) at x.1 (spell_parts x.0.complex (map part_of x.0.parts))) }
        ensures has { IfOk result (λ x. HasParts x.0.complex (map part_of x.0.parts)) }
        ensures are { IfOk result (λ x. AllByRecursion IsPart (map part_of x.0.parts) × (greatest part_nesting (map part_of x.0.parts) ≤ MAX_NESTING)) }
        ensures refused { IfErr result (IsRefused self.now 0 (body ∷ []) at) }
    {
        if self.is_mark(at, TokenKind::Open) {
            let (parts, next) = self.parts(alloc, at + 1)?;
            let complex = true;
            return Ok((Body { complex, parts }, next));
        }
        let (part, next) = self.part(alloc, at)?;
        let mut parts = PartList::with_capacity(alloc, 1)?;
        parts.push(part)?;
        let complex = false;
        Ok((Body { complex, parts }, next))
    }

    /// The instance of this number, whose name stands before the index, and its semicolon.
    pub fn instance(
        &self,
        alloc: Global,
        number: Number,
        at: usize,
    ) -> Result<(Instance, usize), Stop>
        requires parser { IsParser self.now }
        requires at { at ≤ length self.now.tokens.now }
        ensures read { IfOk result (λ x. IsRead self.now 0 0 (behind_name ∷ fixed semicolon ∷ []) at x.1 (spell_behind_name (instance_of x.0))) }
        ensures is { IfOk result (λ x. IsInstance (instance_of x.0) × (instance_nesting (instance_of x.0) ≤ MAX_NESTING)) }
        ensures number { IfOk result (λ x. (instance_of x.0).number ≡ number) }
        ensures refused { IfErr result (IsRefused self.now 0 (behind_name ∷ fixed semicolon ∷ []) at) }
    {
        let start = self.mark(at, TokenKind::Equals)?;
        let (body, after) = self.body(alloc, start)?;
        let next = self.mark(after, TokenKind::Semicolon)?;
        let Body { complex, parts } = body;
        Ok((
            Instance {
                number,
                complex,
                parts,
            },
            next,
        ))
    }

    /// The instances from an index on, until no name follows.
    pub fn instances(&self, alloc: Global, at: usize) -> Result<(InstanceList, usize), Stop>
        requires parser { IsParser self.now }
        requires at { at ≤ length self.now.tokens.now }
        ensures read { IfOk result (λ x. AreRead self.now at x.1 (spell_all spell_instance (map instance_of x.0))) }
        ensures end { IfOk result (λ x. HasNoName (from self.now x.1)) }
        ensures are { IfOk result (λ x. AllByRecursion IsInstance (map instance_of x.0) × (greatest instance_nesting (map instance_of x.0) ≤ MAX_NESTING)) }
        ensures refused { IfErr result (AreRefused self.now at) }
    {
        let mut items = InstanceList::new(alloc);
        let mut rest = at;
        while let Some(number) = self.name(rest) {
            let (item, after) = self.instance(alloc, number, rest + 1)?;
            items.push(item)?;
            rest = after;
        }
        Ok((items, rest))
    }
}
