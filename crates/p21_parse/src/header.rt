//! The header section: each method reads one thing of the grammar (ISO 10303-21, header section) from a token on, and gives it with the index
//! behind it.

ghost use Rattle.std.specs.Prelude.{◌≡◌, ◌+◌, ◌<◌, ◌≤◌, [], ◌∷◌, map, length, IfOk, IfErr, IsTrue, IsFalse, false};
ghost use Rattle.std.specs.List.{AllByRecursion};
ghost use Rattle.p21_parse.specs.Symbol.{keyword, semicolon, word, is_user};
ghost use Rattle.p21_parse.specs.Tree.{count, list, none, first};
ghost use Rattle.p21_parse.specs.Spell.{spell, spell_list, spell_entry, spell_all};
ghost use Rattle.p21_parse.specs.Grammar.{AreParameters, IsText, IsNamed, IsSchema, IsEntry, IsHead};
ghost use Rattle.p21_parse.specs.Nesting.{nestings, part_nesting, greatest};
ghost use Rattle.p21_parse.specs.View.{tree_of, trees_of, part_of};
ghost use Rattle.p21_parse.specs.Machine.{fixed, parameter, counted, named, schema, more_schemas, entries, endsec};
ghost use Rattle.p21_parse.specs.Parser.{IsParser, from, IsRead, IsRefused, AreNames, schema_entry, head_items, EntriesRead, IsEnd, IsNoEnd, EntryRead, EntriesRefused};

use crate::exchange::{Part, PartList};
use crate::limits::MAX_NESTING;
use crate::param::{Param, ParamList};
use crate::parser::{Parser, Stop};
use nc_base::{NcText, NoMemory};
use p21_lex::TokenKind;
use std::alloc::Global;

/// A list of one parameter, which is a list.
fn list_in_list(alloc: Global, params: ParamList) -> Result<ParamList, NoMemory>
    ensures { IfOk result (λ whole. trees_of whole ≡ first (list (trees_of params)) none) }
{
    let mut whole = ParamList::with_capacity(alloc, 1)?;
    whole.push(Param::List(params))?;
    Ok(whole)
}

impl Parser<'_> {
    /// A word, which is no user's keyword, and a semicolon.
    pub fn phrase(&self, at: usize, text: &[u8]) -> Result<usize, Stop>
        requires parser { IsParser self.now }
        requires at { at ≤ length self.now.tokens.now }
        requires plain { is_user text.now ≡ false }
        ensures read { IfOk result (λ next. IsRead self.now 0 0 (fixed (word text.now) ∷ fixed semicolon ∷ []) at next (λ r. word text.now ∷ semicolon ∷ r)) }
        ensures refused { IfErr result (IsRefused self.now 0 (fixed (word text.now) ∷ fixed semicolon ∷ []) at) }
    {
        let end = self.word(at, text)?;
        let next = self.mark(end, TokenKind::Semicolon)?;
        Ok(next)
    }

    /// The parameters of an entry behind its opening parenthesis, one and `more` others, and the closing one.
    fn counted(&self, alloc: Global, at: usize, more: u32) -> Result<(ParamList, usize), Stop>
        requires parser { IsParser self.now }
        requires at { at ≤ length self.now.tokens.now }
        ensures read { IfOk result (λ x. IsRead self.now 1 0 (parameter ∷ counted more []) at x.1 (spell_list (trees_of x.0))) }
        ensures count { IfOk result (λ x. count (trees_of x.0) ≡ more + 1) }
        ensures are { IfOk result (λ x. AreParameters (trees_of x.0) × (1 + nestings (trees_of x.0) ≤ MAX_NESTING)) }
        ensures refused { IfErr result (IsRefused self.now 1 (parameter ∷ counted more []) at) }
    {
        let mut params = ParamList::new(alloc);
        let (first, mut rest) = self.parameter(alloc, at, 1)?;
        params.push(first)?;
        let mut left = more;
        while left > 0 {
            let inner = self.mark(rest, TokenKind::Comma)?;
            let (next, after) = self.parameter(alloc, inner, 1)?;
            params.push(next)?;
            rest = after;
            left -= 1;
        }
        let next = self.mark(rest, TokenKind::Close)?;
        Ok((params, next))
    }

    /// An entry of this keyword with so many parameters more than one.
    pub fn named(
        &self,
        alloc: Global,
        at: usize,
        text: &[u8],
        more: u32,
    ) -> Result<(Part, usize), Stop>
        requires parser { IsParser self.now }
        requires at { at ≤ length self.now.tokens.now }
        requires plain { is_user text.now ≡ false }
        requires keyword { word text.now ≡ keyword text.now }
        ensures read { IfOk result (λ x. IsRead self.now 0 0 (named text.now more []) at x.1 (spell_entry (part_of x.0))) }
        ensures is { IfOk result (λ x. IsNamed text.now (more + 1) (part_of x.0) × (part_nesting (part_of x.0) ≤ MAX_NESTING)) }
        ensures refused { IfErr result (IsRefused self.now 0 (named text.now more []) at) }
    {
        let start = self.word(at, text)?;
        let inner = self.enter(start, 0)?;
        let (parameters, after) = self.counted(alloc, inner, more)?;
        let next = self.mark(after, TokenKind::Semicolon)?;
        let keyword = NcText::of(alloc, text)?;
        Ok((
            Part {
                keyword,
                parameters,
            },
            next,
        ))
    }

    /// A text.
    fn schema_name(&self, alloc: Global, at: usize) -> Result<(Param, usize), Stop>
        requires parser { IsParser self.now }
        requires at { at ≤ length self.now.tokens.now }
        ensures read { IfOk result (λ x. IsRead self.now 2 2 (schema ∷ []) at x.1 (spell (tree_of x.0))) }
        ensures is { IfOk result (λ x. IsText (tree_of x.0)) }
        ensures refused { IfErr result (IsRefused self.now 2 (schema ∷ []) at) }
    {
        match self.text(alloc, at)? {
            Some(text) => Ok((Param::Text(text), at + 1)),
            None => Err(Stop::Syntax(at)),
        }
    }

    /// One or more texts behind two opening parentheses, and one closing parenthesis.
    fn schema_names(&self, alloc: Global, at: usize) -> Result<(ParamList, usize), Stop>
        requires parser { IsParser self.now }
        requires at { at ≤ length self.now.tokens.now }
        ensures read { IfOk result (λ x. IsRead self.now 2 1 (schema ∷ more_schemas ∷ []) at x.1 (spell_list (trees_of x.0))) }
        ensures are { IfOk result (λ x. AreNames (trees_of x.0)) }
        ensures refused { IfErr result (IsRefused self.now 2 (schema ∷ more_schemas ∷ []) at) }
    {
        let mut names = ParamList::new(alloc);
        let (first, mut rest) = self.schema_name(alloc, at)?;
        names.push(first)?;
        while self.is_mark(rest, TokenKind::Comma) {
            let (next, after) = self.schema_name(alloc, rest + 1)?;
            names.push(next)?;
            rest = after;
        }
        if !self.is_mark(rest, TokenKind::Close) {
            return Err(Stop::Syntax(rest));
        }
        Ok((names, rest + 1))
    }

    /// The entry that names schemas.
    pub fn schema(&self, alloc: Global, at: usize) -> Result<(Part, usize), Stop>
        requires parser { IsParser self.now }
        requires at { at ≤ length self.now.tokens.now }
        ensures read { IfOk result (λ x. IsRead self.now 0 0 schema_entry at x.1 (spell_entry (part_of x.0))) }
        ensures is { IfOk result (λ x. IsSchema (part_of x.0) × (part_nesting (part_of x.0) ≤ MAX_NESTING)) }
        ensures refused { IfErr result (IsRefused self.now 0 schema_entry at) }
    {
        let start = self.word(at, b"FILE_SCHEMA")?;
        let outer = self.enter(start, 0)?;
        let inner = self.enter(outer, 1)?;
        let (names, after) = self.schema_names(alloc, inner)?;
        let close = self.mark(after, TokenKind::Close)?;
        let next = self.mark(close, TokenKind::Semicolon)?;
        let parameters = list_in_list(alloc, names)?;
        let keyword = NcText::of(alloc, b"FILE_SCHEMA")?;
        Ok((
            Part {
                keyword,
                parameters,
            },
            next,
        ))
    }

    /// Whether the word that ends the header stands at an index, and no entry of that keyword.
    fn is_end(&self, at: usize) -> bool
        requires { IsParser self.now }
        ensures found { IsTrue result → IsEnd self.now at }
        ensures none { IsFalse result → IsNoEnd (from self.now at) }
    {
        if !self.is_word_at(at, b"ENDSEC") {
            return false;
        }
        !self.is_mark(at + 1, TokenKind::Open)
    }

    /// A further entry.
    fn entry(&self, alloc: Global, at: usize) -> Result<(Part, usize), Stop>
        requires parser { IsParser self.now }
        requires at { at ≤ length self.now.tokens.now }
        requires goes { IsNoEnd (from self.now at) }
        ensures read { IfOk result (λ x. EntryRead self.now at x.1 (spell_entry (part_of x.0))) }
        ensures is { IfOk result (λ x. IsEntry (part_of x.0) × (part_nesting (part_of x.0) ≤ MAX_NESTING)) }
        ensures refused { IfErr result (EntriesRefused self.now at) }
    {
        let Some(word) = self.keyword(at) else {
            return Err(Stop::Syntax(at));
        };
        let inner = self.enter(at + 1, 0)?;
        let (parameters, after) = self.parameters(alloc, inner, 1)?;
        let next = self.mark(after, TokenKind::Semicolon)?;
        let keyword = NcText::of(alloc, word)?;
        Ok((
            Part {
                keyword,
                parameters,
            },
            next,
        ))
    }

    /// Further entries, which are put behind those read before, and the end of the header.
    fn entries(&self, alloc: Global, at: usize, before: PartList) -> Result<(PartList, usize), Stop>
        requires parser { IsParser self.now }
        requires at { at ≤ length self.now.tokens.now }
        ensures read { IfOk result (λ x. EntriesRead self.now at x.1 (map part_of before) (map part_of x.0)) }
        ensures refused { IfErr result (EntriesRefused self.now at) }
    {
        let mut entries = before;
        let mut rest = at;
        while !self.is_end(rest) {
            let (entry, after) = self.entry(alloc, rest)?;
            entries.push(entry)?;
            rest = after;
        }
        let next = self.mark(rest + 1, TokenKind::Semicolon)?;
        Ok((entries, next))
    }

    /// The entries of the header, and its end.
    pub fn head(&self, alloc: Global, at: usize) -> Result<(PartList, usize), Stop>
        requires parser { IsParser self.now }
        requires at { at ≤ length self.now.tokens.now }
        ensures read { IfOk result (λ x. IsRead self.now 0 0 head_items at x.1 (λ r. spell_all spell_entry (map part_of x.0) (endsec ∷ semicolon ∷ r))) }
        ensures is { IfOk result (λ x. IsHead (map part_of x.0) × (greatest part_nesting (map part_of x.0) ≤ MAX_NESTING)) }
        ensures refused { IfErr result (IsRefused self.now 0 head_items at) }
    {
        let (description, behind) = self.named(alloc, at, b"FILE_DESCRIPTION", 1)?;
        let (name, after) = self.named(alloc, behind, b"FILE_NAME", 6)?;
        let (schema, rest) = self.schema(alloc, after)?;
        let mut head = PartList::new(alloc);
        head.push(description)?;
        head.push(name)?;
        head.push(schema)?;
        let (entries, next) = self.entries(alloc, rest, head)?;
        Ok((entries, next))
    }
}
