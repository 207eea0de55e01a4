//! Parameters: recursive descent over tokens. Each method reads one thing of the grammar (ISO 10303-21, exchange structure) from a token on,
//! and gives it with the index behind it. `n` is how many parentheses are open.

ghost use Rattle.std.specs.Prelude.{◌≡◌, ◌+◌, ◌<◌, ◌≤◌, [], ◌∷◌, length, pred, IfOk, IfErr};
ghost use Rattle.p21_parse.specs.Symbol.{keyword, opening};
ghost use Rattle.p21_parse.specs.Tree.{list, typed, none, first, count};
ghost use Rattle.p21_parse.specs.Spell.{spell, spell_list};
ghost use Rattle.p21_parse.specs.Grammar.{IsParameter, AreParameters};
ghost use Rattle.p21_parse.specs.Nesting.{nesting, nestings};
ghost use Rattle.p21_parse.specs.View.{tree_of, trees_of};
ghost use Rattle.p21_parse.specs.Machine.{parameter, parameter_list, more_parameters};
ghost use Rattle.p21_parse.specs.Parser.{IsParser, Has, IsRead, IsRefused};

use crate::limits::MAX_NESTING;
use crate::param::{Param, ParamList};
use crate::parser::{Parser, Stop};
use nc_base::{NcText, NoMemory};
use p21_lex::TokenKind;
use std::alloc::Global;

/// For how many parameters a list gets room at once: one that is longer grows, so that a text which only promises parameters takes little memory.
const MOST_ROOM: u32 = 65_536;

/// The parameter of a keyword and one parameter.
fn typed_of(alloc: Global, word: &[u8], param: Param) -> Result<Param, NoMemory>
    ensures { IfOk result (λ whole. tree_of whole ≡ typed word.now (first (tree_of param) none)) }
{
    let mut params = ParamList::with_capacity(alloc, 1)?;
    params.push(param)?;
    Ok(Param::Typed(NcText::of(alloc, word)?, params))
}

/// The parameter that a list is.
fn list_of(params: ParamList) -> Param
    ensures { tree_of result ≡ list (trees_of params) }
{
    Param::List(params)
}

impl Parser<'_> {
    /// For how many parameters a list gets room, whose first stands at the index: as many as its commas say, within bounds.
    /// It is no promise of what follows.
    fn width(&self, at: usize) -> u32
        requires { at ≤ length self.now.tokens.now }
        ensures { result ≤ MOST_ROOM }
    {
        let mut inner: u32 = 0;
        let mut commas: u32 = 0;
        for token in &self.tokens[at..] {
            let kind = token.kind;
            if kind == TokenKind::Comma && inner == 0 {
                commas = commas.saturating_add(1);
            } else if kind == TokenKind::Open {
                inner = inner.saturating_add(1);
            } else if kind == TokenKind::Close && inner > 0 {
                inner -= 1;
            } else if kind == TokenKind::Close || kind == TokenKind::Semicolon {
                break;
            }
        }
        commas.saturating_add(1).min(MOST_ROOM)
    }

    /// A parameter.
    #[cycle(params)]
    pub fn parameter(&self, alloc: Global, at: usize, n: u32) -> Result<(Param, usize), Stop>
        requires parser { IsParser self.now }
        requires at { at ≤ length self.now.tokens.now }
        requires nest { n ≤ MAX_NESTING }
        ensures read { IfOk result (λ x. IsRead self.now n n (parameter ∷ []) at x.1 (spell (tree_of x.0))) }
        ensures is { IfOk result (λ x. IsParameter (tree_of x.0) × (n + nesting (tree_of x.0) ≤ MAX_NESTING)) }
        ensures refused { IfErr result (IsRefused self.now n (parameter ∷ []) at) }
    {
        if let Some(word) = self.keyword(at) {
            return self.typed(alloc, word, at, n);
        }
        if self.is_mark(at, TokenKind::Open) {
            return self.list(alloc, at, n);
        }
        match self.value(alloc, at)? {
            Some(param) => Ok((param, at + 1)),
            None => Err(Stop::Syntax(at)),
        }
    }

    /// A typed parameter, whose keyword stands at the index.
    #[cycle(params)]
    fn typed(&self, alloc: Global, word: &[u8], at: usize, n: u32) -> Result<(Param, usize), Stop>
        requires parser { IsParser self.now }
        requires nest { n ≤ MAX_NESTING }
        requires word { Has self.now at (keyword word.now) }
        ensures read { IfOk result (λ x. IsRead self.now n n (parameter ∷ []) at x.1 (spell (tree_of x.0))) }
        ensures is { IfOk result (λ x. IsParameter (tree_of x.0) × (n + nesting (tree_of x.0) ≤ MAX_NESTING)) }
        ensures refused { IfErr result (IsRefused self.now n (parameter ∷ []) at) }
    {
        let inner = self.enter(at + 1, n)?;
        let (param, after) = self.parameter(alloc, inner, n + 1)?;
        let next = self.mark(after, TokenKind::Close)?;
        Ok((typed_of(alloc, word, param)?, next))
    }

    /// A list, whose opening parenthesis stands at the index.
    #[cycle(params)]
    fn list(&self, alloc: Global, at: usize, n: u32) -> Result<(Param, usize), Stop>
        requires parser { IsParser self.now }
        requires nest { n ≤ MAX_NESTING }
        requires mark { Has self.now at opening }
        ensures read { IfOk result (λ x. IsRead self.now n n (parameter ∷ []) at x.1 (spell (tree_of x.0))) }
        ensures is { IfOk result (λ x. IsParameter (tree_of x.0) × (n + nesting (tree_of x.0) ≤ MAX_NESTING)) }
        ensures refused { IfErr result (IsRefused self.now n (parameter ∷ []) at) }
    {
        if n >= MAX_NESTING {
            return Err(Stop::TooDeep(at));
        }
        let (params, next) = self.parameter_list(alloc, at + 1, n + 1)?;
        Ok((list_of(params), next))
    }

    /// Parameters or nothing behind an opening parenthesis, which is counted in `n`, and the closing one.
    #[cycle(params)]
    pub fn parameter_list(
        &self,
        alloc: Global,
        at: usize,
        n: u32,
    ) -> Result<(ParamList, usize), Stop>
        requires parser { IsParser self.now }
        requires at { at ≤ length self.now.tokens.now }
        requires nest { n ≤ MAX_NESTING }
        ensures read { IfOk result (λ x. IsRead self.now n (pred n) (parameter_list ∷ []) at x.1 (spell_list (trees_of x.0))) }
        ensures are { IfOk result (λ x. AreParameters (trees_of x.0) × (n + nestings (trees_of x.0) ≤ MAX_NESTING)) }
        ensures refused { IfErr result (IsRefused self.now n (parameter_list ∷ []) at) }
    {
        if self.is_mark(at, TokenKind::Close) {
            return Ok((ParamList::new(alloc), at + 1));
        }
        self.parameters(alloc, at, n)
    }

    /// One or more parameters behind an opening parenthesis, which is counted in `n`, and the closing one.
    #[cycle(params)]
    pub fn parameters(&self, alloc: Global, at: usize, n: u32) -> Result<(ParamList, usize), Stop>
        requires parser { IsParser self.now }
        requires at { at ≤ length self.now.tokens.now }
        requires nest { n ≤ MAX_NESTING }
        ensures read { IfOk result (λ x. IsRead self.now n (pred n) (parameter ∷ more_parameters ∷ []) at x.1 (spell_list (trees_of x.0))) }
        ensures some { IfOk result (λ x. 0 < count (trees_of x.0)) }
        ensures are { IfOk result (λ x. AreParameters (trees_of x.0) × (n + nestings (trees_of x.0) ≤ MAX_NESTING)) }
        ensures refused { IfErr result (IsRefused self.now n (parameter ∷ more_parameters ∷ []) at) }
    {
        let mut params = ParamList::with_capacity(alloc, self.width(at))?;
        let (first, mut rest) = self.parameter(alloc, at, n)?;
        params.push(first)?;
        while self.is_mark(rest, TokenKind::Comma) {
            let (next, after) = self.parameter(alloc, rest + 1, n)?;
            params.push(next)?;
            rest = after;
        }
        if !self.is_mark(rest, TokenKind::Close) {
            return Err(Stop::Syntax(rest));
        }
        Ok((params, rest + 1))
    }
}
