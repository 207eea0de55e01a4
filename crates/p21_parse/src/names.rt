//! The names of a file's instances: which is one too many, and which stands a second time. The tokens may be those of the
//! rest of a text whose front was read before.

ghost use Rattle.std.specs.Prelude.{◌≡◌, ◌<◌, ◌≤◌, ◌+◌, ◌∷◌, [], false, List, length, option_map, IfOk, IfSome, IfNone};
ghost use Rattle.p21_lex.specs.declared.token.Token.{Token};
ghost use Rattle.p21_parse.specs.declared.parser.Parser.{Parser};
ghost use Rattle.p21_parse.specs.Parser.{IsParser};
ghost use Rattle.p21_parse.specs.Names.{IsBehind, IsOwn, HasNoOwn, AreOwn, NamesAre, fault_behind};

use crate::limits::MAX_INSTANCES;
use crate::parser::Parser;
use crate::repeat::first_repeat;
use nc_base::{NoMemory, Number};
use p21_lex::TokenKind;
use std::alloc::Global;

/// What is wrong with the names of instances.
#[derive(Clone, Copy)]
pub enum NameFault {
    /// The name at this index is one too many.
    TooMany(usize),
    /// The number of an instance stands a second time.
    Duplicate(Number),
}

/// What was read before the first of a parser's tokens.
#[derive(Clone, Copy)]
pub struct Before<'a> {
    /// The numbers of the instances there, in file order.
    pub numbers: &'a [Number],
    /// Whether the last token there is a semicolon, so that a name behind it is an instance's own.
    pub is_marked: bool,
}

impl Before<'_> {
    /// Nothing: the parser has a whole text.
    pub fn nothing() -> Before<'static>
        ensures numbers { result.numbers.now ≡ [] }
        ensures marked { result.is_marked ≡ false }
    {
        Before {
            numbers: &[],
            is_marked: false,
        }
    }
}

impl Parser<'_> {
    /// The number of the instance whose own name stands at an index, if one does: a name behind a semicolon.
    fn own_name(&self, earlier: &Before, at: usize) -> Option<Number>
        requires { IsParser self.now }
        ensures found { IfSome result (λ number. (s : Parser) (ts : List Token) → IsBehind s self.now ts earlier.now → IsOwn s (length ts + at) number) }
        ensures none { IfNone result ((s : Parser) (ts : List Token) → IsBehind s self.now ts earlier.now → HasNoOwn s (length ts + at)) }
    {
        if at == 0 {
            return self.first_name(earlier);
        }
        if !self.is_mark(at - 1, TokenKind::Semicolon) {
            return None;
        }
        self.name(at)
    }

    /// The number of the instance whose own name the first token is, if it is one.
    fn first_name(&self, earlier: &Before) -> Option<Number>
        requires { IsParser self.now }
        ensures found { IfSome result (λ number. (s : Parser) (ts : List Token) → IsBehind s self.now ts earlier.now → IsOwn s (length ts) number) }
        ensures none { IfNone result ((s : Parser) (ts : List Token) → IsBehind s self.now ts earlier.now → HasNoOwn s (length ts)) }
    {
        if !earlier.is_marked {
            return None;
        }
        self.name(0)
    }

    /// The numbers of instances up to a token, at most as many as a file may have, and where the name of one more stands, if one does.
    fn own_numbers(
        &self,
        alloc: Global,
        earlier: &Before,
        end: usize,
    ) -> Result<(Vec<Number>, Option<usize>), NoMemory>
        requires parser { IsParser self.now }
        requires few { length earlier.now.numbers.now ≤ MAX_INSTANCES }
        requires end { end ≤ length self.now.tokens.now }
        ensures { IfOk result (λ r. (s : Parser) (ts : List Token) → IsBehind s self.now ts earlier.now
            → AreOwn s (length ts + end) r.0.items (option_map (λ at. length ts + at) r.1)) }
    {
        let mut numbers = Vec::from_slice(alloc, earlier.numbers)?;
        for at in 0..end {
            let Some(number) = self.own_name(earlier, at) else {
                continue;
            };
            if numbers.len() >= MAX_INSTANCES {
                return Ok((numbers, Some(at)));
            }
            numbers.push(number)?;
        }
        Ok((numbers, None))
    }

    /// The first fault of the names of instances up to a token.
    pub fn name_fault(
        &self,
        alloc: Global,
        earlier: &Before,
        end: usize,
    ) -> Result<Option<NameFault>, NoMemory>
        requires parser { IsParser self.now }
        requires few { length earlier.now.numbers.now ≤ MAX_INSTANCES }
        requires end { end ≤ length self.now.tokens.now }
        ensures { IfOk result (λ fault. (s : Parser) (ts : List Token) → IsBehind s self.now ts earlier.now
            → NamesAre s (length ts + end) (fault_behind (length ts) fault)) }
    {
        let (numbers, one_more) = self.own_numbers(alloc, earlier, end)?;
        if let Some(again) = first_repeat(alloc, numbers.as_slice())? {
            return Ok(Some(NameFault::Duplicate(numbers[again])));
        }
        match one_more {
            Some(at) => Ok(Some(NameFault::TooMany(at))),
            None => Ok(None),
        }
    }
}
