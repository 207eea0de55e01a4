//! Instances alone, as they stand in the scripts of edits.

ghost use Rattle.std.specs.Prelude.{◌≡◌, ◌≤◌, Ok, map, length, IfOk, IfErr};
ghost use Rattle.p21_lex.specs.Tokens.{tokens_of};
ghost use Rattle.p21_parse.specs.View.{instance_of};
ghost use Rattle.p21_parse.specs.Parser.{IsParser};
ghost use Rattle.p21_parse.specs.Following.{AreInstancesFrom, AreRefusedFrom, IsFaultOf};

use crate::error::ReadErr;
use crate::exchange::InstanceList;
use crate::parser::{Parser, Stop};
use p21_lex::{MAX_TEXT, Token, tokens_fit};
use std::alloc::Global;

impl Parser<'_> {
    /// Why reading stopped, with its place.
    fn fault(&self, stop: Stop) -> ReadErr
        requires { length self.now.bytes.now ≤ MAX_TEXT }
        ensures { IsFaultOf self.now stop result }
    {
        match stop {
            Stop::Syntax(at) => ReadErr::Syntax(self.place(at)),
            Stop::TooDeep(at) => ReadErr::TooDeep(self.place(at)),
            Stop::NoMemory => ReadErr::NoMemory,
        }
    }

    /// The instances from an index on, of which there may be so many, until no name follows.
    fn following(
        &self,
        alloc: Global,
        from: usize,
        most: u32,
    ) -> Result<(InstanceList, usize), ReadErr>
        requires parser { IsParser self.now }
        requires short { length self.now.bytes.now ≤ MAX_TEXT }
        requires from { from ≤ length self.now.tokens.now }
        ensures found { IfOk result (λ x. AreInstancesFrom self.now.bytes.now self.now.tokens.now from most (map instance_of x.0) x.1) }
        ensures refused { IfErr result (AreRefusedFrom self.now.bytes.now self.now.tokens.now from most) }
    {
        let mut items = InstanceList::new(alloc);
        let mut rest = from;
        while let Some(number) = self.name(rest) {
            if items.len() >= most {
                return Err(ReadErr::TooMany(self.place(rest)));
            }
            let (item, after) = match self.instance(alloc, number, rest + 1) {
                Ok(read) => read,
                Err(stop) => return Err(self.fault(stop)),
            };
            items.push(item)?;
            rest = after;
        }
        Ok((items, rest))
    }
}

/// The instances that follow each other from the token at index `from` on, until the next token is no name, and that token's
/// index. There may be at most `most` of them; a number may come twice (ISO 10303-21, entity instances).
///
/// # Errors
/// Whichever refusal stands at the earliest token: `Syntax` or `TooDeep` inside an instance, or `TooMany` at the name of an instance
/// more than `most`. Or `NoMemory`, where memory runs out. Never `Lex` or `Duplicate`.
pub fn instances(
    alloc: Global,
    bytes: &[u8],
    tokens: &[Token],
    from: u32,
    most: u32,
) -> Result<(InstanceList, u32), ReadErr>
    requires short { length bytes.now ≤ MAX_TEXT }
    requires tokens { tokens_of bytes.now ≡ Ok tokens.now }
    requires from { from ≤ length tokens.now }
    ensures found { IfOk result (λ x. AreInstancesFrom bytes.now tokens.now from most (map instance_of x.0) x.1) }
    ensures refused { IfErr result (AreRefusedFrom bytes.now tokens.now from most) }
{
    tokens_fit(bytes, tokens);
    let parser = Parser { bytes, tokens };
    let (items, next) = parser.following(alloc, from as usize, most)?;
    Ok((items, next as u32))
}
