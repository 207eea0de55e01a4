//! Edits, each from a token on.

ghost use Rattle.std.specs.Prelude.{◌≡◌, ◌+◌, ◌<◌, ◌≤◌, ℕ, length, IfOk, IfErr};
ghost use Rattle.p21_parse.specs.Following.{AreRefusedFrom};
ghost use Rattle.edit_script.specs.declared.limits.TheConstants.{MAX_ITEMS};
ghost use Rattle.edit_script.specs.Script.{EditTree};
ghost use Rattle.edit_script.specs.Source.{IsSource, IsHead, IsEditRead, IsWritten, TellsFrom};

use crate::error::ScriptErr;
use crate::limits::MAX_ITEMS;
use crate::source::{Source, Written};
use p21_parse::{ReadErr, instances};
use std::alloc::Global;

impl Source<'_> {
    /// Why no script goes on, where instances are refused behind the beginning of an edit.
    fn refused(&self, at: usize, moment: u32, e: ReadErr) -> ScriptErr
        requires source { IsSource self.now }
        requires head { IsHead self.now at moment }
        requires refused { AreRefusedFrom self.now.bytes.now self.now.tokens.now (at + 4) MAX_ITEMS e }
        ensures { (most : ℕ) → 0 < most → TellsFrom self.now most at result }
    {
        match e {
            ReadErr::Syntax(place) => ScriptErr::Syntax(place),
            ReadErr::TooDeep(place) => ScriptErr::TooDeep(place),
            ReadErr::TooMany(place) => ScriptErr::TooMany(place),
            ReadErr::NoMemory => ScriptErr::NoMemory,
            ReadErr::Lex(_) | ReadErr::Duplicate(_) => unreachable!(),
        }
    }

    /// The edit that begins at an index, and the index behind it.
    pub fn edit(&self, alloc: Global, at: usize) -> Result<(Written, usize), ScriptErr>
        requires source { IsSource self.now }
        requires at { at < length self.now.tokens.now }
        ensures read { IfOk result (λ x. (e : EditTree) × IsEditRead self.now at x.1 e × IsWritten x.0 e) }
        ensures refused { IfErr result (λ e. (most : ℕ) → 0 < most → TellsFrom self.now most at e) }
    {
        let moment = match self.head(at) {
            Ok(moment) => moment,
            Err(stop) => return Err(ScriptErr::Syntax(self.place(stop))),
        };
        let from = (at + 4) as u32;
        let (items, end) = match instances(alloc, self.bytes, self.tokens, from, MAX_ITEMS) {
            Ok(read) => read,
            Err(e) => return Err(self.refused(at, moment, e)),
        };
        if let Err(stop) = self.tail(end as usize) {
            return Err(ScriptErr::Syntax(self.place(stop)));
        }
        Ok((Written { at: moment, items }, end as usize + 2))
    }

    /// Why no script of edits goes on at an index, where there are as many as there may be.
    pub fn one_more(&self, at: usize) -> ScriptErr
        requires source { IsSource self.now }
        requires at { at < length self.now.tokens.now }
        ensures { TellsFrom self.now 0 at result }
    {
        let place = self.place(at);
        if self.is_word(at, b"EDIT") {
            ScriptErr::TooMany(place)
        } else {
            ScriptErr::Syntax(place)
        }
    }
}
