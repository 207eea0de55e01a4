//! A whole file (ISO 10303-21, exchange file).

ghost use Rattle.std.specs.Prelude.{◌≡◌, ◌≤◌, [], ◌∷◌, ◌++◌, map, length, IfOk, IfErr};
ghost use Rattle.p21_parse.specs.Symbol.{semicolon};
ghost use Rattle.p21_parse.specs.Spell.{spell_entry, spell_all};
ghost use Rattle.p21_parse.specs.Grammar.{IsHead};
ghost use Rattle.p21_parse.specs.Nesting.{part_nesting, greatest};
ghost use Rattle.p21_parse.specs.View.{part_of, instance_of, exchange_of};
ghost use Rattle.p21_parse.specs.Machine.{iso, header, data_word, endsec, end_iso, instances, end_items, file_items, run};
ghost use Rattle.p21_parse.specs.Parser.{IsParser, from, IsRead, IsRefused, start_items, last_items, spell_start, spell_last, RestRead, FileRead, FileStops};

use crate::exchange::{Exchange, InstanceList, PartList};
use crate::limits::MAX_NESTING;
use crate::parser::{Parser, Stop};
use std::alloc::Global;

impl Parser<'_> {
    /// The header, and the beginning of the data section.
    fn start(&self, alloc: Global) -> Result<(PartList, usize), Stop>
        requires { IsParser self.now }
        ensures read { IfOk result (λ x. IsRead self.now 0 0 start_items 0 x.1 (spell_start (map part_of x.0))) }
        ensures is { IfOk result (λ x. IsHead (map part_of x.0) × (greatest part_nesting (map part_of x.0) ≤ MAX_NESTING)) }
        ensures refused { IfErr result (IsRefused self.now 0 start_items 0) }
    {
        let behind = self.phrase(0, b"ISO-10303-21")?;
        let at = self.phrase(behind, b"HEADER")?;
        let (head, end) = self.head(alloc, at)?;
        let next = self.phrase(end, b"DATA")?;
        Ok((head, next))
    }

    /// The ends of the data section and of the file.
    fn last(&self, at: usize) -> Result<usize, Stop>
        requires parser { IsParser self.now }
        requires at { at ≤ length self.now.tokens.now }
        ensures read { IfOk result (λ next. IsRead self.now 0 0 last_items at next spell_last) }
        ensures refused { IfErr result (IsRefused self.now 0 last_items at) }
    {
        let end = self.phrase(at, b"ENDSEC")?;
        let next = self.phrase(end, b"END-ISO-10303-21")?;
        Ok(next)
    }

    /// The instances from an index on, and behind them the ends of the data section and of the file, up to the last token.
    pub fn rest(&self, alloc: Global, at: usize) -> Result<InstanceList, Stop>
        requires parser { IsParser self.now }
        requires at { at ≤ length self.now.tokens.now }
        ensures read { IfOk result (λ items. RestRead self.now at (map instance_of items)) }
        ensures refused { IfErr result (λ e. FileStops self.now e (run MAX_NESTING 0 (instances ∷ end_items) (from self.now at))) }
    {
        let (items, rest) = self.instances(alloc, at)?;
        let end = self.last(rest)?;
        if end < self.tokens.len() {
            return Err(Stop::Syntax(end));
        }
        Ok(items)
    }

    /// The exchange that all tokens spell.
    pub fn file(&self, alloc: Global) -> Result<Exchange, Stop>
        requires { IsParser self.now }
        ensures read { IfOk result (λ x. FileRead self.now (exchange_of x)) }
        ensures refused { IfErr result (λ e. FileStops self.now e (run MAX_NESTING 0 file_items (from self.now 0))) }
    {
        let (head, at) = self.start(alloc)?;
        let items = self.rest(alloc, at)?;
        Ok(Exchange { head, items })
    }
}
