//! The rest of a text whose front was read before.

ghost use Rattle.std.specs.Prelude.{◌≡◌, ◌≤◌, List, length, map, take, drop, IfOk, IfErr};
ghost use Rattle.std.specs.List.{AllByRecursion};
ghost use Rattle.p21_lex.specs.Reading.{Reads, IsToken};
ghost use Rattle.p21_lex.specs.declared.token.Token.{Token};
ghost use Rattle.p21_parse.specs.declared.parser.Parser.{Parser};
ghost use Rattle.p21_parse.specs.Tree.{ExchangeTree};
ghost use Rattle.p21_parse.specs.Allowed.{own_number_of};
ghost use Rattle.p21_parse.specs.View.{instance_of};
ghost use Rattle.p21_parse.specs.Parser.{IsParser, RestRead};
ghost use Rattle.p21_parse.specs.Names.{before, AreFine, IsBehind};
ghost use Rattle.p21_parse.specs.Text.{IsText, IsRefusedText, IsRefusedTokens};
ghost use Rattle.p21_parse.specs.Front.{IsFront, GoesOn, with_items};

use crate::error::ReadErr;
use crate::exchange::InstanceList;
use crate::limits::MAX_INSTANCES;
use crate::names::Before;
use crate::parser::{Parser, Stop};
use nc_base::Number;
use p21_lex::{MAX_TEXT, Token, tokens_from};
use std::alloc::Global;

/// The tokens of a text from a place on, behind its front.
fn tokens_behind(alloc: Global, bytes: &[u8], from: u32) -> Result<Vec<Token>, ReadErr>
    requires short { length bytes.now ≤ MAX_TEXT }
    requires from { from ≤ length bytes.now }
    ensures found { IfOk result (λ v. Reads from v.items (drop from bytes.now)) }
    ensures inside { IfOk result (λ v. AllByRecursion (IsToken bytes.now) v.items) }
    ensures refused { IfErr result (λ e. (x : ExchangeTree) → IsFront (take from bytes.now) x → IsRefusedText bytes.now e) }
{
    let found = tokens_from(alloc, bytes, from)?;
    Ok(found)
}

impl Parser<'_> {
    /// The instances that stand behind the front of a file, up to the file's end.
    fn items_behind(&self, alloc: Global, earlier: &Before) -> Result<InstanceList, ReadErr>
        requires parser { IsParser self.now }
        requires short { length self.now.bytes.now ≤ MAX_TEXT }
        requires few { length earlier.now.numbers.now ≤ MAX_INSTANCES }
        ensures read { IfOk result (λ items. RestRead self.now 0 (map instance_of items)) }
        ensures fine { IfOk result (λ _. (s : Parser) (ts : List Token) → IsBehind s self.now ts earlier.now → AreFine (before s (length s.tokens.now))) }
        ensures refused { IfErr result (λ e. (s : Parser) (ts : List Token) → IsBehind s self.now ts earlier.now → GoesOn s self.now → IsRefusedTokens s e) }
    {
        match self.rest(alloc, 0) {
            Ok(items) => {
                self.check_names(alloc, earlier, self.tokens.len())?;
                Ok(items)
            }
            Err(Stop::Syntax(at)) => {
                self.check_names(alloc, earlier, at)?;
                Err(ReadErr::Syntax(self.place(at)))
            }
            Err(Stop::TooDeep(at)) => {
                self.check_names(alloc, earlier, at)?;
                Err(ReadErr::TooDeep(self.place(at)))
            }
            Err(Stop::NoMemory) => Err(ReadErr::NoMemory),
        }
    }
}

/// The instances in the rest of a text, from the place `from` (a byte offset) on. What stands before it is the front of a file, up to and with
/// a semicolon in the data section; it was read before and isn't looked at, and its instances have these `numbers`. So a long text is read
/// slice by slice, and what is left of it here, and the whole is refused as `read` refuses it, at the same place.
///
/// # Errors
/// Why the whole text is no file: as `read` says it.
pub fn read_behind(
    alloc: Global,
    bytes: &[u8],
    from: u32,
    numbers: &[Number],
) -> Result<InstanceList, ReadErr>
    requires short { length bytes.now ≤ MAX_TEXT }
    requires from { from ≤ length bytes.now }
    requires few { length numbers.now ≤ MAX_INSTANCES }
    // The whole text is a file: the front's header and instances, and then those that are found.
    ensures found { IfOk result (λ items. (x : ExchangeTree) → IsFront (take from bytes.now) x → map own_number_of x.items ≡ numbers.now
        → IsText bytes.now (with_items x (map instance_of items))) }
    ensures refused { IfErr result (λ e. (x : ExchangeTree) → IsFront (take from bytes.now) x → map own_number_of x.items ≡ numbers.now
        → IsRefusedText bytes.now e) }
{
    let tokens = tokens_behind(alloc, bytes, from)?;
    let parser = Parser {
        bytes,
        tokens: tokens.as_slice(),
    };
    let earlier = Before {
        numbers,
        is_marked: true,
    };
    parser.items_behind(alloc, &earlier)
}
