//! Reading a text.

ghost use Rattle.std.specs.Prelude.{◌≡◌, ◌≤◌, ◌+◌, ◌-◌, length, drop, IfOk, IfErr, ℕ, List, ◌⊎◌};
ghost use Rattle.std.specs.List.{AllByRecursion};
ghost use Rattle.p21_lex.specs.Reading.{Reads, IsToken};
ghost use Rattle.p21_parse.specs.declared.error.ReadErr.{ReadErr};
ghost use Rattle.p21_parse.specs.declared.error.ReadErr.TheVariants as errors;
ghost use Rattle.p21_parse.specs.Tree.{ExchangeTree};
ghost use Rattle.p21_parse.specs.Spelled.{IsSpelled};
ghost use Rattle.p21_parse.specs.View.{exchange_of};
ghost use Rattle.p21_parse.specs.Places.{start_of};
ghost use Rattle.p21_parse.specs.Parser.{IsParser};
ghost use Rattle.p21_lex.specs.declared.token.Token.{Token};
ghost use Rattle.p21_parse.specs.declared.parser.Parser.{Parser};
ghost use Rattle.p21_parse.specs.Names.{before, AreFine, IsBehind};
ghost use Rattle.p21_parse.specs.Text.{IsText, IsRefusedText, IsExchangeOf, IsRefusedTokens, NamesRefuse};

use crate::error::ReadErr;
use crate::exchange::Exchange;
use crate::laws::grammar_laws;
use crate::limits::MAX_INSTANCES;
use crate::names::{Before, NameFault};
use crate::parser::{Parser, Stop};
use p21_lex::{MAX_TEXT, Token, reading_laws, tokens};
use std::alloc::Global;

/// The tokens of a text.
fn tokens_of(alloc: Global, bytes: &[u8]) -> Result<Vec<Token>, ReadErr>
    requires { length bytes.now ≤ MAX_TEXT }
    ensures found { IfOk result (λ v. Reads 0 v.items bytes.now) }
    ensures inside { IfOk result (λ v. AllByRecursion (IsToken bytes.now) v.items) }
    ensures refused { IfErr result (IsRefusedText bytes.now) }
{
    let found = tokens(alloc, bytes)?;
    Ok(found)
}

impl Parser<'_> {
    /// Where the token at an index begins: a byte offset, at the end the text's length.
    pub fn place(&self, at: usize) -> u32
        requires { length self.now.bytes.now ≤ MAX_TEXT }
        ensures { result ≡ start_of self.now.bytes.now (drop at self.now.tokens.now) }
    {
        match self.tokens.get(at) {
            Some(token) => token.start,
            None => self.bytes.len() as u32,
        }
    }

    /// Looks at the names of instances up to a token.
    pub fn check_names(&self, alloc: Global, earlier: &Before, end: usize) -> Result<(), ReadErr>
        requires parser { IsParser self.now }
        requires short { length self.now.bytes.now ≤ MAX_TEXT }
        requires few { length earlier.now.numbers.now ≤ MAX_INSTANCES }
        requires end { end ≤ length self.now.tokens.now }
        ensures fine { IfOk result (λ _. (s : Parser) (ts : List Token) → IsBehind s self.now ts earlier.now → AreFine (before s (length ts + end))) }
        ensures refused { IfErr result (λ e. (s : Parser) (ts : List Token) → IsBehind s self.now ts earlier.now → NamesRefuse s (length ts + end) e) }
    {
        match self.name_fault(alloc, earlier, end)? {
            None => Ok(()),
            Some(NameFault::TooMany(at)) => Err(ReadErr::TooMany(self.place(at))),
            Some(NameFault::Duplicate(number)) => Err(ReadErr::Duplicate(number)),
        }
    }

    /// The exchange that the tokens spell.
    fn exchange(&self, alloc: Global) -> Result<Exchange, ReadErr>
        requires parser { IsParser self.now }
        requires short { length self.now.bytes.now ≤ MAX_TEXT }
        ensures read { IfOk result (λ x. IsExchangeOf self.now (exchange_of x)) }
        ensures refused { IfErr result (IsRefusedTokens self.now) }
    {
        let nothing = Before::nothing();
        match self.file(alloc) {
            Ok(exchange) => {
                self.check_names(alloc, &nothing, self.tokens.len())?;
                Ok(exchange)
            }
            Err(Stop::Syntax(at)) => {
                self.check_names(alloc, &nothing, at)?;
                Err(ReadErr::Syntax(self.place(at)))
            }
            Err(Stop::TooDeep(at)) => {
                self.check_names(alloc, &nothing, at)?;
                Err(ReadErr::TooDeep(self.place(at)))
            }
            Err(Stop::NoMemory) => Err(ReadErr::NoMemory),
        }
    }
}

/// The exchange that a text of at most `MAX_TEXT` bytes holds (ISO 10303-21, clear text encoding, in this profile).
///
/// # Errors
/// The first fault of the text's tokens. Where there is none, of the other refusals that which stands at the earliest token; where too
/// many instances and a number that comes twice stand at one, there are too many. Or `NoMemory`, where memory runs out.
pub fn read(alloc: Global, bytes: &[u8]) -> Result<Exchange, ReadErr>
    requires { length bytes.now ≤ MAX_TEXT }
    ensures found { IfOk result (λ x. IsText bytes.now (exchange_of x)) }
    ensures refused { IfErr result (IsRefusedText bytes.now) }
{
    let tokens = tokens_of(alloc, bytes)?;
    let parser = Parser {
        bytes,
        tokens: tokens.as_slice(),
    };
    parser.exchange(alloc)
}

/// A text holds one exchange at most, or it is refused for one reason, but never both. What a text holds can be written. It does nothing.
pub fn text_laws()
    ensures one { (bytes : List ℕ) (x y : ExchangeTree) → IsText bytes x → IsText bytes y → x ≡ y }
    ensures apart { (bytes : List ℕ) (x : ExchangeTree) (e : ReadErr) → IsText bytes x → IsRefusedText bytes e → e ≡ errors.NoMemory }
    ensures single { (bytes : List ℕ) (e f : ReadErr) → IsRefusedText bytes e → IsRefusedText bytes f → (e ≡ f) ⊎ ((e ≡ errors.NoMemory) ⊎ (f ≡ errors.NoMemory)) }
    ensures spelled { (bytes : List ℕ) (x : ExchangeTree) → IsText bytes x → IsSpelled x }
{
    reading_laws();
    grammar_laws();
}
