//! The tokens of a text, which are read from any of them on.

ghost use Rattle.std.specs.Prelude.{◌≡◌, ◌+◌, ◌<◌, ◌≤◌, ℕ, List, ◌∷◌, [], length, IfOk, IfErr, IfSome, IfNone, IsTrue, IsFalse, true, false};
ghost use Rattle.std.specs.Option.{option_map};
ghost use Rattle.p21_lex.specs.Reading.{IsToken};
ghost use Rattle.p21_lex.specs.declared.token.TokenKind.TheVariants as kinds;
ghost use Rattle.p21_parse.specs.Symbol.{Symbol, value, keyword, name, opening, text_of, inside, symbol_of, word, is_user};
ghost use Rattle.p21_parse.specs.View.{tree_of};
ghost use Rattle.p21_parse.specs.Machine.{Item, fixed, same};
ghost use Rattle.p21_parse.specs.Parser.{IsParser, from, Stands, Has, IsMark, IsNotHead, HasNoKeyword, HasNoName, HasNoValue, HasNoText, IsValue, IsRefused, IsOther, is_marked, value_at, keyword_at};

use crate::limits::MAX_NESTING;
use crate::param::Param;
use nc_base::{NcText, NoMemory, Number};
use p21_lex::{Token, TokenKind, name_number};
use std::alloc::{AllocError, AllocFailed, Global};

/// A text and its tokens.
#[derive(Clone, Copy)]
pub struct Parser<'a> {
    pub bytes: &'a [u8],
    pub tokens: &'a [Token],
}

/// Why reading stops, and at which token.
#[derive(Clone, Copy)]
pub enum Stop {
    /// Nothing of the grammar goes on with the token at this index, or with the end.
    Syntax(usize),
    /// The parenthesis at this index is one too many.
    TooDeep(usize),
    /// Memory ran out.
    NoMemory,
}

impl From<AllocError> for Stop {
    ghost use Rattle.p21_parse.specs.declared.parser.Stop.TheVariants.{NoMemory};

    ghost from_gives = { λ _ e. e ≡ NoMemory };

    fn from(_e: AllocError) -> Stop {
        Stop::NoMemory
    }
}

impl<T: Drop> From<AllocFailed<T>> for Stop {
    ghost use Rattle.p21_parse.specs.declared.parser.Stop.TheVariants.{NoMemory};

    ghost from_gives = { λ _ e. e ≡ NoMemory };

    fn from(_e: AllocFailed<T>) -> Stop {
        Stop::NoMemory
    }
}

impl From<NoMemory> for Stop {
    ghost use Rattle.p21_parse.specs.declared.parser.Stop.TheVariants.{NoMemory};

    ghost from_gives = { λ _ e. e ≡ NoMemory };

    fn from(_e: NoMemory) -> Stop {
        Stop::NoMemory
    }
}

/// The bytes of a token.
fn text_of(bytes: &[u8], token: Token) -> &[u8]
    requires { IsToken bytes.now token }
    ensures { result.now ≡ text_of bytes.now token }
{
    &bytes[token.start as usize..token.end as usize]
}

/// The bytes of a token between its first and its last.
fn inside(bytes: &[u8], token: Token) -> &[u8]
    requires inside { IsToken bytes.now token }
    requires marked { is_marked token.kind ≡ true }
    ensures { result.now ≡ inside (text_of bytes.now token) }
{
    let text = text_of(bytes, token);
    &text[1..text.len() - 1]
}

/// The parameter that a token is by itself, if it is one.
fn value_of(alloc: Global, bytes: &[u8], token: Token) -> Result<Option<Param>, NoMemory>
    requires { IsToken bytes.now token }
    ensures { IfOk result (λ found. option_map tree_of found ≡ value_at (symbol_of bytes.now token)) }
{
    match token.kind {
        TokenKind::Int => Ok(Some(Param::Int(NcText::of(alloc, text_of(bytes, token))?))),
        TokenKind::Real => Ok(Some(Param::Real(NcText::of(alloc, text_of(bytes, token))?))),
        TokenKind::Text => Ok(Some(Param::Text(NcText::of(alloc, inside(bytes, token))?))),
        TokenKind::Enumeration => {
            Ok(Some(Param::Enumeration(NcText::of(alloc, inside(bytes, token))?)))
        }
        TokenKind::Binary => Ok(Some(Param::Binary(NcText::of(alloc, inside(bytes, token))?))),
        TokenKind::Name => Ok(Some(Param::Reference(name_number(text_of(bytes, token))))),
        TokenKind::Dollar => Ok(Some(Param::Unset)),
        TokenKind::Star => Ok(Some(Param::Derived)),
        _ => Ok(None),
    }
}

/// The bytes of a token that is a keyword.
fn keyword_of(bytes: &[u8], token: Token) -> Option<&[u8]>
    requires { IsToken bytes.now token }
    ensures { option_map (λ text. text.now) result ≡ keyword_at (symbol_of bytes.now token) }
{
    let text = text_of(bytes, token);
    match token.kind {
        TokenKind::UserWord => Some(text),
        TokenKind::Word => {
            if text.contains(&b'-') {
                None
            } else {
                Some(text)
            }
        }
        _ => None,
    }
}

/// Whether a token is this word, which is no user's keyword.
fn is_word(bytes: &[u8], token: Token, text: &[u8]) -> bool
    requires inside { IsToken bytes.now token }
    requires plain { is_user text.now ≡ false }
    ensures { result ≡ same (word text.now) (symbol_of bytes.now token) }
{
    match token.kind {
        TokenKind::Word => text == text_of(bytes, token),
        _ => false,
    }
}

impl Parser<'_> {
    /// The token at index `at`, counted from 0, if there is one.
    fn token(&self, at: usize) -> Option<Token>
        requires { IsParser self.now }
        ensures found { IfSome result (Stands self.now at) }
        ensures none { IfNone result (from self.now at ≡ []) }
    {
        self.tokens.get(at).copied()
    }

    /// Whether a mark stands at an index.
    pub fn is_mark(&self, at: usize, kind: TokenKind) -> bool
        requires { IsParser self.now }
        ensures found { IsTrue result → (m : Symbol) → IsMark kind m → Has self.now at m }
        ensures none { IsFalse result → (m : Symbol) → IsMark kind m → IsNotHead m (from self.now at) }
    {
        match self.token(at) {
            Some(token) => token.kind == kind,
            None => false,
        }
    }

    /// The index behind a mark.
    pub fn mark(&self, at: usize, kind: TokenKind) -> Result<usize, Stop>
        requires parser { IsParser self.now }
        requires at { at ≤ length self.now.tokens.now }
        ensures next { IfOk result (λ next. next ≡ at + 1) }
        ensures found { IfOk result (λ _. (m : Symbol) → IsMark kind m → Has self.now at m) }
        ensures refused { IfErr result (λ e. (m : Symbol) (n : ℕ) → IsMark kind m → IsRefused self.now n (fixed m ∷ []) at e) }
    {
        if !self.is_mark(at, kind) {
            return Err(Stop::Syntax(at));
        }
        Ok(at + 1)
    }

    /// The index behind an opening parenthesis that stands in `n` others.
    pub fn enter(&self, at: usize, n: u32) -> Result<usize, Stop>
        requires parser { IsParser self.now }
        requires at { at ≤ length self.now.tokens.now }
        ensures next { IfOk result (λ next. next ≡ at + 1) }
        ensures found { IfOk result (λ _. Has self.now at opening × (n < MAX_NESTING)) }
        ensures refused { IfErr result (IsRefused self.now n (fixed opening ∷ []) at) }
    {
        if !self.is_mark(at, TokenKind::Open) {
            return Err(Stop::Syntax(at));
        }
        if n >= MAX_NESTING {
            return Err(Stop::TooDeep(at));
        }
        Ok(at + 1)
    }

    /// The keyword at an index, if one stands there.
    pub fn keyword(&self, at: usize) -> Option<&[u8]>
        requires { IsParser self.now }
        ensures found { IfSome result (λ text. Has self.now at (keyword text.now)) }
        ensures none { IfNone result (HasNoKeyword (from self.now at)) }
    {
        let token = self.token(at)?;
        keyword_of(self.bytes, token)
    }

    /// The number of the name at an index, if one stands there.
    pub fn name(&self, at: usize) -> Option<Number>
        requires { IsParser self.now }
        ensures found { IfSome result (λ number. Has self.now at (name number)) }
        ensures none { IfNone result (HasNoName (from self.now at)) }
    {
        let token = self.token(at)?;
        if token.kind != TokenKind::Name {
            return None;
        }
        Some(name_number(text_of(self.bytes, token)))
    }

    /// The parameter that the token at an index is by itself, if it is one.
    pub fn value(&self, alloc: Global, at: usize) -> Result<Option<Param>, NoMemory>
        requires { IsParser self.now }
        ensures found { IfOk result (λ found. IfSome found (λ param. IsValue self.now at (tree_of param))) }
        ensures none { IfOk result (λ found. IfNone found (HasNoValue (from self.now at))) }
    {
        match self.token(at) {
            Some(token) => value_of(alloc, self.bytes, token),
            None => Ok(None),
        }
    }

    /// The text at an index, if one stands there.
    pub fn text(&self, alloc: Global, at: usize) -> Result<Option<NcText>, NoMemory>
        requires { IsParser self.now }
        ensures found { IfOk result (λ found. IfSome found (λ text. Has self.now at (value kinds.Text text))) }
        ensures none { IfOk result (λ found. IfNone found (HasNoText (from self.now at))) }
    {
        let Some(token) = self.token(at) else {
            return Ok(None);
        };
        if token.kind != TokenKind::Text {
            return Ok(None);
        }
        Ok(Some(NcText::of(alloc, inside(self.bytes, token))?))
    }

    /// Whether a word, which is no user's keyword, stands at an index.
    pub fn is_word_at(&self, at: usize, text: &[u8]) -> bool
        requires parser { IsParser self.now }
        requires plain { is_user text.now ≡ false }
        ensures found { IsTrue result → Has self.now at (word text.now) }
        ensures none { IsFalse result → IsOther (word text.now) (from self.now at) }
    {
        match self.token(at) {
            Some(token) => is_word(self.bytes, token, text),
            None => false,
        }
    }

    /// The index behind a word, which is no user's keyword.
    pub fn word(&self, at: usize, text: &[u8]) -> Result<usize, Stop>
        requires parser { IsParser self.now }
        requires at { at ≤ length self.now.tokens.now }
        requires plain { is_user text.now ≡ false }
        ensures next { IfOk result (λ next. next ≡ at + 1) }
        ensures found { IfOk result (λ _. Has self.now at (word text.now)) }
        ensures refused { IfErr result (λ e. (n : ℕ) → IsRefused self.now n (fixed (word text.now) ∷ []) at e) }
    {
        if !self.is_word_at(at, text) {
            return Err(Stop::Syntax(at));
        }
        Ok(at + 1)
    }
}
