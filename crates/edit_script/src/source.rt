//! The tokens of a text, and one edit from any of them on.

ghost use Rattle.std.specs.Prelude.{◌≡◌, ◌+◌, ◌<◌, ◌≤◌, ℕ, List, [], length, drop, map, IfOk, IfErr, IfSome, IfNone, IsTrue, IsFalse, false};
ghost use Rattle.p21_lex.specs.Reading.{IsToken};
ghost use Rattle.p21_parse.specs.Symbol.{keyword, semicolon, has_hyphen, text_of, symbol_of};
ghost use Rattle.p21_parse.specs.Parser.{IsNotHead};
ghost use Rattle.p21_parse.specs.Places.{start_of};
ghost use Rattle.p21_parse.specs.Following.{AreRefusedFrom};
ghost use Rattle.p21_parse.specs.View.{instance_of};
ghost use Rattle.edit_script.specs.declared.limits.TheConstants.{MAX_ITEMS};
ghost use Rattle.edit_script.specs.Source.{AreInside, IsSource, from, Stands, Has, IsMomentAt, IsNoMoment, IsHead, HeadStops, IsTail, TailStops, IsEditRead, TellsFrom};

use crate::error::ScriptErr;
use crate::limits::MAX_ITEMS;
use crate::moment::moment_in;
use p21_lex::{MAX_TEXT, Token, TokenKind};
use p21_parse::{InstanceList, ReadErr, instances};
use std::alloc::Global;

/// A text and its tokens.
#[derive(Clone, Copy)]
pub struct Source<'a> {
    pub bytes: &'a [u8],
    pub tokens: &'a [Token],
}

/// An edit as it is written: from when on it is due, in entries of the log, and its instances.
#[derive(Drop)]
pub struct Written {
    pub at: u32,
    pub items: InstanceList,
}

/// The bytes of a token.
fn text_of(bytes: &[u8], token: Token) -> &[u8]
    requires { IsToken bytes.now token }
    ensures { result.now ≡ text_of bytes.now token }
{
    &bytes[token.start as usize..token.end as usize]
}

/// Whether a token is this keyword.
fn is_keyword(bytes: &[u8], token: Token, text: &[u8]) -> bool
    requires inside { IsToken bytes.now token }
    requires plain { has_hyphen text.now ≡ false }
    ensures found { IsTrue result → symbol_of bytes.now token ≡ keyword text.now }
    ensures none { IsFalse result → symbol_of bytes.now token ≡ keyword text.now → ⊥ }
{
    match token.kind {
        TokenKind::Word | TokenKind::UserWord => text == text_of(bytes, token),
        _ => false,
    }
}

impl Source<'_> {
    /// The token at index `at`, counted from 0, if there is one.
    fn token(&self, at: usize) -> Option<Token>
        requires { AreInside self.now }
        ensures found { IfSome result (Stands self.now at) }
        ensures none { IfNone result (from self.now at ≡ []) }
    {
        self.tokens.get(at).copied()
    }

    /// Where the token at an index begins: a byte offset, at the end the text's length.
    pub fn place(&self, at: usize) -> u32
        requires { length self.now.bytes.now ≤ MAX_TEXT }
        ensures { result ≡ start_of self.now.bytes.now (drop at self.now.tokens.now) }
    {
        match self.tokens.get(at) {
            Some(token) => token.start,
            None => self.bytes.len() as u32,
        }
    }

    /// Whether a keyword stands at an index.
    pub fn is_word(&self, at: usize, text: &[u8]) -> bool
        requires inside { AreInside self.now }
        requires plain { has_hyphen text.now ≡ false }
        ensures found { IsTrue result → Has self.now at (keyword text.now) }
        ensures none { IsFalse result → IsNotHead (keyword text.now) (from self.now at) }
    {
        match self.token(at) {
            Some(token) => is_keyword(self.bytes, token, text),
            None => false,
        }
    }

    /// Whether a semicolon stands at an index.
    fn is_semicolon(&self, at: usize) -> bool
        requires { AreInside self.now }
        ensures found { IsTrue result → Has self.now at semicolon }
        ensures none { IsFalse result → IsNotHead semicolon (from self.now at) }
    {
        match self.token(at) {
            Some(token) => token.kind == TokenKind::Semicolon,
            None => false,
        }
    }

    /// The number at an index, if one stands there that says when an edit is due.
    fn moment(&self, at: usize) -> Option<u32>
        requires { AreInside self.now }
        ensures found { IfSome result (IsMomentAt self.now at) }
        ensures none { IfNone result (IsNoMoment (from self.now at)) }
    {
        let token = self.token(at)?;
        if token.kind != TokenKind::Int {
            return None;
        }
        moment_in(text_of(self.bytes, token))
    }

    /// The beginning of an edit, `EDIT AT n ;`: the number n. Or the index with which no script goes on.
    pub fn head(&self, at: usize) -> Result<u32, usize>
        requires inside { AreInside self.now }
        requires at { at < length self.now.tokens.now }
        ensures found { IfOk result (IsHead self.now at) }
        ensures refused { IfErr result (HeadStops self.now at) }
    {
        if !self.is_word(at, b"EDIT") {
            return Err(at);
        }
        if !self.is_word(at + 1, b"AT") {
            return Err(at + 1);
        }
        let Some(moment) = self.moment(at + 2) else {
            return Err(at + 2);
        };
        if !self.is_semicolon(at + 3) {
            return Err(at + 3);
        }
        Ok(moment)
    }

    /// The end of an edit, `ENDEDIT ;`. Or the index with which no script goes on.
    pub fn tail(&self, at: usize) -> Result<(), usize>
        requires inside { AreInside self.now }
        requires at { at ≤ length self.now.tokens.now }
        ensures found { IfOk result (λ _. IsTail self.now at) }
        ensures refused { IfErr result (TailStops self.now at) }
    {
        if !self.is_word(at, b"ENDEDIT") {
            return Err(at);
        }
        if !self.is_semicolon(at + 1) {
            return Err(at + 1);
        }
        Ok(())
    }
}
