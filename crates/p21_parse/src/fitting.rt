//! Which instances can stand in a file: the grammar and the limits allow them, and each of their symbols is that of a token.

ghost use Rattle.std.specs.Prelude.{◌↔◌, map, IsTrue};
ghost use Rattle.std.specs.List.{AllByRecursion};
ghost use Rattle.p21_parse.specs.Tree.{list, typed};
ghost use Rattle.p21_parse.specs.Grammar.{HasParts};
ghost use Rattle.p21_parse.specs.View.{tree_of, trees_of, part_of, instance_of};
ghost use Rattle.p21_parse.specs.Built.{Fits, IsValidPart, IsValid};

use crate::exchange::{Instance, Part};
use crate::limits::MAX_NESTING;
use crate::param::{Param, ParamList};
use crate::spelling::{is_binary, is_enumeration, is_keyword, is_name, is_number, is_text};
use nc_base::NcText;
use p21_lex::TokenKind;

/// Whether a parameter can be written where at most `most` more parentheses may lie in one another.
#[cycle(fits)]
fn fits(param: &Param, most: u32) -> bool
    ensures { IsTrue result ↔ Fits most (tree_of param.now) }
{
    match param {
        Param::Int(text) => is_number(TokenKind::Int, text.bytes()),
        Param::Real(text) => is_number(TokenKind::Real, text.bytes()),
        Param::Text(text) => is_text(text.bytes()),
        Param::Enumeration(text) => is_enumeration(text.bytes()),
        Param::Reference(number) => is_name(*number),
        Param::Binary(text) => is_binary(text.bytes()),
        Param::Unset => true,
        Param::Derived => true,
        Param::List(params) => list_fits(params, most),
        Param::Typed(word, params) => typed_fits(word, params, most),
    }
}

/// Whether a list of these parameters fits.
#[cycle(fits)]
fn list_fits(params: &ParamList, most: u32) -> bool
    ensures { IsTrue result ↔ Fits most (list (trees_of params.now)) }
{
    if most == 0 {
        return false;
    }
    all_fit(params.as_slice(), most - 1)
}

/// Whether a keyword with these parameters fits.
#[cycle(fits)]
fn typed_fits(word: &NcText, params: &ParamList, most: u32) -> bool
    ensures { IsTrue result ↔ Fits most (typed word.now (trees_of params.now)) }
{
    if params.len() != 1 || !is_keyword(word.bytes()) {
        return false;
    }
    list_fits(params, most)
}

/// Whether each parameter fits.
#[cycle(fits)]
fn all_fit(params: &[Param], most: u32) -> bool
    ensures { IsTrue result ↔ AllByRecursion (Fits most) (map tree_of params.now) }
{
    for param in params {
        if !fits(param, most) {
            return false;
        }
    }
    true
}

/// Whether a part can stand in a file.
fn is_valid_part(part: &Part) -> bool
    ensures { IsTrue result ↔ IsValidPart (part_of part.now) }
{
    is_keyword(part.keyword.bytes()) && all_fit(part.parameters.as_slice(), MAX_NESTING - 1)
}

/// Whether each of these parts can stand in a file.
fn are_valid_parts(parts: &[Part]) -> bool
    ensures { IsTrue result ↔ AllByRecursion IsValidPart (map part_of parts.now) }
{
    for part in parts {
        if !is_valid_part(part) {
            return false;
        }
    }
    true
}

/// Whether an instance has as many parts as one of its kind.
fn has_parts(instance: &Instance) -> bool
    ensures { IsTrue result ↔ HasParts instance.now.complex (map part_of instance.now.parts) }
{
    if instance.complex {
        !instance.parts.is_empty()
    } else {
        instance.parts.len() == 1
    }
}

/// Whether an instance can stand in a file that has no other of its number.
pub fn is_valid(instance: &Instance) -> bool
    ensures { IsTrue result ↔ IsValid (instance_of instance.now) }
{
    if !is_name(instance.number) || !has_parts(instance) {
        return false;
    }
    are_valid_parts(instance.parts.as_slice())
}
