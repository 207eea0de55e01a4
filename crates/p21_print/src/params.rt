//! Parameters (ISO 10303-21, parameter lists), by recursive descent over them.

ghost use Rattle.std.specs.Prelude.{◌∷◌, OnOk};
ghost use Rattle.p21_parse.specs.Symbol.{opening};
ghost use Rattle.p21_parse.specs.Spell.{spell, spell_list};
ghost use Rattle.p21_parse.specs.View.{tree_of, trees_of};
ghost use Rattle.p21_print.specs.Appends.{Appends};

use crate::pieces::{put, put_between, put_name};
use nc_base::NoMemory;
use p21_parse::{Param, ParamList};

/// Puts a parameter at the end of a text.
#[cycle(params)]
fn put_param(out: &mut Vec<u8>, param: &Param) -> Result<(), NoMemory>
    ensures { OnOk result (Appends (spell (tree_of param.now)) out.old.items out.new.items) }
{
    match param {
        Param::Int(text) | Param::Real(text) => put(out, text.bytes()),
        Param::Text(text) => put_between(out, b'\'', text.bytes()),
        Param::Enumeration(text) => put_between(out, b'.', text.bytes()),
        Param::Reference(number) => put_name(out, *number),
        Param::Binary(text) => put_between(out, b'"', text.bytes()),
        Param::Unset => put(out, b"$"),
        Param::Derived => put(out, b"*"),
        Param::List(params) => put_list(out, params),
        Param::Typed(keyword, params) => {
            put(out, keyword.bytes())?;
            put_list(out, params)
        }
    }
}

/// Puts a list of parameters, in its parentheses.
#[cycle(params)]
pub fn put_list(out: &mut Vec<u8>, params: &ParamList) -> Result<(), NoMemory>
    ensures { OnOk result (Appends (λ rest. opening ∷ spell_list (trees_of params.now) rest) out.old.items out.new.items) }
{
    let [first, more @ ..] = params.as_slice() else {
        return put(out, b"()")
    };
    put(out, b"(")?;
    put_param(out, first)?;
    for param in more {
        put(out, b",")?;
        put_param(out, param)?;
    }
    put(out, b")")
}
