//! What stands in a parameter.

ghost use Rattle.std.specs.Prelude.{◌≡◌, IfOk, IfSome, IsTrue, map, option_map, option_and_then, option_copied};
ghost use Rattle.p21_parse.specs.View.{tree_of, trees_of};
ghost use Rattle.entity_types.specs.Fits.{in_range};
ghost use Rattle.units_um.specs.Thousandths.{thousandths_of};
ghost use Rattle.entity_read.specs.Typed.{is_unset, value_in, plain_number, only_of, number_in, reference_in, items_of};

use nc_base::Number;
use p21_parse::{Param, ParamList};
use units_um::thousandths;

pub(crate) fn is_unset(param: &Param) -> bool
    ensures { result ≡ is_unset (tree_of param.now) }
{
    match param {
        Param::Unset => true,
        Param::Int(_)
        | Param::Real(_)
        | Param::Text(_)
        | Param::Enumeration(_)
        | Param::Reference(_)
        | Param::Binary(_)
        | Param::Derived
        | Param::List(_)
        | Param::Typed(..) => false,
    }
}

fn value(text: &[u8]) -> Option<i64>
    ensures value { result ≡ value_in (thousandths_of text.now) }
    ensures within { IfSome result (λ x. IsTrue (in_range x)) }
{
    match thousandths(text) {
        Ok(x) => Some(x),
        Err(_) => None,
    }
}

fn plain_number(param: &Param) -> Option<i64>
    ensures value { result ≡ plain_number (tree_of param.now) }
    ensures within { IfSome result (λ x. IsTrue (in_range x)) }
{
    match param {
        Param::Int(text) | Param::Real(text) => value(text.bytes()),
        Param::Text(_)
        | Param::Enumeration(_)
        | Param::Reference(_)
        | Param::Binary(_)
        | Param::Unset
        | Param::Derived
        | Param::List(_)
        | Param::Typed(..) => None,
    }
}

fn only(params: &ParamList) -> Option<&Param>
    ensures { option_map tree_of (option_copied result) ≡ only_of (trees_of params.now) }
{
    match params.as_slice() {
        [param] => Some(param),
        _ => None,
    }
}

/// The number of an Int or a Real, or of a typed parameter around one.
pub(crate) fn number(param: &Param) -> Option<i64>
    ensures value { result ≡ number_in (tree_of param.now) }
    ensures within { IfSome result (λ x. IsTrue (in_range x)) }
{
    match param {
        Param::Typed(_, params) => match only(params) {
            Some(param) => plain_number(param),
            None => None,
        },
        Param::Int(_)
        | Param::Real(_)
        | Param::Text(_)
        | Param::Enumeration(_)
        | Param::Reference(_)
        | Param::Binary(_)
        | Param::Unset
        | Param::Derived
        | Param::List(_) => plain_number(param),
    }
}

pub(crate) fn reference(param: &Param) -> Option<Number>
    ensures { result ≡ reference_in (tree_of param.now) }
{
    match param {
        Param::Reference(number) => Some(*number),
        Param::Int(_)
        | Param::Real(_)
        | Param::Text(_)
        | Param::Enumeration(_)
        | Param::Binary(_)
        | Param::Unset
        | Param::Derived
        | Param::List(_)
        | Param::Typed(..) => None,
    }
}

/// The parameters of a list.
pub(crate) fn items(param: &Param) -> Option<&[Param]>
    ensures { option_map (map tree_of) (option_copied result) ≡ items_of (tree_of param.now) }
{
    match param {
        Param::List(params) => Some(params.as_slice()),
        Param::Int(_)
        | Param::Real(_)
        | Param::Text(_)
        | Param::Enumeration(_)
        | Param::Reference(_)
        | Param::Binary(_)
        | Param::Unset
        | Param::Derived
        | Param::Typed(..) => None,
    }
}
