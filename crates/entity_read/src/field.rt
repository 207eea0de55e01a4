//! The field of a parameter, by the kind of its position.

ghost use Rattle.std.specs.Prelude.{◌≡◌, IfOk, IfSome, IsTrue, map};
ghost use Rattle.p21_parse.specs.View.{tree_of};
ghost use Rattle.entity_types.specs.Fits.{kind_fits, field_fits};
ghost use Rattle.entity_read.specs.Typed.{all_references, references_in, coordinates_of, coordinates_in, some_references, reference_or_number, stated_field, unset_field, field_in};

use crate::param::{is_unset, items, number, reference};
use entity_types::{Field, Kind, UsedPosition};
use nc_base::{NoMemory, NumberList};
use p21_parse::Param;
use std::alloc::Global;

fn all_references(alloc: Global, params: &[Param]) -> Result<Option<NumberList>, NoMemory>
    ensures { IfOk result (λ numbers. numbers ≡ all_references (map tree_of params.now)) }
{
    let mut numbers = NumberList::new(alloc);
    for param in params {
        match reference(param) {
            Some(number) => numbers.push(number)?,
            None => return Ok(None),
        }
    }
    Ok(Some(numbers))
}

fn references(alloc: Global, param: &Param) -> Result<Option<NumberList>, NoMemory>
    ensures { IfOk result (λ numbers. numbers ≡ references_in (tree_of param.now)) }
{
    match items(param) {
        Some(params) => all_references(alloc, params),
        None => Ok(None),
    }
}

fn some_references(numbers: NumberList) -> Option<Field>
    ensures value { result ≡ some_references numbers }
    ensures fits { IfSome result (λ field. IsTrue (kind_fits Kind.SomeReferences field)) }
{
    if numbers.is_empty() {
        None
    } else {
        Some(Field::Refs(numbers))
    }
}

fn reference_or_number(param: &Param) -> Option<Field>
    ensures value { result ≡ reference_or_number (tree_of param.now) }
    ensures length { IfSome result (λ field. IsTrue (kind_fits Kind.Length field)) }
    ensures operand { IfSome result (λ field. IsTrue (kind_fits Kind.Operand field)) }
{
    match reference(param) {
        Some(number) => Some(Field::Ref(number)),
        None => Some(Field::Value(number(param)?)),
    }
}

fn coordinates_of(params: &[Param]) -> Option<Field>
    ensures value { result ≡ coordinates_of (map tree_of params.now) }
    ensures fits { IfSome result (λ field. IsTrue (kind_fits Kind.Coordinates field)) }
{
    match params {
        [x] => Some(Field::Values {
            count: 1,
            x: number(x)?,
            y: 0,
            z: 0,
        }),
        [x, y] => Some(Field::Values {
            count: 2,
            x: number(x)?,
            y: number(y)?,
            z: 0,
        }),
        [x, y, z] => Some(Field::Values {
            count: 3,
            x: number(x)?,
            y: number(y)?,
            z: number(z)?,
        }),
        _ => None,
    }
}

fn coordinates(param: &Param) -> Option<Field>
    ensures value { result ≡ coordinates_in (tree_of param.now) }
    ensures fits { IfSome result (λ field. IsTrue (kind_fits Kind.Coordinates field)) }
{
    coordinates_of(items(param)?)
}

fn stated(alloc: Global, kind: Kind, param: &Param) -> Result<Option<Field>, NoMemory>
    ensures value { IfOk result (λ field. field ≡ stated_field kind (tree_of param.now)) }
    ensures fits { IfOk result (λ field. IfSome field (λ field. IsTrue (kind_fits kind field))) }
{
    match kind {
        Kind::Reference => Ok(reference(param).map(Field::Ref)),
        Kind::References => Ok(references(alloc, param)?.map(Field::Refs)),
        Kind::SomeReferences => Ok(references(alloc, param)?.and_then(some_references)),
        Kind::Numeral => Ok(number(param).map(Field::Value)),
        Kind::Length | Kind::Operand => Ok(reference_or_number(param)),
        Kind::Coordinates => Ok(coordinates(param)),
        Kind::Flag => Ok(Some(Field::Present)),
    }
}

/// The field of `$`.
pub(crate) fn unset(used: UsedPosition) -> Option<Field>
    ensures value { result ≡ unset_field used }
    ensures fits { IfSome result (λ field. IsTrue (field_fits used field)) }
{
    if used.optional || matches!(used.kind, Kind::Flag) {
        Some(Field::Absent)
    } else {
        None
    }
}

/// The field of a parameter at a used position.
pub(crate) fn field(
    alloc: Global,
    used: UsedPosition,
    param: &Param,
) -> Result<Option<Field>, NoMemory>
    ensures value { IfOk result (λ field. field ≡ field_in used (tree_of param.now)) }
    ensures fits { IfOk result (λ field. IfSome field (λ field. IsTrue (field_fits used field))) }
{
    if is_unset(param) {
        Ok(unset(used))
    } else {
        stated(alloc, used.kind, param)
    }
}
