//! The number that an edit puts a second time. Nothing is hashed, since a script picks its numbers.

ghost use Rattle.std.specs.Prelude.{◌≡◌, ◌≤◌, map, length, nat_eq, IfOk, None, Some};
ghost use Rattle.std.specs.List.{IsDistinct};
ghost use Rattle.p21_parse.specs.Allowed.{own_number_of};
ghost use Rattle.p21_parse.specs.View.{instance_of};
ghost use Rattle.edit_script.specs.Judged.{IsRepeatAt, RepeatIs};

use nc_base::{NoMemory, Number, are_distinct};
use p21_parse::Instance;
use std::alloc::Global;

/// The numbers of instances, in order.
fn numbers_of(alloc: Global, items: &[Instance]) -> Result<Vec<Number>, NoMemory>
    ensures { IfOk result (λ numbers. numbers.items ≡ map own_number_of (map instance_of items.now)) }
{
    let mut numbers = Vec::with_capacity(alloc, items.len())?;
    for item in items {
        numbers.push(item.number)?;
    }
    Ok(numbers)
}

/// The index of the first number that stood before, where one did: found by halving.
fn repeat_in(alloc: Global, numbers: &[Number]) -> Result<usize, NoMemory>
    requires { IsDistinct nat_eq numbers.now → ⊥ }
    ensures { IfOk result (IsRepeatAt numbers.now) }
{
    let mut distinct = 0;
    let mut repeating = numbers.len();
    while distinct + 1 < repeating {
        let middle = distinct + (repeating - distinct) / 2;
        if are_distinct(alloc, &numbers[..middle])? {
            distinct = middle;
        } else {
            repeating = middle;
        }
    }
    Ok(distinct)
}

/// The number that is the first to stand a second time among those of instances, if one does. Numbers that rise are looked at once; of others a
/// copy is sorted; only where one stands twice, which ends the reading of edits, more than one is.
pub fn repeated(alloc: Global, items: &[Instance]) -> Result<Option<Number>, NoMemory>
    ensures { IfOk result (RepeatIs (map own_number_of (map instance_of items.now))) }
{
    let numbers = numbers_of(alloc, items)?;
    if are_distinct(alloc, numbers.as_slice())? {
        return Ok(None);
    }
    let again = repeat_in(alloc, numbers.as_slice())?;
    Ok(Some(numbers[again]))
}
