//! Where a number stands a second time. Nothing is hashed, since a file picks its numbers.

ghost use Rattle.std.specs.Prelude.{IfOk};
ghost use Rattle.p21_parse.specs.Names.{IsFirstRepeat};

use nc_base::{NoMemory, Number, are_distinct};
use std::alloc::Global;

/// The index of the first number that stood before, if there is one: found by halving, which takes n log^2 n at most.
pub fn first_repeat(alloc: Global, numbers: &[Number]) -> Result<Option<usize>, NoMemory>
    ensures { IfOk result (IsFirstRepeat numbers.now) }
{
    if are_distinct(alloc, numbers)? {
        return Ok(None);
    }
    let mut distinct = 0;
    let mut repeating = numbers.len();
    while distinct + 1 < repeating {
        let middle = distinct + (repeating - distinct) / 2;
        if are_distinct(alloc, &numbers[..middle])? {
            distinct = middle;
        } else {
            repeating = middle;
        }
    }
    Ok(Some(distinct))
}
