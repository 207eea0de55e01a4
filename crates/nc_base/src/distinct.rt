//! Whether numbers are distinct.

ghost use Rattle.std.specs.Prelude.{◌≡◌, ◌<◌, ◌↔◌, IsTrue, IfOk, nat_eq};
ghost use Rattle.std.specs.List.{IsDistinct};
ghost use Rattle.std.specs.List.Sorted.{IsStrictlyIncreasing};

use crate::memory::NoMemory;
use crate::numbers::Number;
use std::alloc::Global;

/// Whether each number is above the one before it.
fn is_rising(numbers: &[Number]) -> bool
    ensures { IsTrue result ↔ IsStrictlyIncreasing numbers.now }
{
    numbers.windows(2).all(|pair| pair[0] < pair[1])
}

/// Whether no number stands twice. Numbers that rise, as those of most files do, are looked at once; of others a copy is sorted.
/// Nothing is hashed, so no choice of numbers makes it slower.
pub fn are_distinct(alloc: Global, numbers: &[Number]) -> Result<bool, NoMemory>
    ensures { IfOk result (λ yes. IsTrue yes ↔ IsDistinct nat_eq numbers.now) }
{
    if is_rising(numbers) {
        return Ok(true);
    }
    let mut sorted = Vec::from_slice(alloc, numbers)?;
    sorted.sort()?;
    Ok(is_rising(sorted.as_slice()))
}
