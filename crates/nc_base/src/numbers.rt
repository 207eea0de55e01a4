//! Numbers of instances, lists of them, and how great a value may be.

ghost use Rattle.std.specs.Prelude.{◌≡◌, ◌+◌, ◌<◌, [], ◌∷◌, ◌++◌, length, OnOk, OnErr, IfSome, IsNone, IfNone, IfOk, ◌↔◌, IsTrue, slice_get, Some};

use crate::memory::NoMemory;
use std::alloc::Global;
use std::marker::Model;

/// The number of an instance, as it stands behind the `#` of its name (ISO 10303-21, entity instance names): 1 to `MAX_NUMBER`.
pub type Number = u32;

/// The greatest number of an instance, 2^31 - 1 (this profile).
pub const MAX_NUMBER: Number = 2_147_483_647;

/// The greatest size of a value that a project writes or works out, in thousandths of its unit: 10^15 (this profile).
pub const MAX_THOUSANDTHS: u64 = 1_000_000_000_000_000;

/// A list of at most 4,294,967,295 numbers. It keeps the allocator that it was made with.
#[derive(Debug, Drop)]
pub struct NumberList {
    numbers: Vec<u32>,
}

impl Model for NumberList {
    ghost use Rattle.std.specs.Prelude.{ℕ, ◌<◌, ◌^◌, List, vec_len};

    ghost Value = { List ℕ };

    ghost view = { λ l. l.numbers.items };

    ghost invariant = { λ l. vec_len l.numbers < 2 ^ 32 };
}

impl NumberList {
    /// The empty list, which takes no memory.
    pub fn new(alloc: Global) -> Self
        ensures { result ≡ [] }
    {
        NumberList {
            numbers: Vec::new(alloc),
        }
    }

    /// How many numbers there are.
    pub fn len(&self) -> u32
        ensures { result ≡ length self.now }
    {
        self.numbers.len() as u32
    }

    /// Whether there are no numbers.
    pub fn is_empty(&self) -> bool
        ensures { IsTrue result ↔ (self.now ≡ []) }
    {
        self.numbers.is_empty()
    }

    /// The numbers in order.
    pub fn as_slice(&self) -> &[Number]
        ensures { result.now ≡ self.now }
    {
        self.numbers.as_slice()
    }

    /// The number at index `i`, counted from 0.
    pub fn at(&self, i: u32) -> Number
        requires { i < length self.now }
        ensures { slice_get self.now i ≡ Some result }
    {
        self.numbers[i as usize]
    }

    /// Puts a number at the end. Where memory runs out the list stays as it was.
    pub fn push(&mut self, number: Number) -> Result<(), NoMemory>
        ensures ok { OnOk result (self.new ≡ self.old ++ number ∷ []) }
        ensures err { OnErr result (self.new ≡ self.old) }
    {
        if self.numbers.len() >= u32::MAX as usize {
            return Err(NoMemory);
        }
        self.numbers.push(number)?;
        Ok(())
    }

    /// Takes the last number. None comes exactly where the list is empty.
    pub fn pop(&mut self) -> Option<Number>
        ensures empty { IsNone result ↔ (self.old ≡ []) }
        ensures last { IfSome result (λ number. self.old ≡ self.new ++ number ∷ []) }
        ensures none { IfNone result (self.new ≡ self.old) }
    {
        self.numbers.pop()
    }
}
