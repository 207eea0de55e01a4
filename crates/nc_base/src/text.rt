//! Texts: bytes in a row.

ghost use Rattle.std.specs.Prelude.{◌≡◌, ◌+◌, ◌<◌, [], ◌∷◌, ◌++◌, length, OnOk, OnErr, IfSome, IsNone, IfNone, IfOk, ◌↔◌, IsTrue, slice_get, Some};

use crate::memory::NoMemory;
use smallvec::SmallVec;
use std::alloc::Global;
use std::marker::Model;

/// A text of at most 4,294,967,295 bytes, which need not be UTF-8. It keeps the allocator that it was made with.
/// Up to 16 bytes lie in the text itself, as most numbers, keywords and names in a project do, and take no memory beside it.
#[derive(Debug, Drop)]
pub struct NcText {
    bytes: SmallVec<u8, 16>,
}

impl Model for NcText {
    ghost use Rattle.std.specs.Prelude.{ℕ, ◌<◌, ◌^◌, List, length};

    ghost Value = { List ℕ };

    ghost view = { λ t. t.bytes.items };

    ghost invariant = { λ t. length t.bytes.items < 2 ^ 32 };
}

impl NcText {
    /// The empty text, which takes no memory.
    pub fn new(alloc: Global) -> Self
        ensures { result ≡ [] }
    {
        NcText {
            bytes: SmallVec::new(alloc),
        }
    }

    /// A text of these bytes.
    pub fn of(alloc: Global, bytes: &[u8]) -> Result<NcText, NoMemory>
        ensures { IfOk result (λ text. text ≡ bytes.now) }
    {
        if bytes.len() > u32::MAX as usize {
            return Err(NoMemory);
        }
        Ok(NcText {
            bytes: SmallVec::from_slice(alloc, bytes)?,
        })
    }

    /// The bytes of the text.
    pub fn bytes(&self) -> &[u8]
        ensures { result.now ≡ self.now }
    {
        self.bytes.as_slice()
    }

    /// How many bytes there are.
    pub fn len(&self) -> u32
        ensures { result ≡ length self.now }
    {
        self.bytes.len() as u32
    }

    /// Whether there are no bytes.
    pub fn is_empty(&self) -> bool
        ensures { IsTrue result ↔ (self.now ≡ []) }
    {
        self.bytes.is_empty()
    }

    /// The byte at index `i`, counted from 0.
    pub fn at(&self, i: u32) -> u8
        requires { i < length self.now }
        ensures { slice_get self.now i ≡ Some result }
    {
        self.bytes[i as usize]
    }

    /// Puts a byte at the end. Where memory runs out the text stays as it was.
    pub fn push(&mut self, byte: u8) -> Result<(), NoMemory>
        ensures ok { OnOk result (self.new ≡ self.old ++ byte ∷ []) }
        ensures err { OnErr result (self.new ≡ self.old) }
    {
        if self.bytes.len() >= u32::MAX as usize {
            return Err(NoMemory);
        }
        self.bytes.push(byte)?;
        Ok(())
    }

    /// Takes the last byte. None comes exactly where the text is empty.
    pub fn pop(&mut self) -> Option<u8>
        ensures empty { IsNone result ↔ (self.old ≡ []) }
        ensures last { IfSome result (λ byte. self.old ≡ self.new ++ byte ∷ []) }
        ensures none { IfNone result (self.new ≡ self.old) }
    {
        self.bytes.pop()
    }
}
