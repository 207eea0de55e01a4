//! Files, read by name.

ghost use Rattle.std.specs.Prelude.{◌≡◌, ℕ, ◌≤◌, ◌<◌, List, [], length, Option, IfSome, OnOk, OnErr, IsErrOf};
ghost use Rattle.nc_outside.specs.Outside.{Rose};
ghost use Rattle.nc_outside.specs.declared.files.FileErr.TheVariants.{NoMemory};

use nc_base::NcText;
use std::alloc::{AllocError, AllocFailed};
use thiserror::Error;

/// Why a file was not read.
#[derive(Clone, Copy, Debug, PartialEq, Eq, Error)]
pub enum FileErr {
    /// The file is not there, or could not be read.
    #[error("the file could not be read")]
    Failed,
    /// The file has more bytes than were asked for.
    #[error("the file is too long")]
    TooLong,
    /// Memory ran out.
    #[error("out of memory")]
    NoMemory,
}

impl From<AllocError> for FileErr {
    ghost from_gives = { λ _ e. e ≡ NoMemory };

    fn from(_e: AllocError) -> FileErr {
        FileErr::NoMemory
    }
}

impl<T: Drop> From<AllocFailed<T>> for FileErr {
    ghost from_gives = { λ _ e. e ≡ NoMemory };

    fn from(_e: AllocFailed<T>) -> FileErr {
        FileErr::NoMemory
    }
}

/// Files by name. What a name holds may be told or not: a file of the host tells nothing.
pub trait Files {
    ghost holds: { Self → List ℕ → Option (List ℕ) };

    ghost faults: { Self → List ℕ → ℕ };

    /// Reads the whole file into `room`, whose old contents are dropped, if it has at most `most` bytes.
    /// A read changes nothing of what the names hold.
    ///
    /// # Errors
    /// `Failed` where the file is not there or can't be read, which counts as a fault of it; `TooLong` where it has more than `most`
    /// bytes; `NoMemory`. After each of them `room` is empty.
    fn read(&mut self, name: &NcText, room: &mut Vec<u8>, most: u32) -> Result<(), FileErr>
        // What is told stays told.
        ensures kept { (n : List ℕ) → holds self.new n ≡ holds self.old n }
        ensures counted { (n : List ℕ) → faults self.old n ≤ faults self.new n }

        ensures within { OnOk result (length room.new.items ≤ most) }
        ensures whole { OnOk result (IfSome (holds self.old name.now) (λ bytes. room.new.items ≡ bytes)) }
        ensures emptied { OnErr result (room.new.items ≡ []) }

        // A file that is told is too long exactly where it has more bytes; Ok is excluded there by `within` and `whole`.
        ensures too_long { result ≡ Err FileErr.TooLong → IfSome (holds self.old name.now) (λ bytes. most < length bytes) }
        ensures failed { result ≡ Err FileErr.Failed → Rose (faults self.old name.now) (faults self.new name.now) };
}
