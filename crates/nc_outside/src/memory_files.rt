//! Named texts in memory, for tests and for callers that have no files.

ghost use Rattle.std.specs.Prelude.{◌≡◌, ◌≢◌, ℕ, ◌+◌, ◌≤◌, ◌<◌, ◌++◌, ◌∷◌, ◌⊎◌, ◌↔◌, List, [], length, Option, Some, None, IsTrue, IfSome, IfNone, IsNone, OnOk, OnErr, IsErrOf, if◌then◌else◌, slice_get, slice_set, min};
ghost use Rattle.std.specs.Str.{bytes_eq};
ghost use Rattle.nc_outside.specs.Outside.{Rose};
ghost use Rattle.nc_outside.specs.MemoryState.{file_named, held, faults_of, IsFirst, Gives, CountsFault, is_listed, one_more, share_a_count};

use crate::files::{FileErr, Files};
use nc_base::{NcText, NoMemory, NumberList};
use std::alloc::Global;
use std::marker::Model;

/// A named text, and how often a read of it failed.
#[derive(Drop)]
struct MemoryFile {
    name: NcText,
    bytes: Vec<u8>,
    faults: u64,
}

/// Named texts, and a list of the calls of `read` that fail, counted from 0.
#[derive(Drop)]
pub struct MemoryFiles {
    files: Vec<MemoryFile>,
    absent_faults: u64,
    failing: NumberList,
    calls: u32,
}

impl Model for MemoryFiles {
    ghost use Rattle.nc_outside.specs.MemoryState.{MemoryState};

    ghost Value = { MemoryState };

    ghost view = { λ m. record { files = m.files.items; absent_faults = m.absent_faults; failing = m.failing; calls = m.calls } };
}

/// Where the first file of this name stands.
fn place_of(files: &[MemoryFile], name: &[u8]) -> Option<usize>
    ensures found { IfSome result (λ i. (i < length files.now) × IsFirst files.now name.now i) }
    ensures absent { IfNone result (file_named files.now name.now ≡ None) }
{
    for (i, file) in files.iter().enumerate() {
        if file.name.bytes() == name {
            return Some(i);
        }
    }
    None
}

/// Puts other bytes into the file at place `i`.
fn replace_bytes(files: &mut Vec<MemoryFile>, i: usize, bytes: Vec<u8>)
    requires { i < length files.old.items }
    ensures { (name : List ℕ) → IsFirst files.old.items name i → Gives files.old.items files.new.items name bytes.items }
{
    let file = &mut files[i];
    file.bytes = bytes;
}

/// Counts one more fault of the file at place `i`.
fn note_fault(files: &mut Vec<MemoryFile>, i: usize)
    requires { i < length files.old.items }
    ensures { (name : List ℕ) → IsFirst files.old.items name i → CountsFault files.old.items files.new.items name }
{
    let file = &mut files[i];
    file.faults = file.faults.saturating_add(1);
}

impl MemoryFiles {
    /// No texts, and no call that fails. It takes no memory.
    pub fn new(alloc: Global) -> MemoryFiles
        ensures { result ≡ record { files = []; absent_faults = 0; failing = []; calls = 0 } }
    {
        MemoryFiles {
            files: Vec::new(alloc),
            absent_faults: 0,
            failing: NumberList::new(alloc),
            calls: 0,
        }
    }

    /// Gives the name these bytes; a name added again has the new bytes. A new name begins with the count of faults of
    /// the names that aren't there.
    ///
    /// # Errors
    /// `NoMemory`. Everything is as it was then.
    pub fn add(&mut self, name: &NcText, bytes: &[u8]) -> Result<(), NoMemory>
        ensures ok { OnOk result ((n : List ℕ) → held self.new.files n ≡ (if bytes_eq name.now n then Some bytes.now else held self.old.files n)) }
        ensures faults { (n : List ℕ) → faults_of self.new n ≡ faults_of self.old n }
        ensures failing { self.new.failing ≡ self.old.failing }
        ensures calls { self.new.calls ≡ self.old.calls }
        ensures err { OnErr result (self.new ≡ self.old) }
    {
        let alloc = *self.files.allocator();
        let copy = Vec::from_slice(alloc, bytes)?;
        match place_of(&self.files, name.bytes()) {
            Some(i) => replace_bytes(&mut self.files, i, copy),
            None => self.files.push(MemoryFile {
                name: NcText::of(alloc, name.bytes())?,
                bytes: copy,
                faults: self.absent_faults,
            })?,
        }
        Ok(())
    }

    /// Lists a call of `read`, counted from 0, as one that fails.
    ///
    /// # Errors
    /// `NoMemory`. Nothing is listed then.
    pub fn fail_at(&mut self, call: u32) -> Result<(), NoMemory>
        ensures ok { OnOk result (self.new ≡ record self.old { failing = self.old.failing ++ call ∷ [] }) }
        ensures err { OnErr result (self.new ≡ self.old) }
    {
        self.failing.push(call)
    }
}

impl Files for MemoryFiles {
    ghost use Rattle.std.specs.Prelude.{ℕ, List, Option};
    ghost use Rattle.nc_outside.specs.MemoryState.{held, faults_of};

    ghost holds = { λ m n. held m.files n };

    ghost faults = { λ m n. faults_of m n };

    /// Reads the named text.
    ///
    /// # Errors
    /// `Failed` exactly where this call is listed or the name isn't there; `TooLong` where the text has more than `most` bytes;
    /// `NoMemory`. After each of them `room` is empty.
    fn read(&mut self, name: &NcText, room: &mut Vec<u8>, most: u32) -> Result<(), FileErr>
        ensures kept { (n : List ℕ) → held self.new.files n ≡ held self.old.files n }
        ensures counted { (n : List ℕ) → faults_of self.old n ≤ faults_of self.new n }
        ensures within { OnOk result (length room.new.items ≤ most) }
        ensures whole { OnOk result (IfSome (held self.old.files name.now) (λ bytes. room.new.items ≡ bytes)) }
        ensures emptied { OnErr result (room.new.items ≡ []) }
        ensures too_long { result ≡ Err FileErr.TooLong → IfSome (held self.old.files name.now) (λ bytes. most < length bytes) }
        ensures failed { result ≡ Err FileErr.Failed → Rose (faults_of self.old name.now) (faults_of self.new name.now) }

        ensures fails { (result ≡ Err FileErr.Failed) ↔ (IsTrue (is_listed self.old.failing self.old.calls) ⊎ (held self.old.files name.now ≡ None)) }
        // A read that fails counts one fault of this name, and none of any other; another read counts none.
        ensures raises { result ≡ Err FileErr.Failed → (n : List ℕ) → faults_of self.new n ≡ (if share_a_count self.old.files name.now n then one_more (faults_of self.old n) else faults_of self.old n) }
        ensures quiet { result ≢ Err FileErr.Failed → (n : List ℕ) → faults_of self.new n ≡ faults_of self.old n }
        ensures calls { self.new.calls ≡ min (self.old.calls + 1) 4294967295 }
        ensures failing { self.new.failing ≡ self.old.failing }
    {
        room.clear();
        let listed = self.failing.as_slice().contains(&self.calls);
        self.calls = self.calls.saturating_add(1);
        let Some(i) = place_of(&self.files, name.bytes()) else {
            self.absent_faults = self.absent_faults.saturating_add(1);
            return Err(FileErr::Failed);
        };
        if listed {
            note_fault(&mut self.files, i);
            return Err(FileErr::Failed);
        }
        let file = &self.files[i];
        if file.bytes.len() > most as usize {
            return Err(FileErr::TooLong);
        }
        room.extend_from_slice(&file.bytes)?;
        Ok(())
    }
}
