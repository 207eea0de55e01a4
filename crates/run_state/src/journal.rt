//! The entries of a run so far, and those that it is still to follow.

ghost use Rattle.std.specs.Prelude.{◌≡◌, ◌<◌, ◌≤◌, ◌^◌, ◌++◌, ◌∷◌, [], IfOk, length, drop, slice_get};
ghost use Rattle.run_state.specs.Pages.{ComesNext};

use nc_base::NoMemory;
use run_log::{Entry, Log};
use std::alloc::Global;
use std::marker::Model;

/// The entries of a run so far, with room for more of them; or a log that is followed, up to some entry. A log that is followed is never
/// copied: its first entries are those of the run so far.
#[derive(Drop)]
pub struct Journal {
    entries: Vec<Entry>,
    count: usize,
}

impl Model for Journal {
    ghost use Rattle.std.specs.Prelude.{◌≤◌, length, take, drop, vec_capacity};
    ghost use Rattle.run_state.specs.Pages.{Pages};

    ghost Value = { Pages };

    ghost view = { λ j. record { list = take j.count j.entries.items; coming = drop j.count j.entries.items; room = vec_capacity j.entries } };

    ghost invariant = { λ j. j.count ≤ length j.entries.items };
}

impl Journal {
    /// No entry, with room for so many.
    pub fn with_room(alloc: Global, limit: u32) -> Result<Journal, NoMemory>
        ensures list { IfOk result (λ journal. journal.list ≡ []) }
        ensures coming { IfOk result (λ journal. journal.coming ≡ []) }
        ensures room { IfOk result (λ journal. limit ≤ journal.room) }
    {
        Ok(Journal {
            entries: Vec::with_capacity(alloc, limit as usize)?,
            count: 0,
        })
    }

    /// No entry, and a log to be followed.
    pub fn of(log: Log) -> Journal
        ensures list { result.list ≡ [] }
        ensures coming { result.coming ≡ log }
    {
        Journal {
            entries: log.into_vec(),
            count: 0,
        }
    }

    /// How many entries there are so far.
    pub fn len(&self) -> usize
        ensures { result ≡ length self.now.list }
    {
        self.count
    }

    /// The entries so far.
    pub fn entries(&self) -> &[Entry]
        ensures { result.now ≡ self.now.list }
    {
        &self.entries[..self.count]
    }

    /// The next entry of the log that is followed. None comes exactly where there is no more.
    pub fn coming(&self) -> Option<Entry>
        ensures { result ≡ slice_get self.now.coming 0 }
    {
        self.entries.as_slice().get(self.count).copied()
    }

    /// Goes on with the entry that comes next.
    pub fn take(&mut self, entry: Entry)
        requires { ComesNext self.old entry }
        ensures { self.new ≡ record self.old { list = self.old.list ++ entry ∷ []; coming = drop 1 self.old.coming } }
    {
        if self.count == self.entries.as_slice().len() {
            self.entries.push_reserved(entry);
        }
        self.count += 1;
    }

    /// The entries, which are fewer than 2^32, where none is still to be followed.
    pub fn into_log(self) -> Log
        requires short { length self.list < 2 ^ 32 }
        requires whole { self.coming ≡ [] }
        ensures { result ≡ self.list }
    {
        Log::of(self.entries)
    }
}
