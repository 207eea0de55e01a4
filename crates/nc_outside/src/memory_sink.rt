//! A sink in memory, for tests and for callers that want the bytes.

ghost use Rattle.std.specs.Prelude.{◌≡◌, ℕ, ◌+◌, ◌-◌, ◌≤◌, ◌<◌, ◌++◌, ◌∷◌, ◌⊎◌, ◌↔◌, [], length, take, min, Some, IsTrue, OnOk, OnErr, IfOk, IsErr};
ghost use Rattle.nc_outside.specs.Outside.{Rose, Appends};
ghost use Rattle.nc_outside.specs.MemoryState.{is_listed, one_more};

use crate::sink::{Failed, Sink};
use nc_base::{NoMemory, NumberList};
use std::alloc::Global;
use std::marker::Model;

/// A sink with room for so many bytes, and a list of the calls of `put` that fail, counted from 0.
#[derive(Drop)]
pub struct MemorySink {
    bytes: Vec<u8>,
    room: u32,
    failing: NumberList,
    calls: u32,
    faults: u64,
}

impl Model for MemorySink {
    ghost use Rattle.std.specs.Prelude.{ℕ, ◌≤◌, List, vec_len, vec_capacity};
    ghost use Rattle.nc_outside.specs.SinkState.{SinkState};

    ghost Value = { SinkState };

    ghost view = { λ s. record { bytes = s.bytes.items; room = s.room; failing = s.failing; calls = s.calls; faults = s.faults } };

    ghost invariant = { λ s. (vec_len s.bytes ≤ s.room) × (s.room ≤ vec_capacity s.bytes) };
}

impl MemorySink {
    /// An empty sink, with room reserved for so many bytes.
    ///
    /// # Errors
    /// `NoMemory` where there is none for so many bytes.
    pub fn new(alloc: Global, room: u32) -> Result<MemorySink, NoMemory>
        ensures { IfOk result (λ s. s ≡ record { bytes = []; room = room; failing = []; calls = 0; faults = 0 }) }
    {
        Ok(MemorySink {
            bytes: Vec::with_capacity(alloc, room as usize)?,
            room,
            failing: NumberList::new(alloc),
            calls: 0,
            faults: 0,
        })
    }

    /// Lists a call of `put`, counted from 0, as one that fails.
    ///
    /// # Errors
    /// `NoMemory`. Nothing is listed then.
    pub fn fail_at(&mut self, call: u32) -> Result<(), NoMemory>
        ensures ok { OnOk result (self.new ≡ record self.old { failing = self.old.failing ++ call ∷ [] }) }
        ensures err { OnErr result (self.new ≡ self.old) }
    {
        self.failing.push(call)
    }

    /// What was taken so far.
    pub fn bytes(&self) -> &[u8]
        ensures { result.now ≡ self.now.bytes }
    {
        self.bytes.as_slice()
    }
}

impl Sink for MemorySink {
    ghost taken = { λ s. Some s.bytes };

    ghost faults = { λ s. s.faults };

    /// Takes as much of the piece as fits, and no memory.
    ///
    /// # Errors
    /// `Failed` exactly where this call is listed, or nothing of a piece that isn't empty fits. Nothing is taken then.
    fn put(&mut self, piece: &[u8]) -> Result<usize, Failed>
        ensures counted { self.old.faults ≤ self.new.faults }
        ensures within { IfOk result (λ n. n ≤ length piece.now) }
        ensures taken_front { IfOk result (λ n. Appends (Some self.old.bytes) (Some self.new.bytes) (take n piece.now)) }
        ensures failed { OnErr result (Rose self.old.faults self.new.faults) }
        ensures failed_takes_nothing { OnErr result (Appends (Some self.old.bytes) (Some self.new.bytes) []) }
        ensures stuck { result ≡ Ok 0 → 0 < length piece.now → Rose self.old.faults self.new.faults }

        ensures fits { IfOk result (λ n. n ≡ min (length piece.now) (self.old.room - length self.old.bytes)) }
        ensures fails { IsErr result ↔ (IsTrue (is_listed self.old.failing self.old.calls) ⊎ ((0 < length piece.now) × (self.old.room ≤ length self.old.bytes))) }
        // A refusal counts one fault, and nothing else counts any.
        ensures raises { OnErr result (self.new.faults ≡ one_more self.old.faults) }
        ensures quiet { OnOk result (self.new.faults ≡ self.old.faults) }
        ensures calls { self.new.calls ≡ min (self.old.calls + 1) 4294967295 }
        ensures room { self.new.room ≡ self.old.room }
        ensures failing { self.new.failing ≡ self.old.failing }
    {
        let listed = self.failing.as_slice().contains(&self.calls);
        self.calls = self.calls.saturating_add(1);
        let fits = piece.len().min(self.room as usize - self.bytes.len());
        if listed || (fits == 0 && !piece.is_empty()) {
            self.faults = self.faults.saturating_add(1);
            return Err(Failed);
        }
        self.bytes.extend_from_slice(&piece[..fits]).unwrap();
        Ok(fits)
    }
}
