//! The host's files and standard output: the trusted edge. They tell nothing of contents.

ghost use Rattle.std.specs.Prelude.{◌≡◌, ℕ, ◌≤◌, ◌<◌, ◌^◌, List, [], None, Ok, length, take, vec_len, vec_capacity, OnOk, OnErr, IfOk};
ghost use Rattle.nc_outside.specs.Outside.{Rose, Appends};
ghost use Rattle.nc_outside.specs.Gathered.{put_so_far};
ghost use Rattle.nc_outside.specs.declared.host.TheConstants.{BLOCK};

use crate::files::{FileErr, Files};
use crate::sink::{Failed, Sink};
use nc_base::{NcText, NoMemory};
use std::alloc::Global;
use std::io::{Read, Write};
use std::{fs, io, rt, str};

/// The files of the host. A file's name is its path, which has to be UTF-8. One count of faults serves all names.
#[derive(Drop)]
pub struct HostFiles<'a, R: rt::Files> {
    host: &'a R,
    faults: u64,
    said: Option<io::Error>,
}

/// Reads the file at this path into an empty room, if it has at most `most` bytes. Takes at most one byte more. `said` gets what the host
/// says where it fails.
fn read_file<R: rt::Files>(
    host: &R,
    path: &[u8],
    room: &mut Vec<u8>,
    most: u32,
    said: &mut Option<io::Error>,
) -> Result<(), FileErr>
    requires { vec_len room.old ≡ 0 }
    ensures { OnOk result (length room.new.items ≤ most) }
{
    let Ok(path) = str::from_utf8(path) else {
        return Err(FileErr::Failed);
    };
    let mut file = match fs::open(host, path) {
        Ok(file) => file,
        Err(error) => {
            *said = Some(error);
            return Err(FileErr::Failed);
        }
    };
    let mut block = [0; BLOCK];
    while room.len() <= most as usize {
        let wanted = (most as usize + 1 - room.len()).min(BLOCK);
        let taken = match file.read(&mut block[..wanted]) {
            Ok(taken) => taken,
            Err(error) => {
                *said = Some(error);
                return Err(FileErr::Failed);
            }
        };
        if taken == 0 {
            return Ok(());
        }
        room.extend_from_slice(&block[..taken])?;
    }
    Err(FileErr::TooLong)
}

impl<'a, R: rt::Files> HostFiles<'a, R> {
    /// The files that this host has.
    pub fn new(host: &'a R) -> HostFiles<'a, R>
        ensures { result.faults ≡ 0 }
    {
        HostFiles {
            host,
            faults: 0,
            said: None,
        }
    }

    /// What the host said where the last read failed, if it failed and the host said why: for a person to read.
    pub fn said(&self) -> Option<&io::Error> {
        self.said.as_ref()
    }
}

impl<'a, R: rt::Files> Files for HostFiles<'a, R> {
    ghost holds = { λ _ _. None };

    ghost faults = { λ f _. f.faults };

    fn read(&mut self, name: &NcText, room: &mut Vec<u8>, most: u32) -> Result<(), FileErr> {
        room.clear();
        self.said = None;
        let answer = read_file(self.host, name.bytes(), room, most, &mut self.said);
        if answer.is_err() {
            room.clear();
        }
        if answer == Err(FileErr::Failed) {
            self.faults = self.faults.saturating_add(1);
        }
        answer
    }
}

/// How many bytes a sink of the host gathers before it writes them.
const BLOCK: usize = 65536;

/// A writer of the host, as its standard output. Pieces are gathered into blocks of 64 KiB, so that a long text isn't
/// one system call a line: what was put last is written only by `flush`.
#[derive(Drop)]
pub struct HostSink<W: Write + Drop> {
    out: W,
    block: Vec<u8>,
    faults: u64,
    ghost reserved: { BLOCK ≤ vec_capacity block },
    ghost within: { vec_len block ≤ BLOCK },
}

impl<W: Write + Drop> HostSink<W> {
    /// A sink that writes to `out`, with room for one block.
    ///
    /// # Errors
    /// `NoMemory` where there is none for the block.
    pub fn new(alloc: Global, out: W) -> Result<HostSink<W>, NoMemory>
        ensures { IfOk result (λ s. (s.out ≡ out) × (s.block.items ≡ []) × (s.faults ≡ 0)) }
    {
        Ok(HostSink {
            out,
            block: Vec::with_capacity(alloc, BLOCK)?,
            faults: 0,
        })
    }

    /// Writes what is gathered.
    ///
    /// # Errors
    /// `Failed` where the writer fails, which counts as a fault of the sink. It still holds the block then, though some of it may be
    /// written.
    pub fn flush(&mut self) -> Result<(), Failed>
        ensures counted { self.old.faults ≤ self.new.faults }
        ensures failed { OnErr result (Rose self.old.faults self.new.faults) }
        ensures held { OnErr result (self.new.block.items ≡ self.old.block.items) }
        ensures empty { OnOk result (self.new.block.items ≡ []) }
        // Where the writer tells what it holds, the block is written behind it.
        ensures written { OnOk result (Appends (W.contents self.old.out) (W.contents self.new.out) self.old.block.items) }
    {
        let written = self.out.write_all(self.block.as_slice());
        if written.is_err() || self.out.flush().is_err() {
            self.faults = self.faults.saturating_add(1);
            return Err(Failed);
        }
        self.block.clear();
        Ok(())
    }
}

impl<W: Write + Drop> Sink for HostSink<W> {
    ghost taken = { λ _. None };

    ghost faults = { λ s. s.faults };

    /// Gathers as much of the piece as fits into a block, and writes the block before it where it doesn't fit whole.
    ///
    /// # Errors
    /// `Failed` where the block before it can't be written. Nothing of the piece is taken then.
    fn put(&mut self, piece: &[u8]) -> Result<usize, Failed>
        ensures counted { self.old.faults ≤ self.new.faults }
        ensures within { IfOk result (λ n. n ≤ length piece.now) }
        ensures taken_front { IfOk result (λ n. Appends None None (take n piece.now)) }
        ensures failed { OnErr result (Rose self.old.faults self.new.faults) }
        ensures failed_takes_nothing { OnErr result (Appends None None []) }
        ensures stuck { result ≡ Ok 0 → 0 < length piece.now → Rose self.old.faults self.new.faults }

        // Where the writer tells what it holds, what is taken stands behind it and what was gathered.
        ensures gathered { IfOk result (λ n. Appends (put_so_far (W.contents self.old.out) self.old.block.items) (put_so_far (W.contents self.new.out) self.new.block.items) (take n piece.now)) }
        ensures held { OnErr result (self.new.block.items ≡ self.old.block.items) }
    {
        if piece.len() > BLOCK - self.block.len() {
            self.flush()?;
        }
        let fits = piece.len().min(BLOCK - self.block.len());
        self.block.extend_from_slice(&piece[..fits]).unwrap();
        Ok(fits)
    }
}
