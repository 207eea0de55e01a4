//! The outside of stepnc: files that are read, a sink that is written, a gate that tests hold. Files and sinks are traits, each
//! with one implementation over memory and one over the host.
//!
//! | module | what is in it | calls |
//! |---|---|---|
//! | files | files that are read by name, and why one is not read | `Files`, `FileErr` |
//! | sink | what takes bytes, and how a whole text is put | `Sink`, `Failed`, `put_all` |
//! | memory_files | named texts in memory, with reads that fail | `MemoryFiles` |
//! | memory_sink | bytes in memory, with puts that fail | `MemorySink` |
//! | host | the host's files and its standard output | `HostFiles`, `HostSink` |
//! | gate | a gate at which a test can hold a worker | `Gate`, `GatePoint`, `FreeGate` |
//!
//! A fault is answered only where the count of faults of that file or sink rose in the call. What a file holds and what a sink has
//! taken is told by those in memory, and not by the host's: nothing is promised of what the host reads or writes. The tests stand in
//! the crate base_tests.
#![tactic(auto)]

mod files;
mod gate;
mod host;
mod memory_files;
mod memory_sink;
mod sink;

pub use files::{FileErr, Files};
pub use gate::{FreeGate, Gate, GatePoint};
pub use host::{HostFiles, HostSink};
pub use memory_files::MemoryFiles;
pub use memory_sink::MemorySink;
pub use sink::{Failed, Sink, put_all};
