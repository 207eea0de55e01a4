//! Writing a log, and blocks by themselves.

ghost use Rattle.std.specs.Prelude.{◌≡◌, ◌≤◌, length, OnOk, OnErr};
ghost use Rattle.nc_outside.specs.Outside.{Rose, Appends, AppendsFront};
ghost use Rattle.run_log.specs.BlocksText.{blocks_text};
ghost use Rattle.run_log.specs.LogText.{text_of};

use crate::entry::{Ending, Entry, Log};
use crate::lines;
use nc_outside::{Failed, Sink, put_all};
use path_blocks::Block;

/// Why a log was not written whole.
#[derive(Clone, Copy, Debug, PartialEq, Eq)]
pub enum WriteErr {
    /// The sink failed.
    Failed,
}

/// Writes the text of a log: each line is put as one piece. It takes no memory.
///
/// # Errors
/// `Failed` where the sink failed; it has taken a front of the text by then.
pub fn write<S: Sink>(log: &Log, ending: Ending, sink: &mut S) -> Result<(), WriteErr>
    ensures counted { S.faults sink.old ≤ S.faults sink.new }
    ensures ok { OnOk result (Appends (S.taken sink.old) (S.taken sink.new) (text_of log.now ending)) }
    ensures failed { OnErr result (Rose (S.faults sink.old) (S.faults sink.new)) }
    ensures failed_takes_front { OnErr result (AppendsFront (S.taken sink.old) (S.taken sink.new) (text_of log.now ending)) }
{
    put_lines(log.as_slice(), log.len(), ending, sink).map_err(|_| WriteErr::Failed)
}

/// Writes blocks by themselves: each line is put as one piece. It takes no memory.
///
/// # Errors
/// `Failed` where the sink failed; it has taken a front of the text by then.
pub fn write_blocks<S: Sink>(blocks: &[Block], sink: &mut S) -> Result<(), WriteErr>
    ensures counted { S.faults sink.old ≤ S.faults sink.new }
    ensures ok { OnOk result (Appends (S.taken sink.old) (S.taken sink.new) (blocks_text blocks.now)) }
    ensures failed { OnErr result (Rose (S.faults sink.old) (S.faults sink.new)) }
    ensures failed_takes_front { OnErr result (AppendsFront (S.taken sink.old) (S.taken sink.new) (blocks_text blocks.now)) }
{
    put_blocks(blocks, sink).map_err(|_| WriteErr::Failed)
}

/// Puts a line for each block.
fn put_blocks<S: Sink>(blocks: &[Block], sink: &mut S) -> Result<(), Failed>
    ensures counted { S.faults sink.old ≤ S.faults sink.new }
    ensures ok { OnOk result (Appends (S.taken sink.old) (S.taken sink.new) (blocks_text blocks.now)) }
    ensures failed { OnErr result (Rose (S.faults sink.old) (S.faults sink.new)) }
    ensures failed_takes_front { OnErr result (AppendsFront (S.taken sink.old) (S.taken sink.new) (blocks_text blocks.now)) }
{
    for block in blocks {
        put_all(sink, lines::of_block(*block).as_slice())?;
    }
    Ok(())
}

/// Puts the first line, a line for each entry, of which there are so many, and the last line.
fn put_lines<S: Sink>(log: &[Entry], count: u32, ending: Ending, sink: &mut S) -> Result<(), Failed>
    requires { count ≡ length log.now }
    ensures counted { S.faults sink.old ≤ S.faults sink.new }
    ensures ok { OnOk result (Appends (S.taken sink.old) (S.taken sink.new) (text_of log.now ending)) }
    ensures failed { OnErr result (Rose (S.faults sink.old) (S.faults sink.new)) }
    ensures failed_takes_front { OnErr result (AppendsFront (S.taken sink.old) (S.taken sink.new) (text_of log.now ending)) }
{
    put_all(sink, b"STEPNC-LOG 1\n")?;
    for entry in log {
        put_all(sink, lines::of_entry(entry).as_slice())?;
    }
    put_all(sink, lines::of_ending(ending, count).as_slice())
}
