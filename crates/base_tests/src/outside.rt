use crate::expected::expect;
use nc_base::NcText;
use nc_outside::*;
use std::alloc::Global;
use std::fs;
use std::process::Abort;
use std::test::Fail;

fn add(alloc: Global, files: &mut MemoryFiles, name: &[u8], bytes: &[u8]) -> Result<(), Fail> {
    files.add(&NcText::of(alloc, name)?, bytes)?;
    Ok(())
}

// Reads one file into a room that holds what was read before, and stops unless it answers as wanted and the room has these bytes then.
// It says nothing of the files, so a call is proved without those before it.
fn expect_read(
    rt: &impl Abort,
    room: &mut Vec<u8>,
    files: &mut impl Files,
    name: &[u8],
    most: u32,
    want: Result<(), FileErr>,
    bytes: &[u8],
) -> Result<(), Fail> {
    let name = NcText::of(*room.allocator(), name)?;
    expect(rt, files.read(&name, room, most), want);
    expect(rt, room.as_slice(), bytes);
    Ok(())
}

// A name, how many bytes may be read, what the read answers, and what the room has then.
type Read = (&'static [u8], u32, Result<(), FileErr>, &'static [u8]);

// Reads in a row of files that hold five bytes and of which the third read fails.
const READS: [Read; 5] = [
    (b"plate.stp", 5, Ok(()), b"three"),
    (b"plate.stp", 4, Err(FileErr::TooLong), b""),
    (b"plate.stp", 5, Err(FileErr::Failed), b""),
    (b"other.stp", 5, Err(FileErr::Failed), b""),
    (b"plate.stp", 5, Ok(()), b"three"),
];

fn expect_reads(
    rt: &impl Abort,
    room: &mut Vec<u8>,
    files: &mut impl Files,
    rows: &[Read],
) -> Result<(), Fail> {
    for (name, most, want, bytes) in rows {
        expect_read(rt, room, files, *name, *most, *want, *bytes)?;
    }
    Ok(())
}

// A file that was added twice, of which the third read fails.
fn added_twice(alloc: Global) -> Result<MemoryFiles, Fail> {
    let mut files = MemoryFiles::new(alloc);
    add(alloc, &mut files, b"plate.stp", b"one")?;
    add(alloc, &mut files, b"plate.stp", b"three")?;
    files.fail_at(2)?;
    Ok(files)
}

#[test]
fn memory_files_hold_and_fail(rt: HostRuntime) -> Result<(), Fail> {
    let mut files = added_twice(rt.alloc())?;
    let mut room = Vec::new(rt.alloc());
    expect_reads(&rt, &mut room, &mut files, &READS)
}

// Puts a piece whole, and stops unless it answers as wanted. It says nothing of the sink.
fn expect_put_all(rt: &impl Abort, sink: &mut impl Sink, piece: &[u8], want: Result<(), Failed>) {
    expect(rt, put_all(sink, piece), want);
}

// The same of one put.
fn expect_put(rt: &impl Abort, sink: &mut impl Sink, piece: &[u8], want: Result<usize, Failed>) {
    expect(rt, sink.put(piece), want);
}

// A sink with room for five bytes, of which the second put fails.
fn sink_of_five(alloc: Global) -> Result<MemorySink, Fail> {
    let mut sink = MemorySink::new(alloc, 5)?;
    sink.fail_at(1)?;
    Ok(sink)
}

#[test]
fn memory_sink_takes_what_fits(rt: HostRuntime) -> Result<(), Fail> {
    let mut sink = sink_of_five(rt.alloc())?;
    expect_put(&rt, &mut sink, b"abc", Ok(3));
    expect_put(&rt, &mut sink, b"de", Err(Failed));
    for (piece, want) in [
        (b"de".as_slice(), Ok(())),
        (b"", Ok(())),
        (b"f", Err(Failed)),
    ] {
        expect_put_all(&rt, &mut sink, piece, want);
    }
    expect(&rt, sink.bytes(), b"abcde".as_slice());
    Ok(())
}

const HOST_FILE: &str = "/tmp/stepnc_host_files_test";

const HOST_NAME: &[u8] = b"/tmp/stepnc_host_files_test";

// Reads of a file of twelve bytes, and one once it is gone.
const HOST_READS: [Read; 2] = [
    (HOST_NAME, 12, Ok(()), b"twelve bytes"),
    (HOST_NAME, 11, Err(FileErr::TooLong), b""),
];

const GONE: [Read; 1] = [(HOST_NAME, 12, Err(FileErr::Failed), b"")];

#[test]
fn host_files_are_read_whole_or_not(rt: HostRuntime) -> Result<(), Fail> {
    let mut files = HostFiles::new(&rt);
    let mut room = Vec::new(rt.alloc());
    fs::write(&rt, HOST_FILE, "twelve bytes")?;
    expect_reads(&rt, &mut room, &mut files, &HOST_READS)?;
    fs::remove_file(&rt, HOST_FILE)?;
    expect_reads(&rt, &mut room, &mut files, &GONE)
}

#[test]
fn a_full_disk_is_a_fault_of_the_sink(rt: HostRuntime) -> Result<(), Fail> {
    let full = fs::File::options().write(true).open(&rt, "/dev/full")?;
    let mut sink = HostSink::new(rt.alloc(), full)?;
    expect_put_all(&rt, &mut sink, b"STEPNC-LOG 1\n", Ok(()));
    expect(&rt, sink.flush(), Err(Failed));
    Ok(())
}

#[test]
fn the_host_is_written_in_blocks(rt: HostRuntime) -> Result<(), Fail> {
    let mut sink = HostSink::new(rt.alloc(), Vec::new(rt.alloc()))?;
    expect_put_all(&rt, &mut sink, &[7; 65_535], Ok(()));
    expect_put_all(&rt, &mut sink, b"ab", Ok(()));
    expect_put_all(&rt, &mut sink, &[8; 65_537], Ok(()));
    expect(&rt, sink.flush(), Ok(()));
    Ok(())
}
